// The tables of a graph file, looked at one after the other: which row is refused, and with which answer.
#![tactic(auto)]

ghost use Rattle.std.specs.Prelude.{◌≡◌, ◌<◌, IfErr};
ghost use Rattle.answer.specs.Number.{number_of};
ghost use Rattle.words.specs.Lowest.{lowest};
ghost use Rattle.answer.specs.declared.Answer.{Answer};
ghost use Rattle.graph_tables.specs.Rows.{rows_of};
ghost use Rattle.graph_scan.specs.Scan.{refusal_or, refused, row_bad, bad_row, judge_tables};

use answer::Answer;
use graph_tables::{Graph, Table};

fn row_bad(g: &Graph, table: Table, k: u16) -> bool
    ensures { result ≡ row_bad g.now.file.now g.now.tables table k }
{
    match table {
        Table::Trailer => graph_refuse::count_bad(g.file, k),
        Table::Methods => graph_refuse::entry_bad(g, k),
        Table::Nodes => graph_refuse::node_bad(g, k),
        Table::Flow => graph_edges::flow_bad(g, k),
        Table::Calls => graph_edges::call_bad(g, k),
        Table::Parents => graph_refuse::parent_bad(g, k),
        Table::Catches => graph_edges::catch_bad(g, k),
        Table::Opening => graph_refuse::opening_bad(g, k),
    }
}

// The lowest row of the table that is refused, or how many rows there are, which is what `lowest` gives for none.
fn lowest_bad(g: &Graph, table: Table) -> u16
    ensures { result ≡ lowest (row_bad g.now.file.now g.now.tables table) (rows_of g.now.tables table) }
{
    let n = graph_tables::rows(g.tables, table);
    (0..n).find(|k| row_bad(g, table, *k)).unwrap_or(n)
}

// The answer for row k of the table.
fn bad_row(g: &Graph, table: Table, k: u16) -> Answer
    ensures { result ≡ bad_row g.now.file.now g.now.tables table k }
{
    match table {
        Table::Trailer => Answer::BadCount(k),
        Table::Methods => Answer::BadEntry(k),
        Table::Nodes => graph_places::bad_node_at(g, k),
        Table::Flow => Answer::BadFlow(k),
        Table::Calls => Answer::BadCall(k),
        Table::Parents => Answer::BadParent(k),
        Table::Catches => Answer::BadCatch(k),
        Table::Opening => Answer::BadOpening(k),
    }
}

// Err has the table's refusal, which stands before whatever comes next.
pub fn pass_table(g: &Graph, table: Table) -> Result<(), Answer>
    ensures first { (next : Answer) → refused (row_bad g.now.file.now g.now.tables table) (rows_of g.now.tables table) (bad_row g.now.file.now g.now.tables table) next ≡ refusal_or result next }
    ensures refusal { IfErr result (λ a. 0 < number_of a) }
{
    let k = lowest_bad(g, table);
    if k < graph_tables::rows(g.tables, table) {
        return Err(bad_row(g, table, k));
    }
    Ok(())
}

// The tables of the first stage in their order.
pub fn pass_tables(g: &Graph) -> Result<(), Answer>
    ensures first { (next : Answer) → judge_tables g.now.file.now g.now.tables next ≡ refusal_or result next }
    ensures refusal { IfErr result (λ a. 0 < number_of a) }
{
    pass_table(g, Table::Methods)?;
    pass_table(g, Table::Nodes)?;
    pass_table(g, Table::Flow)?;
    pass_table(g, Table::Calls)?;
    pass_table(g, Table::Parents)?;
    pass_table(g, Table::Catches)
}
