// Check: a graph file and a sheet from anybody in, the answer out. Both are only read. Of many sheets the answers go into a lent row.
#![tactic(auto)]

ghost use Rattle.std.specs.Prelude.{◌≡◌, length};
ghost use Rattle.graph_rows.specs.Rows.{Sorted};
ghost use Rattle.graph_nodes.specs.Program.{Safe};
ghost use Rattle.sheet_layout.specs.Layout.{Within, sheet_bytes};
ghost use Rattle.accept_row.specs.Counts.{Counts};
ghost use Rattle.accept.specs.Check.{judged_sheet, whole_sheet, check_of};
ghost use Rattle.accept.specs.Meaning.{Checks};
ghost use Rattle.accept.specs.Many.{Told, ChecksMany, SafeRow};

use answer::Answer;
use graph::PassedGraph;
use graph_tables::Graph;
use sheet_layout::Shape;

// The rules and the draws, of a sheet with no ill-formed block.
fn of_whole(g: &Graph, x: Shape, s: &[u8]) -> Answer
    requires { Sorted g.now.file.now g.now.tables }
    ensures { result ≡ whole_sheet g.now.file.now g.now.tables x s.now }
{
    // A rule and a type are one number there: see `NONE`.
    let key = rule_test::least_key(g, x, s);
    if key < rule_test::NONE {
        return Answer::Broken((key / 8) as u16, (key % 8) as u16);
    }
    accept_draws::verdict(g, x, s)
}

// The sheet, for a file that passes.
fn of_judged(g: &Graph, x: Shape, s: &[u8]) -> Answer
    requires { Sorted g.now.file.now g.now.tables × Within x }
    ensures { result ≡ judged_sheet g.now.file.now g.now.tables x s.now }
{
    if s.len() != sheet_layout::sheet_bytes(x) {
        return Answer::BadSheet;
    }
    let b = sheet_formed::first_ill(s, x);
    if b < sheet_layout::block_count(x) {
        return Answer::BadBlock(sheet_layout::block_at(x, b) as u16);
    }
    of_whole(g, x, s)
}

// The graph file f is judged first, and then the sheet s, whoever made it.
pub fn check(f: &[u8], s: &[u8]) -> Answer
    ensures equals { result ≡ check_of f.now s.now }
    ensures means { Checks f.now s.now result }
    ensures safe { Safe f.now result }
{
    match graph::pass(f) {
        Ok(p) => of_judged(&p.graph, p.shape, s),
        Err(refusal) => refusal,
    }
}

// The sheets of a file that passes are checked in turn.
fn fill_row(p: &PassedGraph, sheets: &[u8], count: usize, row: &mut [u32])
    requires { Counts (sheet_bytes p.now.shape) (length sheets.now) (length row.old) count }
    ensures { Told p.now.graph.file.now sheets.now row.old row.new count }
{
    let size = sheet_layout::sheet_bytes(p.shape);
    for i in 0..count {
        let start = i * size;
        let end = start + size;
        let a = of_judged(&p.graph, p.shape, &sheets[start..end]);
        accept_row::put_answer(row, i, a);
    }
}

// The sheets and the row, for a file that passes.
fn many_of_passed(p: &PassedGraph, sheets: &[u8], row: &mut [u32]) -> Answer
    ensures { ChecksMany p.now.graph.file.now sheets.now row.old row.new result }
{
    match accept_row::count_of(p.shape, sheets.len(), row.len()) {
        Some(count) => {
            fill_row(p, sheets, count, row);
            Answer::Pass
        }
        None => Answer::BadRow,
    }
}

// The graph file f is judged once, and then each of the sheets that stand end to end. The row gets two numbers for each: the number and
// the place that `check` answers for that sheet alone. A refusal leaves the row as it was.
pub fn check_many(f: &[u8], sheets: &[u8], row: &mut [u32]) -> Answer
    ensures means { ChecksMany f.now sheets.now row.old row.new result }
    ensures safe { SafeRow f.now row.new result }
{
    let passed = graph::pass(f);
    match passed {
        Ok(p) => many_of_passed(&p, sheets, row),
        Err(refusal) => refusal,
    }
}
