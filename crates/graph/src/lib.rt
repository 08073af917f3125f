// The judgement of a graph file: answers 1 to 9, 15 and 17.
#![tactic(auto)]

ghost use Rattle.std.specs.Prelude.{◌≡◌, ◌<◌, IfOk, IfErr};
ghost use Rattle.answer.specs.Number.{number_of};
ghost use Rattle.words.specs.Lowest.{lowest};
ghost use Rattle.graph_tables.specs.Trailer.{tables_of};
ghost use Rattle.graph_refuse.specs.Bad.{uncalled};
ghost use Rattle.graph_rows.specs.Rows.{Sorted};
ghost use Rattle.sheet_layout.specs.Layout.{Within};
ghost use Rattle.answer.specs.declared.Answer.TheVariants.{Pass};
ghost use Rattle.graph_scan.specs.Scan.{refusal_or};
ghost use Rattle.graph.specs.Judge.{judge_rows, judge_in, judge_of};
ghost use Rattle.graph.specs.Judgement.{shape_of, shape_for, judged_of};
ghost use Rattle.graph.specs.Meaning.{Judges};

use answer::Answer;
use graph_tables::{Graph, Kind, Table, Tables};
use sheet_layout::Shape;

// What is found of a file by looking at it once: the answer 1 to 9, 15, 17 or 0, its tables, and the shape of its sheet.
#[derive(Clone, Copy)]
pub struct Judgement {
    pub answer: Answer,
    pub tables: Tables,
    pub shape: Shape,
}

// The node is a call and no call row names it: in a sorted table its stretch is empty.
fn uncalled(g: &Graph, n: u16) -> bool
    requires { Sorted g.now.file.now g.now.tables }
    ensures { result ≡ uncalled g.now.file.now g.now.tables n }
{
    if g.is_kind(n, Kind::Call) {
        return graph_rows::no_rows(graph_rows::calls_of(g, n));
    }
    false
}

// The lowest such node, or how many nodes there are, which is what `lowest` gives for none.
fn lowest_uncalled(g: &Graph) -> u16
    requires { Sorted g.now.file.now g.now.tables }
    ensures { result ≡ lowest (uncalled g.now.file.now g.now.tables) g.now.tables.nodes }
{
    (0..g.tables.nodes)
        .find(|n| uncalled(g, *n))
        .unwrap_or(g.tables.nodes)
}

// Calls without a row are looked for where the first stage refuses nothing: the tables are sorted then.
fn judge_rows(g: &Graph) -> Result<(), Answer>
    ensures first { judge_rows g.now.file.now g.now.tables ≡ refusal_or result Pass }
    ensures refusal { IfErr result (λ a. 0 < number_of a) }
{
    graph_scan::pass_tables(g)?;
    let n = lowest_uncalled(g);
    if n < g.tables.nodes {
        return Err(graph_places::no_call_row_at(g, n));
    }
    graph_scan::pass_table(g, Table::Opening)
}

fn judge(g: &Graph) -> Result<(), Answer>
    ensures first { judge_in g.now.file.now g.now.tables ≡ refusal_or result Pass }
    ensures refusal { IfErr result (λ a. 0 < number_of a) }
{
    if g.file.len() < 14 {
        return Err(Answer::TooShort);
    }
    graph_scan::pass_table(g, Table::Trailer)?;
    if graph_refuse::length_bad(g) {
        return Err(Answer::BadLength);
    }
    judge_rows(g)
}

// The shape of the sheet. A file that is refused has no sheet: no methods, nodes or types.
fn shape(a: Answer, t: Tables) -> Shape
    ensures { result ≡ shape_for a t }
{
    match a {
        Answer::Pass => Shape {
            methods: t.methods,
            nodes: t.nodes,
            types: t.types,
        },
        _ => Shape {
            methods: 0,
            nodes: 0,
            types: 0,
        },
    }
}

// Pass says that nothing refuses the file; whether a run overdraws is for the operations above to say.
pub fn judged(f: &[u8]) -> Judgement
    ensures equals { result ≡ judged_of f.now }
    ensures means { Judges f.now result.answer }
    ensures within { Within result.shape }
{
    let tables = graph_trailer::read(f);
    let g = Graph { file: f, tables };
    let answer = judge(&g).err().unwrap_or(Answer::Pass);
    Judgement {
        answer,
        tables,
        shape: shape(answer, tables),
    }
}

// A graph file that passes, and the shape of its sheet.
#[derive(Clone, Copy)]
pub struct PassedGraph<'a> {
    pub graph: Graph<'a>,
    pub shape: Shape,
    ghost passes: { judge_of graph.file.now ≡ Pass },
    ghost tables_are: { graph.tables ≡ tables_of graph.file.now },
    ghost shape_is: { shape ≡ shape_of graph.tables },
}

// The file as one that passes, or its refusal.
#[tactic(auto, using(crate::proofs::Meaning::judges_as))]
pub fn pass(f: &[u8]) -> Result<PassedGraph<'_>, Answer>
    ensures passes { IfOk result (λ p. p.graph.file.now ≡ f.now) }
    ensures means { IfOk result (λ p. Judges f.now Pass) × IfErr result (λ a. Judges f.now a) }
    ensures refusal { IfErr result (λ a. (judge_of f.now ≡ a) × (0 < number_of a)) }
{
    let tables = graph_trailer::read(f);
    let graph = Graph { file: f, tables };
    judge(&graph)?;
    let shape = Shape {
        methods: tables.methods,
        nodes: tables.nodes,
        types: tables.types,
    };
    Ok(PassedGraph { graph, shape })
}
