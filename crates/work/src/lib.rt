// Work out: a graph file in, the verdict and the permission sheet out.
#![tactic(auto)]

ghost use Rattle.std.specs.Prelude.{◌≡◌};
ghost use Rattle.graph.specs.Judgement.{judged_of};
ghost use Rattle.sheet.specs.Write.{blanked};
ghost use Rattle.rule_ready.specs.Ready.{Ready};
ghost use Rattle.work.specs.Swept.{Settled};
ghost use Rattle.work.specs.Meaning.{WorksOut};

use answer::Answer;
use graph::{Judgement, PassedGraph};
use graph_tables::Graph;
use sheet_layout::Shape;

// The sheet is made blank and swept, forwards and backwards in turn, until a sweep writes nothing.
fn settle(g: &Graph, x: Shape, s: &mut [u8])
    requires { Ready g.now.file.now g.now.tables x s.old }
    ensures { Settled g.now.file.now g.now.tables x (blanked s.old) s.new }
{
    sheet::blank(s);
    let mut backwards = false;
    while engine_sweep::once(g, x, s, backwards) {
        backwards = !backwards;
    }
}

// The sheet of a file that passes.
fn of_passed(p: &PassedGraph, s: &mut [u8]) -> Answer
    ensures { WorksOut p.now.graph.file.now s.old s.new result }
{
    if s.len() != sheet_layout::sheet_bytes(p.shape) {
        return Answer::BadSheet;
    }
    settle(&p.graph, p.shape, s);
    accept_draws::verdict(&p.graph, p.shape, s)
}

// Work out for a file that has been judged, so that whoever lends the sheet judges it once.
pub fn of_judged(f: &[u8], j: Judgement, s: &mut [u8]) -> Answer
    requires { j ≡ judged_of f.now }
    ensures { WorksOut f.now s.old s.new result }
{
    match j.answer {
        Answer::Pass => {
            let graph = Graph {
                file: f,
                tables: j.tables,
            };
            let shape = j.shape;
            of_passed(&PassedGraph { graph, shape }, s)
        }
        refusal => refusal,
    }
}

// The graph file f is judged; if it passes, the sheet is written. Else the sheet is left as it was.
pub fn work_out(f: &[u8], s: &mut [u8]) -> Answer
    ensures { WorksOut f.now s.old s.new result }
{
    match graph::pass(f) {
        Ok(p) => of_passed(&p, s),
        Err(refusal) => refusal,
    }
}
