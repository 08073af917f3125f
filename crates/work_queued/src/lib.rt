// Work out by the queue engine: the same answers and the same sheets, in a lent area of 4,096 bytes.
#![tactic(auto)]

ghost use Rattle.std.specs.Prelude.{◌≡◌};
ghost use Rattle.graph.specs.Judgement.{judged_of};
ghost use Rattle.work_queued.specs.Meaning.{WorksQueued};

use answer::Answer;
use graph::{Judgement, PassedGraph};
use graph_tables::Graph;

// How long the area is.
pub const AREA: usize = 4096;

// The sheet of a file that passes.
fn of_passed(p: &PassedGraph, s: &mut [u8], area: &mut [u8]) -> Answer
    ensures { WorksQueued p.now.graph.file.now s.old s.new area.old area.new result }
{
    if s.len() != sheet_layout::sheet_bytes(p.shape) {
        return Answer::BadSheet;
    }
    if area.len() != AREA {
        return Answer::BadArea;
    }
    engine_queue::settle(&p.graph, p.shape, s, area);
    accept_draws::verdict(&p.graph, p.shape, s)
}

// For a file that has been judged, so that whoever lends the sheet judges it once.
pub fn of_judged(f: &[u8], j: Judgement, s: &mut [u8], area: &mut [u8]) -> Answer
    requires { j ≡ judged_of f.now }
    ensures { WorksQueued f.now s.old s.new area.old area.new result }
{
    match j.answer {
        Answer::Pass => {
            let graph = Graph {
                file: f,
                tables: j.tables,
            };
            let shape = j.shape;
            of_passed(&PassedGraph { graph, shape }, s, area)
        }
        refusal => refusal,
    }
}

// The graph file f is judged; if it passes, the sheet is written, and the area is left blank. Else both are left as they were.
pub fn work_out_queued(f: &[u8], s: &mut [u8], area: &mut [u8]) -> Answer
    ensures { WorksQueued f.now s.old s.new area.old area.new result }
{
    match graph::pass(f) {
        Ok(p) => of_passed(&p, s, area),
        Err(refusal) => refusal,
    }
}
