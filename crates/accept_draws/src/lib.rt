// The draws that a sheet calls reached, each against the stock that it says there.
#![tactic(auto)]

ghost use Rattle.std.specs.Prelude.{◌≡◌};
ghost use Rattle.accept_draws.specs.Draws.{uncovered_at, verdict_of};

use answer::Answer;
use graph_tables::{Graph, Kind};
use sheet_layout::Shape;

// Node n is a draw, the sheet calls it reached, and its stock there does not cover it. Judged before the node's own step.
fn uncovered(g: &Graph, x: Shape, s: &[u8], n: u16) -> bool
    ensures { result ≡ uncovered_at g.now.file.now g.now.tables x s.now n }
{
    if g.is_kind(n, Kind::Draw) && reach::reached(g, x, s, n) {
        let number = g.node_number(n);
        let rights = g.node_rights(n);
        return !reach::covers(g, x, s, n, number as usize, rights);
    }
    false
}

// The draws: 13 with the lowest node that is not covered, or 0.
pub fn verdict(g: &Graph, x: Shape, s: &[u8]) -> Answer
    ensures { result ≡ verdict_of g.now.file.now g.now.tables x s.now }
{
    match (0..g.tables.nodes).find(|n| uncovered(g, x, s, *n)) {
        Some(n) => graph_places::overdrawn_at(g, n),
        None => Answer::Pass,
    }
}
