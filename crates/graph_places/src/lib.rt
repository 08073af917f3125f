// The answers that name a node are made here, with its line.
#![tactic(auto)]

ghost use Rattle.std.specs.Prelude.{◌≡◌};
ghost use Rattle.graph_places.specs.Places.{bad_node_at, no_call_row_at, overdrawn_at, unfit_at};

use answer::Answer;
use graph_tables::Graph;

pub fn bad_node_at(g: &Graph, k: u16) -> Answer
    ensures { result ≡ bad_node_at g.now.file.now g.now.tables k }
{
    Answer::BadNode(k, g.node_line(k))
}

pub fn no_call_row_at(g: &Graph, n: u16) -> Answer
    ensures { result ≡ no_call_row_at g.now.file.now g.now.tables n }
{
    Answer::NoCallRow(n, g.node_line(n))
}

pub fn overdrawn_at(g: &Graph, n: u16) -> Answer
    ensures { result ≡ overdrawn_at g.now.file.now g.now.tables n }
{
    Answer::Overdrawn(n, g.node_number(n), g.node_line(n))
}

pub fn unfit_at(g: &Graph, n: u16) -> Answer
    ensures { result ≡ unfit_at g.now.file.now g.now.tables n }
{
    Answer::Unfit(n, g.node_line(n))
}
