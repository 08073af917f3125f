// Which nodes the rows of a graph file convict, and the lowest that breaks a profile.
#![tactic(auto)]

ghost use Rattle.std.specs.Prelude.{◌≡◌};
ghost use Rattle.profile_looks.specs.Looks.{is_draw, asks, rows_of, node_of, convicts, convicted, lowest_of, breaking};

use graph_tables::{Graph, Kind, Tables};

// A look at the rows of one table. A row may convict a node.
#[derive(Clone, Copy)]
pub enum Look {
    // One-shot: the draw that a flow row leads to, that a method starts with, that a catch row leads to.
    Flow,
    Entry,
    Catch,
    // Session: a grant, the call of a call row.
    Grant,
    Call,
}

#[derive(Clone, Copy)]
pub enum Profile {
    OneShot,
    Session,
}

fn rows(t: Tables, look: Look) -> u16
    ensures { result ≡ rows_of t look }
{
    match look {
        Look::Flow => t.flows,
        Look::Entry => t.methods,
        Look::Catch => t.catches,
        Look::Grant => t.nodes,
        Look::Call => t.calls,
    }
}

// The node that row k speaks of.
fn node(g: &Graph, look: Look, k: u16) -> u16
    ensures { result ≡ node_of g.now.file.now g.now.tables look k }
{
    match look {
        Look::Flow => g.flow_to(k),
        Look::Entry => g.entry(k),
        Look::Catch => g.catch_to(k),
        Look::Grant => k,
        Look::Call => g.call_node(k),
    }
}

fn is_draw(g: &Graph, n: u16) -> bool
    ensures { result ≡ is_draw g.now.file.now g.now.tables n }
{
    g.is_kind(n, Kind::Draw)
}

// Node a is a grant of the type of the draw d, whose rights contain the draw's, with a count of exactly 1.
fn asks(g: &Graph, a: u16, d: u16) -> bool
    ensures { result ≡ asks g.now.file.now g.now.tables a d }
{
    let grants = g.is_kind(a, Kind::Grant);
    let granted = g.node_number(a);
    let drawn = g.node_number(d);
    let given = g.node_rights(a);
    let needed = g.node_rights(d);
    let count = g.node_count(a);
    grants & (granted == drawn) & (needed & given == needed) & (count == 1)
}

// Flow row k leads to a draw, and leaves anything but a grant that asks for it.
fn flow_convicts(g: &Graph, k: u16) -> bool
    ensures { result ≡ convicts g.now.file.now g.now.tables Look.Flow k }
{
    let from = g.flow_from(k);
    let to = g.flow_to(k);
    is_draw(g, to) & !asks(g, from, to)
}

// Node k is a grant, and does not stand in method 0 with count 255.
fn grant_convicts(g: &Graph, k: u16) -> bool
    ensures { result ≡ convicts g.now.file.now g.now.tables Look.Grant k }
{
    let grants = g.is_kind(k, Kind::Grant);
    let method = g.node_method(k);
    let count = g.node_count(k);
    grants & !((method == 0) & (count == 255))
}

fn convicts(g: &Graph, look: Look, k: u16) -> bool
    ensures { result ≡ convicts g.now.file.now g.now.tables look k }
{
    match look {
        Look::Flow => flow_convicts(g, k),
        Look::Entry => is_draw(g, g.entry(k)),
        Look::Catch => is_draw(g, g.catch_to(k)),
        Look::Grant => grant_convicts(g, k),
        Look::Call => g.call_method(k) == 0,
    }
}

// The node that row k convicts, or how many nodes there are, as `convicted` of the specs has it.
fn convicted(g: &Graph, look: Look, k: u16) -> u16
    ensures { result ≡ convicted g.now.file.now g.now.tables look k }
{
    if convicts(g, look, k) {
        return node(g, look, k);
    }
    g.tables.nodes
}

// The lowest node that a row of the look's table convicts, or how many nodes there are: a None would be less than every node.
fn lowest(g: &Graph, look: Look) -> u16
    ensures { result ≡ lowest_of g.now.file.now g.now.tables look }
{
    let mut least = g.tables.nodes;
    for k in 0..rows(g.tables, look) {
        least = least.min(convicted(g, look, k));
    }
    least
}

// The lowest node that breaks the profile, or how many nodes there are, as `breaking` of the specs has it.
pub fn breaking(g: &Graph, profile: Profile) -> u16
    ensures { result ≡ breaking g.now.file.now g.now.tables profile }
{
    match profile {
        Profile::OneShot => {
            let flow = lowest(g, Look::Flow);
            let entry = lowest(g, Look::Entry);
            let catches = lowest(g, Look::Catch);
            flow.min(entry.min(catches))
        }
        Profile::Session => {
            let grant = lowest(g, Look::Grant);
            let call = lowest(g, Look::Call);
            grant.min(call)
        }
    }
}
