// Which rows of the flow, the calls and the catches are refused: the tests behind answers 6, 7 and 8.
#![tactic(auto)]

ghost use Rattle.std.specs.Prelude.{◌≡◌};
ghost use Rattle.graph_tables.specs.Fields.{flow_from, flow_to, call_node, call_method, catch_from, catch_exception, catch_to};
ghost use Rattle.graph_refuse.specs.Bad.{not_above, flow_row, call_row, catch_row, flow_bad, call_bad, kin, throws_other, catch_bad};

use graph_tables::{Graph, Kind};

// The rows, field by field.
fn flow_row(g: &Graph, k: u16) -> (u16, u16)
    ensures { result ≡ (flow_from g.now.file.now g.now.tables k, flow_to g.now.file.now g.now.tables k) }
{
    (g.flow_from(k), g.flow_to(k))
}

fn call_row(g: &Graph, k: u16) -> (u16, u16)
    ensures { result ≡ (call_node g.now.file.now g.now.tables k, call_method g.now.file.now g.now.tables k) }
{
    (g.call_node(k), g.call_method(k))
}

fn catch_row(g: &Graph, k: u16) -> (u16, u16, u16)
    ensures { result ≡ (catch_from g.now.file.now g.now.tables k, catch_exception g.now.file.now g.now.tables k, catch_to g.now.file.now g.now.tables k) }
{
    (g.catch_from(k), g.catch_exception(k), g.catch_to(k))
}

// One line for each table: a closure for the row would be longer.
fn flow_not_above(g: &Graph, k: u16) -> bool
    ensures { result ≡ not_above (flow_row g.now.file.now g.now.tables) k }
{
    k != 0 && flow_row(g, k) <= flow_row(g, k - 1)
}

pub fn flow_bad(g: &Graph, k: u16) -> bool
    ensures { result ≡ flow_bad g.now.file.now g.now.tables k }
{
    let from = g.flow_from(k);
    let to = g.flow_to(k);
    let returns = g.is_kind(from, Kind::Return);
    let throws = g.is_kind(from, Kind::Throw);
    let a = g.node_method(from);
    let b = g.node_method(to);
    let falls = flow_not_above(g, k);
    (g.tables.nodes <= from) | (g.tables.nodes <= to) | returns | throws | (a != b) | falls
}

fn call_not_above(g: &Graph, k: u16) -> bool
    ensures { result ≡ not_above (call_row g.now.file.now g.now.tables) k }
{
    k != 0 && call_row(g, k) <= call_row(g, k - 1)
}

pub fn call_bad(g: &Graph, k: u16) -> bool
    ensures { result ≡ call_bad g.now.file.now g.now.tables k }
{
    let node = g.call_node(k);
    let method = g.call_method(k);
    let calls = g.is_kind(node, Kind::Call);
    let falls = call_not_above(g, k);
    (g.tables.nodes <= node) | !calls | (g.tables.methods <= method) | falls
}

// Whether c is the kind e or an ancestor of it. Each step leads to a lower number, so there is an end whatever the parents are.
fn kin(g: &Graph, e: u16, c: u16) -> bool
    ensures { result ≡ kin g.now.file.now g.now.tables e c }
{
    let mut kind = e;
    while kind != c {
        let parent = g.parent(kind);
        if kind <= parent {
            return false;
        }
        kind = parent;
    }
    true
}

fn throws_other(g: &Graph, n: u16, exception: u16) -> bool
    ensures { result ≡ throws_other g.now.file.now g.now.tables n exception }
{
    if g.is_kind(n, Kind::Call) {
        return false;
    }
    if g.is_kind(n, Kind::Throw) {
        return !kin(g, g.node_number(n), exception);
    }
    true
}

fn catch_not_above(g: &Graph, k: u16) -> bool
    ensures { result ≡ not_above (catch_row g.now.file.now g.now.tables) k }
{
    k != 0 && catch_row(g, k) <= catch_row(g, k - 1)
}

pub fn catch_bad(g: &Graph, k: u16) -> bool
    ensures { result ≡ catch_bad g.now.file.now g.now.tables k }
{
    let from = g.catch_from(k);
    let exception = g.catch_exception(k);
    let to = g.catch_to(k);
    let other = throws_other(g, from, exception);
    let a = g.node_method(from);
    let b = g.node_method(to);
    let falls = catch_not_above(g, k);
    (g.tables.nodes <= from) | (g.tables.nodes <= to) | (7 < exception) | other | (a != b) | falls
}
