// The rows of one node. The flow, the calls and the catches are sorted, so a node's rows stand together, and are found by halving.
#![tactic(auto)]

ghost use Rattle.std.specs.Prelude.{◌≡◌, ◌<◌, ◌≤◌};
ghost use Rattle.graph_rows.specs.Rows.{catch_key, key_of, Sorted, first_row, stretch_of, flow_of, calls_of, own_of, catches_of, no_rows, target_of};

use graph_tables::{Graph, Table};

// The rows from `from` on and before `to`.
#[derive(Clone, Copy)]
pub struct Stretch {
    pub from: u16,
    pub to: u16,
}

// One number for a node and an exception, of which there are eight.
fn catch_key(n: u16, e: u16) -> u32
    ensures { result ≡ catch_key n e }
{
    8 * (n as u32) + e as u32
}

// What the rows of a node share.
fn key(g: &Graph, table: Table, k: u16) -> u32
    ensures { result ≡ key_of g.now.file.now g.now.tables table k }
{
    match table {
        Table::Trailer => k as u32,
        Table::Methods => k as u32,
        Table::Nodes => k as u32,
        Table::Flow => g.flow_from(k) as u32,
        Table::Calls => g.call_node(k) as u32,
        Table::Parents => k as u32,
        Table::Catches => catch_key(g.catch_from(k), g.catch_exception(k)),
        Table::Opening => k as u32,
    }
}

// The lowest row whose key is at least x, or how many rows there are. Halved by hand: the keys are fields of rows in the lent bytes, and
// there is no heap for a slice of them.
fn first_row(g: &Graph, table: Table, x: u32) -> u16
    requires { Sorted g.now.file.now g.now.tables }
    ensures { result ≡ first_row g.now.file.now g.now.tables table x }
{
    let mut low = 0;
    let mut high = graph_tables::rows(g.tables, table);
    while low < high {
        let middle = low + (high - low) / 2;
        if x <= key(g, table, middle) {
            high = middle;
        } else {
            low = middle + 1;
        }
    }
    low
}

// The same by a walk from a row that is not past it: a node has few rows, so the end of a stretch is near its start.
fn seek(g: &Graph, table: Table, x: u32, from: u16) -> u16
    requires { from ≤ first_row g.now.file.now g.now.tables table x }
    ensures { result ≡ first_row g.now.file.now g.now.tables table x }
{
    let n = graph_tables::rows(g.tables, table);
    (from..n).find(|k| x <= key(g, table, *k)).unwrap_or(n)
}

// The rows with key x.
fn with_key(g: &Graph, table: Table, x: u32) -> Stretch
    requires { Sorted g.now.file.now g.now.tables × (x < 1048576) }
    ensures { result ≡ stretch_of g.now.file.now g.now.tables table x }
{
    let from = first_row(g, table, x);
    Stretch {
        from,
        to: seek(g, table, x + 1, from),
    }
}

// The flow rows from node n,
pub fn flow_of(g: &Graph, n: u16) -> Stretch
    requires { Sorted g.now.file.now g.now.tables }
    ensures { result ≡ flow_of g.now.file.now g.now.tables n }
{
    with_key(g, Table::Flow, n as u32)
}

// the call rows at node n,
pub fn calls_of(g: &Graph, n: u16) -> Stretch
    requires { Sorted g.now.file.now g.now.tables }
    ensures { result ≡ calls_of g.now.file.now g.now.tables n }
{
    with_key(g, Table::Calls, n as u32)
}

// and the catch rows at node n for the exception e itself.
fn own_of(g: &Graph, n: u16, e: u16) -> Stretch
    requires { Sorted g.now.file.now g.now.tables }
    ensures { result ≡ own_of g.now.file.now g.now.tables n e }
{
    with_key(g, Table::Catches, catch_key(n, e))
}

pub fn no_rows(s: Stretch) -> bool
    ensures { result ≡ no_rows s }
{
    s.to <= s.from
}

// The catch rows that apply to the exception e at node n: its own, or, if it has none, those of its nearest ancestor that has some.
pub fn catches_of(g: &Graph, n: u16, e: u16) -> Stretch
    requires { Sorted g.now.file.now g.now.tables }
    ensures { result ≡ catches_of g.now.file.now g.now.tables n e }
{
    let mut kind = e;
    let mut own = own_of(g, n, e);
    while no_rows(own) {
        let parent = g.parent(kind);
        if kind <= parent {
            return own;
        }
        kind = parent;
        own = own_of(g, n, kind);
    }
    own
}

// The node that row k leads to, 0 in a table that leads to none.
pub fn target(g: &Graph, table: Table, k: u16) -> u16
    ensures { result ≡ target_of g.now.file.now g.now.tables table k }
{
    match table {
        Table::Trailer => 0,
        Table::Methods => g.entry(k),
        Table::Nodes => 0,
        Table::Flow => g.flow_to(k),
        Table::Calls => 0,
        Table::Parents => 0,
        Table::Catches => g.catch_to(k),
        Table::Opening => 0,
    }
}
