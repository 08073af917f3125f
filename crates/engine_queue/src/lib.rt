// The queue engine: nodes whose rows may ask something new wait in the lent area, and only those are looked at.
#![tactic(auto)]

ghost use Rattle.std.specs.Prelude.{◌≡◌, ℕ, ◌<◌, ◌≤◌, length, false};
ghost use Rattle.graph_tables.specs.Rows.{rows_of};
ghost use Rattle.graph_tables.specs.Kinds.{draw_kind, call_kind};
ghost use Rattle.graph_tables.specs.Fields.{node_kind, flow_to};
ghost use Rattle.sheet.specs.Write.{blanked};
ghost use Rattle.rule_ready.specs.Ready.{Ready};
ghost use Rattle.engine_queue.specs.Queue.{Queue, RowMoved, StretchMoved, NodeMoved, Visited, Passing, Round, Entered, Settled};

use graph_rows::Stretch;
use graph_tables::{Graph, Kind, Table};
use sheet_layout::Shape;

// Every function here but `leads_back` and the last two answers whether anything was written.

// Row k of the table. Where it wrote something, whatever it leads to waits.
fn row(g: &Graph, x: Shape, s: &mut [u8], area: &mut [u8], table: Table, k: u16) -> bool
    requires { Queue g.now.file.now g.now.tables x s.old area.old × (k < rows_of g.now.tables table) }
    ensures { RowMoved g.now.file.now g.now.tables x table k s.old area.old s.new area.new result }
{
    if engine_row::row(g, x, s, table, k, false) {
        engine_flags::wake_row(g, area, table, k);
        return true;
    }
    false
}

// The rows of the stretch.
fn each(g: &Graph, x: Shape, s: &mut [u8], area: &mut [u8], table: Table, z: Stretch) -> bool
    requires { Queue g.now.file.now g.now.tables x s.old area.old × (z.to ≤ rows_of g.now.tables table) }
    ensures { StretchMoved g.now.file.now g.now.tables x table z.from z.to s.old area.old s.new area.new result }
{
    let mut wrote = false;
    for j in z.from..z.to {
        wrote |= row(g, x, s, area, table, j);
    }
    wrote
}

// The rows of a node n that is no plain node, grant or draw: the call rows of a call, its own row of a return or a throw.
fn of_node(g: &Graph, x: Shape, s: &mut [u8], area: &mut [u8], n: u16) -> bool
    requires { Queue g.now.file.now g.now.tables x s.old area.old × (n < g.now.tables.nodes) × (draw_kind < node_kind g.now.file.now g.now.tables n) }
    ensures { NodeMoved g.now.file.now g.now.tables x n s.old area.old s.new area.new result }
{
    if g.is_kind(n, Kind::Call) {
        return each(g, x, s, area, Table::Calls, graph_rows::calls_of(g, n));
    }
    row(g, x, s, area, Table::Nodes, n)
}

// A flow row of the stretch leads to node n.
fn leads_back(g: &Graph, n: u16, z: Stretch) -> bool
    ensures { result ≡ false → (j : ℕ) → z.from ≤ j → j < z.to → flow_to g.now.file.now g.now.tables j ≡ n → ⊥ }
{
    (z.from..z.to).any(|j| g.flow_to(j) == n)
}

// A plain node, a grant or a draw, n. What its flow rows ask is met afterwards, unless one leads back to it: then it waits on if anything was
// written.
fn visit_plain(g: &Graph, x: Shape, s: &mut [u8], area: &mut [u8], n: u16) -> bool
    requires { Queue g.now.file.now g.now.tables x s.old area.old × (n < g.now.tables.nodes) × (node_kind g.now.file.now g.now.tables n < call_kind) }
    ensures { Visited g.now.file.now g.now.tables x n s.old area.old s.new area.new result }
{
    let z = graph_rows::flow_of(g, n);
    let wrote = each(g, x, s, area, Table::Flow, z);
    if wrote && leads_back(g, n, z) {
        return true;
    }
    area[n as usize] = 0;
    wrote
}

// Node n. Where the rows of another node wrote nothing, all that they ask is met, and it waits no longer.
fn visit(g: &Graph, x: Shape, s: &mut [u8], area: &mut [u8], n: u16) -> bool
    requires { Queue g.now.file.now g.now.tables x s.old area.old × (n < g.now.tables.nodes) }
    ensures { Visited g.now.file.now g.now.tables x n s.old area.old s.new area.new result }
{
    if g.goes_on(n) {
        return visit_plain(g, x, s, area, n);
    }
    if of_node(g, x, s, area, n) {
        return true;
    }
    area[n as usize] = 0;
    false
}

// All nodes that wait, forwards or backwards.
fn pass(g: &Graph, x: Shape, s: &mut [u8], area: &mut [u8], backwards: bool) -> bool
    requires { Queue g.now.file.now g.now.tables x s.old area.old }
    ensures { Passing g.now.file.now g.now.tables x backwards g.now.tables.nodes s.old area.old s.new area.new result }
{
    let n = g.tables.nodes;
    let mut wrote = false;
    let mut from = 0;
    while let Some(k) = engine_flags::next(area, backwards, n, from) {
        wrote |= visit(g, x, s, area, rule_ask::at_step(backwards, n, k));
        from = k + 1;
    }
    wrote
}

// What methods' flags say is passed on to the calls, and all nodes that wait are visited.
fn round(g: &Graph, x: Shape, s: &mut [u8], area: &mut [u8], backwards: bool) -> bool
    requires { Queue g.now.file.now g.now.tables x s.old area.old }
    ensures { Round g.now.file.now g.now.tables x s.old s.new area.new result }
{
    engine_flags::spread(g, area);
    pass(g, x, s, area, backwards)
}

// Rules 1 and 2 on a blank sheet.
fn enter(g: &Graph, x: Shape, s: &mut [u8])
    requires { Ready g.now.file.now g.now.tables x s.old }
    ensures { Entered g.now.file.now g.now.tables x g.now.tables.methods s.new }
{
    sheet::blank(s);
    engine_row::at_start(g, x, s, false);
    for m in 0..g.tables.methods {
        engine_row::at_entry(g, x, s, m, false);
    }
}

// The sheet is worked out from a blank one. Every node waits at first, so it doesn't matter what the area held; it is left blank.
pub fn settle(g: &Graph, x: Shape, s: &mut [u8], area: &mut [u8])
    requires { Ready g.now.file.now g.now.tables x s.old × (length area.old ≡ 4096) }
    ensures { Settled g.now.file.now g.now.tables x s.new × (area.new ≡ blanked area.old) }
{
    enter(g, x, s);
    engine_flags::wake_nodes(area);
    let mut backwards = false;
    while round(g, x, s, area, backwards) {
        backwards = !backwards;
    }
    sheet::blank(area);
}
