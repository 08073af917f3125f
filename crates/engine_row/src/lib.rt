// The work of one row: each block that a rule leads to is lowered where it stands. Both engines, the sweep and the queue, are orders over it.
#![tactic(auto)]

ghost use Rattle.std.specs.Prelude.{◌≡◌, ℕ, ◌+◌, ◌*◌, ◌<◌, ◌≤◌, length};
ghost use Rattle.words.specs.Turn.{in_turn};
ghost use Rattle.graph_tables.specs.declared.Table.TheVariants.{Calls};
ghost use Rattle.graph_tables.specs.Rows.{rows_of};
ghost use Rattle.sheet_layout.specs.Layout.{stock_size, effect_size};
ghost use Rattle.rule_ask.specs.Walk.{of_effect, of_stock, rows_walk, leaving_walk, start_walk, entry_walk, flow_walk, end_walk, node_walk, after_walk, into_walk, thrown_walk, row_walk};
ghost use Rattle.rule_ready.specs.Ready.{Ready};
ghost use Rattle.engine_row.specs.Lowers.{sheet_of, lowers};

use effect::{Effect, Stock};
use graph_rows::Stretch;
use graph_tables::{Graph, Kind, Table};
use rule_ask::Gives;
use sheet_layout::Shape;

// Every function here is told whether anything was written before, and answers whether anything was by now: so a clause says of the pair of
// sheet and flag what one step makes of it, and steps in turn compose. With the flag of one step alone each caller would join the flags itself.

// Mark 1 and an effect at most e, of the block at w, by whichever rule.
fn take_effect(s: &mut [u8], x: Shape, w: usize, e: Effect, wrote: bool) -> bool
    requires { (2 * (w + effect_size x.types) ≤ length s.old) × (x.types ≤ 6) }
    ensures { (rule : ℕ) → (s.new, result) ≡ lowers x (of_effect rule w e) (s.old, wrote) }
{
    wrote | engine_lower::effect_to(s, x, w, e)
}

// Mark 1 and a stock at most h.
fn take_stock(s: &mut [u8], x: Shape, w: usize, h: Stock, wrote: bool) -> bool
    requires { (2 * (w + stock_size x.types) ≤ length s.old) × (x.types ≤ 6) }
    ensures { (rule : ℕ) → (s.new, result) ≡ lowers x (of_stock rule w h) (s.old, wrote) }
{
    wrote | engine_lower::stock_to(s, x, w, h)
}

// The node that each row of the stretch leads to.
fn each_row(
    g: &Graph,
    x: Shape,
    s: &mut [u8],
    table: Table,
    e: Effect,
    z: Stretch,
    wrote: bool,
) -> bool
    requires { Ready g.now.file.now g.now.tables x s.old × (z.to ≤ rows_of g.now.tables table) }
    ensures { (rule : ℕ) → (s.new, result) ≡ rows_walk g.now.file.now g.now.tables x sheet_of (lowers x) table rule e z (s.old, wrote) }
{
    let mut told = wrote;
    for j in z.from..z.to {
        let w = sheet_layout::node_at(x, graph_rows::target(g, table, j));
        told = take_effect(s, x, w, e, told);
    }
    told
}

// The exception e comes to the node n with y: the catch rows that apply, or the exit of its method.
fn leaving(g: &Graph, x: Shape, s: &mut [u8], n: u16, e: u16, y: Effect, wrote: bool) -> bool
    requires { Ready g.now.file.now g.now.tables x s.old × (n < g.now.tables.nodes) × (e < 8) }
    ensures { (caught out : ℕ) → (s.new, result) ≡ leaving_walk g.now.file.now g.now.tables x sheet_of (lowers x) caught out n e y (s.old, wrote) }
{
    let handlers = graph_rows::catches_of(g, n, e);
    if graph_rows::no_rows(handlers) {
        let w = sheet_layout::exit_at(x, g.node_method(n), 1 + e);
        return take_effect(s, x, w, y, wrote);
    }
    each_row(g, x, s, Table::Catches, y, handlers, wrote)
}

// Rule 1.
pub fn at_start(g: &Graph, x: Shape, s: &mut [u8], wrote: bool) -> bool
    requires { Ready g.now.file.now g.now.tables x s.old }
    ensures { (s.new, result) ≡ start_walk g.now.file.now g.now.tables x sheet_of (lowers x) (s.old, wrote) }
{
    take_stock(
        s,
        x,
        sheet_layout::method_at(x, 0),
        graph_nodes::opening(g),
        wrote,
    )
}

// Rule 2, of method m.
pub fn at_entry(g: &Graph, x: Shape, s: &mut [u8], m: u16, wrote: bool) -> bool
    requires { Ready g.now.file.now g.now.tables x s.old × (m < g.now.tables.methods) }
    ensures { (s.new, result) ≡ entry_walk g.now.file.now g.now.tables x sheet_of (lowers x) m (s.old, wrote) }
{
    let w = sheet_layout::node_at(x, g.entry(m));
    take_effect(s, x, w, effect::nothing_done(), wrote)
}

// Rule 3, of flow row k. Most rows are met, so it is tested first.
pub fn along_flow(g: &Graph, x: Shape, s: &mut [u8], k: u16, wrote: bool) -> bool
    requires { Ready g.now.file.now g.now.tables x s.old × (k < g.now.tables.flows) }
    ensures { (s.new, result) ≡ flow_walk g.now.file.now g.now.tables x sheet_of (lowers x) k (s.old, wrote) }
{
    let n = g.flow_from(k);
    if rule_ask::goes(g, x, s, n) {
        let w = sheet_layout::node_at(x, g.flow_to(k));
        if rule_ask::stepped_met(g, x, s, n, w) {
            return wrote;
        }
        let e = rule_ask::stepped(g, x, s, n);
        return take_effect(s, x, w, e, wrote);
    }
    wrote
}

// Rules 4 to 6, of a marked node n with the effect y.
fn at_end(g: &Graph, x: Shape, s: &mut [u8], n: u16, y: Effect, wrote: bool) -> bool
    requires { Ready g.now.file.now g.now.tables x s.old × (n < g.now.tables.nodes) }
    ensures { (s.new, result) ≡ end_walk g.now.file.now g.now.tables x sheet_of (lowers x) n y (s.old, wrote) }
{
    if g.is_kind(n, Kind::Return) {
        let w = sheet_layout::exit_at(x, g.node_method(n), 0);
        return take_effect(s, x, w, y, wrote);
    }
    if g.is_kind(n, Kind::Throw) {
        return leaving(g, x, s, n, g.node_number(n), y, wrote);
    }
    wrote
}

// Rules 4 to 6, of node n. Only a return and a throw are looked at.
pub fn at_node(g: &Graph, x: Shape, s: &mut [u8], n: u16, wrote: bool) -> bool
    requires { Ready g.now.file.now g.now.tables x s.old × (n < g.now.tables.nodes) }
    ensures { (s.new, result) ≡ node_walk g.now.file.now g.now.tables x sheet_of (lowers x) n (s.old, wrote) }
{
    if g.ends(n) && sheet::is_marked(s, sheet_layout::node_at(x, n)) {
        let y = rule_ask::node_effect(s, x, n);
        return at_end(g, x, s, n, y, wrote);
    }
    wrote
}

// Rule 7, of a marked call.
pub fn after_call(g: &Graph, x: Shape, s: &mut [u8], c: Gives, wrote: bool) -> bool
    requires { Ready g.now.file.now g.now.tables x s.old }
    ensures { (s.new, result) ≡ after_walk g.now.file.now g.now.tables x sheet_of (lowers x) c (s.old, wrote) }
{
    if c.returns {
        return each_row(
            g,
            x,
            s,
            Table::Flow,
            c.rounds.whole,
            graph_rows::flow_of(g, c.node),
            wrote,
        );
    }
    wrote
}

// Rule 8, of a marked call.
pub fn into_call(g: &Graph, x: Shape, s: &mut [u8], c: Gives, wrote: bool) -> bool
    requires { Ready g.now.file.now g.now.tables x s.old × (c.method < g.now.tables.methods) }
    ensures { (s.new, result) ≡ into_walk g.now.file.now g.now.tables x sheet_of (lowers x) c (s.old, wrote) }
{
    let w = sheet_layout::method_at(x, g.node_method(c.node));
    if sheet::is_marked(s, w) {
        let h = effect::apply(c.rounds.earlier, sheet::stock(s, x.types, w));
        return take_stock(s, x, sheet_layout::method_at(x, c.method), h, wrote);
    }
    wrote
}

// Rules 9 and 10, of a marked call and the exception e.
pub fn thrown(g: &Graph, x: Shape, s: &mut [u8], c: Gives, e: u16, wrote: bool) -> bool
    requires { Ready g.now.file.now g.now.tables x s.old × (c.node < g.now.tables.nodes) × (e < 8) }
    ensures { (s.new, result) ≡ thrown_walk g.now.file.now g.now.tables x sheet_of (lowers x) c e (s.old, wrote) }
{
    if sheet::is_marked(s, sheet_layout::exit_at(x, c.method, 1 + e)) {
        let y = rule_ask::thrown(s, x, c, e);
        return leaving(g, x, s, c.node, e, y, wrote);
    }
    wrote
}

// Rules 9 and 10, of a marked call.
fn all_thrown(g: &Graph, x: Shape, s: &mut [u8], c: Gives, wrote: bool) -> bool
    requires { Ready g.now.file.now g.now.tables x s.old × (c.node < g.now.tables.nodes) }
    ensures { (s.new, result) ≡ in_turn (thrown_walk g.now.file.now g.now.tables x sheet_of (lowers x) c) 0 8 (s.old, wrote) }
{
    let mut told = wrote;
    for e in 0..8 {
        told = thrown(g, x, s, c, e, told);
    }
    told
}

// Rules 7 to 10, of call row k. What the row gives is taken once, when its turn comes.
fn of_call(g: &Graph, x: Shape, s: &mut [u8], k: u16, wrote: bool) -> bool
    requires { Ready g.now.file.now g.now.tables x s.old × (k < g.now.tables.calls) }
    ensures { (s.new, result) ≡ row_walk g.now.file.now g.now.tables x sheet_of (lowers x) Calls k (s.old, wrote) }
{
    let c = rule_ask::of_call(g, x, s, k);
    if c.marked {
        let after = after_call(g, x, s, c, wrote);
        let into = into_call(g, x, s, c, after);
        return all_thrown(g, x, s, c, into);
    }
    wrote
}

// Row k of the table.
pub fn row(g: &Graph, x: Shape, s: &mut [u8], table: Table, k: u16, wrote: bool) -> bool
    requires { Ready g.now.file.now g.now.tables x s.old × (k < rows_of g.now.tables table) }
    ensures { (s.new, result) ≡ row_walk g.now.file.now g.now.tables x sheet_of (lowers x) table k (s.old, wrote) }
{
    match table {
        Table::Trailer => wrote,
        Table::Methods => at_entry(g, x, s, k, wrote),
        Table::Nodes => at_node(g, x, s, k, wrote),
        Table::Flow => along_flow(g, x, s, k, wrote),
        Table::Calls => of_call(g, x, s, k, wrote),
        Table::Parents => wrote,
        Table::Catches => wrote,
        Table::Opening => wrote,
    }
}
