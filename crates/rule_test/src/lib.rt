// Whether a sheet obeys the rules: the least key of what its rows ask. Every function takes the least key so far and gives the new one.
#![tactic(auto)]

ghost use Rattle.std.specs.Prelude.{◌≡◌, true, false, ◌<◌, ◌≤◌, MatchOption, ⊤};
ghost use Rattle.words.specs.Turn.{in_turn};
ghost use Rattle.graph_tables.specs.declared.Table.TheVariants.{Calls};
ghost use Rattle.graph_rows.specs.Rows.{Sorted, target_of};
ghost use Rattle.sheet_layout.specs.Layout.{node_at};
ghost use Rattle.rule_ask.specs.Gives.{stepped_in};
ghost use Rattle.rule_ask.specs.Walk.{of_effect, of_stock, rows_walk, leaving_walk, start_walk, entry_walk, flow_walk, end_walk, node_walk, after_walk, into_walk, thrown_walk, row_walk, table_walk, tables_walk};
ghost use Rattle.rule_test.specs.Keys.{key_of, lessened, least_key};

use effect::{Effect, Stock};
use graph_rows::Stretch;
use graph_tables::{Graph, Kind, Table};
use rule_ask::Gives;
use sheet_layout::Shape;

// The key where nothing is broken. Rule and type are one number, since the theorems `rules_below`, `rule_broken` and `type_lowest` speak of it so.
pub const NONE: usize = 88;

// The key of a block by the rule, from the type at which it fails, 6 where at none. A block without its mark is not compared.
fn key_of(rule: u16, fails: Option<usize>) -> usize
    requires { MatchOption fails ⊤ (λ k. k ≤ 6) }
    ensures { result ≡ key_of rule fails }
{
    match fails {
        None => 8 * rule as usize + 6,
        Some(6) => NONE,
        Some(k) => 8 * rule as usize + k,
    }
}

// By the rule, the block at w has mark 1 and its effect is at most e.
fn effect_key(s: &[u8], x: Shape, rule: u16, w: usize, e: Effect, least: usize) -> usize
    ensures { result ≡ lessened x s.now (of_effect rule w e) least }
{
    let fails = sheet::is_marked(s, w).then(|| sheet_compare::effect_fails(s, x.types, w, e));
    least.min(key_of(rule, fails))
}

// By the rule, the block at w has mark 1 and its stock is at most h.
fn stock_key(s: &[u8], x: Shape, rule: u16, w: usize, h: Stock, least: usize) -> usize
    ensures { result ≡ lessened x s.now (of_stock rule w h) least }
{
    let fails = sheet::is_marked(s, w).then(|| effect_order::stock_fails(
        sheet::stock(s, x.types, w),
        h,
    ));
    least.min(key_of(rule, fails))
}

// Row j leads to a node.
fn at_target(
    g: &Graph,
    x: Shape,
    s: &[u8],
    table: Table,
    rule: u16,
    e: Effect,
    j: u16,
    least: usize,
) -> usize
    ensures { result ≡ lessened x s.now (of_effect rule (node_at x (target_of g.now.file.now g.now.tables table j)) e) least }
{
    let w = sheet_layout::node_at(x, graph_rows::target(g, table, j));
    effect_key(s, x, rule, w, e, least)
}

// Each row of the stretch does. None ends the look: a later one may fail at a lower type.
fn of_rows(
    g: &Graph,
    x: Shape,
    s: &[u8],
    table: Table,
    rule: u16,
    e: Effect,
    z: Stretch,
    least: usize,
) -> usize
    ensures { result ≡ rows_walk g.now.file.now g.now.tables x (λ v. s.now) (lessened x s.now) table rule e z least }
{
    let mut key = least;
    for j in z.from..z.to {
        key = at_target(g, x, s, table, rule, e, j, key);
    }
    key
}

// The exception e comes to the node with y: the catch rows that apply, by the rule `caught`, or the exit of the node's method, by the rule `out`.
fn leaving(
    g: &Graph,
    x: Shape,
    s: &[u8],
    caught: u16,
    out: u16,
    node: u16,
    e: u16,
    y: Effect,
    least: usize,
) -> usize
    requires { Sorted g.now.file.now g.now.tables × (e < 256) }
    ensures { result ≡ leaving_walk g.now.file.now g.now.tables x (λ v. s.now) (lessened x s.now) caught out node e y least }
{
    let handlers = graph_rows::catches_of(g, node, e);
    if graph_rows::no_rows(handlers) {
        let w = sheet_layout::exit_at(x, g.node_method(node), 1 + e);
        return effect_key(s, x, out, w, y, least);
    }
    of_rows(g, x, s, Table::Catches, caught, y, handlers, least)
}

// Rule 1.
fn at_start(g: &Graph, x: Shape, s: &[u8], least: usize) -> usize
    ensures { result ≡ start_walk g.now.file.now g.now.tables x (λ v. s.now) (lessened x s.now) least }
{
    stock_key(
        s,
        x,
        1,
        sheet_layout::method_at(x, 0),
        graph_nodes::opening(g),
        least,
    )
}

// Rule 2, of method m.
fn at_entry(g: &Graph, x: Shape, s: &[u8], m: u16, least: usize) -> usize
    ensures { result ≡ entry_walk g.now.file.now g.now.tables x (λ v. s.now) (lessened x s.now) m least }
{
    let w = sheet_layout::node_at(x, g.entry(m));
    effect_key(s, x, 2, w, effect::nothing_done(), least)
}

// Rule 3, of the block at w and the node n whose step leads to it. No `then`: of a closure that captures g it tells a proof nothing.
fn flow_key(g: &Graph, x: Shape, s: &[u8], n: u16, w: usize, least: usize) -> usize
    ensures { result ≡ lessened x s.now (of_effect 3 w (stepped_in g.now.file.now g.now.tables x s.now n)) least }
{
    if sheet::is_marked(s, w) {
        let fails = rule_ask::stepped_fails(g, x, s, n, w);
        return least.min(key_of(3, Some(fails)));
    }
    least.min(key_of(3, None))
}

// Rule 3, of flow row k.
fn along_flow(g: &Graph, x: Shape, s: &[u8], k: u16, least: usize) -> usize
    ensures { result ≡ flow_walk g.now.file.now g.now.tables x (λ v. s.now) (lessened x s.now) k least }
{
    let from = g.flow_from(k);
    if rule_ask::goes(g, x, s, from) {
        let w = sheet_layout::node_at(x, g.flow_to(k));
        return flow_key(g, x, s, from, w, least);
    }
    least
}

// Rules 4 to 6, of a marked node n with the effect y.
fn at_end(g: &Graph, x: Shape, s: &[u8], n: u16, y: Effect, least: usize) -> usize
    requires { Sorted g.now.file.now g.now.tables }
    ensures { result ≡ end_walk g.now.file.now g.now.tables x (λ v. s.now) (lessened x s.now) n y least }
{
    if g.is_kind(n, Kind::Return) {
        let w = sheet_layout::exit_at(x, g.node_method(n), 0);
        return effect_key(s, x, 5, w, y, least);
    }
    if g.is_kind(n, Kind::Throw) {
        let e = g.node_number(n);
        return leaving(g, x, s, 4, 6, n, e, y, least);
    }
    least
}

// Rules 4 to 6, of node n. Only a return and a throw are looked at.
fn at_node(g: &Graph, x: Shape, s: &[u8], n: u16, least: usize) -> usize
    requires { Sorted g.now.file.now g.now.tables }
    ensures { result ≡ node_walk g.now.file.now g.now.tables x (λ v. s.now) (lessened x s.now) n least }
{
    if g.ends(n) && sheet::is_marked(s, sheet_layout::node_at(x, n)) {
        return at_end(g, x, s, n, rule_ask::node_effect(s, x, n), least);
    }
    least
}

// Rule 7, of a marked call.
fn after_call(g: &Graph, x: Shape, s: &[u8], c: Gives, least: usize) -> usize
    requires { Sorted g.now.file.now g.now.tables }
    ensures { result ≡ after_walk g.now.file.now g.now.tables x (λ v. s.now) (lessened x s.now) c least }
{
    if c.returns {
        let r = c.rounds;
        let rows = graph_rows::flow_of(g, c.node);
        return of_rows(g, x, s, Table::Flow, 7, r.whole, rows, least);
    }
    least
}

// Rule 8, of a marked call.
fn into_call(g: &Graph, x: Shape, s: &[u8], c: Gives, least: usize) -> usize
    ensures { result ≡ into_walk g.now.file.now g.now.tables x (λ v. s.now) (lessened x s.now) c least }
{
    let w = sheet_layout::method_at(x, g.node_method(c.node));
    if sheet::is_marked(s, w) {
        let r = c.rounds;
        let h = effect::apply(r.earlier, sheet::stock(s, x.types, w));
        return stock_key(s, x, 8, sheet_layout::method_at(x, c.method), h, least);
    }
    least
}

// Rules 9 and 10, of a marked call and the exception e.
fn thrown(g: &Graph, x: Shape, s: &[u8], c: Gives, e: u16, least: usize) -> usize
    requires { Sorted g.now.file.now g.now.tables × (e < 8) }
    ensures { result ≡ thrown_walk g.now.file.now g.now.tables x (λ v. s.now) (lessened x s.now) c e least }
{
    if sheet::is_marked(s, sheet_layout::exit_at(x, c.method, 1 + e)) {
        let y = rule_ask::thrown(s, x, c, e);
        return leaving(g, x, s, 9, 10, c.node, e, y, least);
    }
    least
}

// Rules 9 and 10, of a marked call.
fn all_thrown(g: &Graph, x: Shape, s: &[u8], c: Gives, least: usize) -> usize
    requires { Sorted g.now.file.now g.now.tables }
    ensures { result ≡ in_turn (thrown_walk g.now.file.now g.now.tables x (λ v. s.now) (lessened x s.now) c) 0 8 least }
{
    let mut key = least;
    for e in 0..8 {
        key = thrown(g, x, s, c, e, key);
    }
    key
}

// Rules 7 to 10, of call row k.
fn of_call(g: &Graph, x: Shape, s: &[u8], k: u16, least: usize) -> usize
    requires { Sorted g.now.file.now g.now.tables }
    ensures { result ≡ row_walk g.now.file.now g.now.tables x (λ v. s.now) (lessened x s.now) Calls k least }
{
    let c = rule_ask::of_call(g, x, s, k);
    if c.marked {
        let after = after_call(g, x, s, c, least);
        let into = into_call(g, x, s, c, after);
        return all_thrown(g, x, s, c, into);
    }
    least
}

// What row k of the table asks,
fn of_row(g: &Graph, x: Shape, s: &[u8], table: Table, k: u16, least: usize) -> usize
    requires { Sorted g.now.file.now g.now.tables }
    ensures { result ≡ row_walk g.now.file.now g.now.tables x (λ v. s.now) (lessened x s.now) table k least }
{
    match table {
        Table::Trailer => least,
        Table::Methods => at_entry(g, x, s, k, least),
        Table::Nodes => at_node(g, x, s, k, least),
        Table::Flow => along_flow(g, x, s, k, least),
        Table::Calls => of_call(g, x, s, k, least),
        Table::Parents => least,
        Table::Catches => least,
        Table::Opening => least,
    }
}

// all rows of the table,
fn of_table(g: &Graph, x: Shape, s: &[u8], table: Table, least: usize) -> usize
    requires { Sorted g.now.file.now g.now.tables }
    ensures { result ≡ table_walk g.now.file.now g.now.tables x (λ v. s.now) (lessened x s.now) false table least }
{
    let mut key = least;
    for k in 0..graph_tables::rows(g.tables, table) {
        key = of_row(g, x, s, table, k, key);
    }
    key
}

// and all tables.
fn of_tables(g: &Graph, x: Shape, s: &[u8], least: usize) -> usize
    requires { Sorted g.now.file.now g.now.tables }
    ensures { result ≡ tables_walk g.now.file.now g.now.tables x (λ v. s.now) (lessened x s.now) false least }
{
    let mut key = least;
    for table in rule_ask::TABLES {
        key = of_table(g, x, s, table, key);
    }
    key
}

// The least key of all that is asked of the sheet.
pub fn least_key(g: &Graph, x: Shape, s: &[u8]) -> usize
    requires { Sorted g.now.file.now g.now.tables }
    ensures { result ≡ least_key g.now.file.now g.now.tables x s.now }
{
    of_tables(g, x, s, at_start(g, x, s, NONE))
}
