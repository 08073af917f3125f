// What the rules ask, row by row: what stands where a row comes from. Check and work out do two things with it where the row leads to.
#![tactic(auto)]

ghost use Rattle.std.specs.Prelude.{◌≡◌, true, ◌+◌, ◌*◌, ◌<◌, ◌≤◌, length};
ghost use Rattle.graph_tables.specs.Fields.{node_number};
ghost use Rattle.sheet_layout.specs.Layout.{effect_size, node_at};
ghost use Rattle.effect.specs.Whole.{fails_of};
ghost use Rattle.sheet.specs.Read.{effect_at};
ghost use Rattle.sheet.specs.Under.{effect_under};
ghost use Rattle.rule_ask.specs.Gives.{table_at, turned, goes_in, node_effect, stepped_in, called_in, thrown_in};

use effect::Effect;
use graph_tables::{Graph, Table};
use rule_rounds::Rounds;
use sheet_layout::Shape;

// What a call row gives: the call, the method called, whether the call is marked, whether exit 0 of the method is, and the rounds, which
// nothing asks for where the call is not marked. Two flags and no Option, since `called_in` is this record and the walks read the marks of it.
#[derive(Clone, Copy)]
pub struct Gives {
    pub node: u16,
    pub method: u16,
    pub marked: bool,
    pub returns: bool,
    pub rounds: Rounds,
}

// The tables whose rows ask something, in the order of the rules.
pub const TABLES: [Table; 4] = [Table::Methods, Table::Flow, Table::Nodes, Table::Calls];

// The table at the place i of these, or the last.
pub fn table_at(i: u16) -> Table
    ensures { result ≡ table_at i }
{
    TABLES[i.min(3) as usize]
}

// Which of n rows comes at step k.
pub fn at_step(backwards: bool, n: u16, k: u16) -> u16
    requires { k < n }
    ensures { result ≡ turned backwards n k }
{
    if backwards { n - 1 - k } else { k }
}

// The effect of node n.
pub fn node_effect(s: &[u8], x: Shape, n: u16) -> Effect
    ensures { result ≡ node_effect x s.now n }
{
    sheet::effect(s, x.types, sheet_layout::node_at(x, n))
}

// Rule 3: node n is a marked plain, grant or draw.
pub fn goes(g: &Graph, x: Shape, s: &[u8], n: u16) -> bool
    ensures { result ≡ goes_in g.now.file.now g.now.tables x s.now n }
{
    g.goes_on(n) & sheet::is_marked(s, sheet_layout::node_at(x, n))
}

// Rule 3: its effect, then the step. Of a block that lies in the sheet it is made type by type.
pub fn stepped(g: &Graph, x: Shape, s: &[u8], n: u16) -> Effect
    ensures { result ≡ stepped_in g.now.file.now g.now.tables x s.now n }
{
    let w = sheet_layout::node_at(x, n);
    let own = g.node_number(n);
    let block = sheet::lies_in(s, x.types, w, 4);
    if block & (own < x.types) {
        let step = graph_nodes::own_step(g, n);
        return sheet_compare::stepped(s, x.types, w, own as usize, step);
    }
    effect::then(node_effect(s, x, n), graph_nodes::step(g, n))
}

// Rule 3: the block at v and that of node n lie in the sheet, and the file has the type of its step: they can be compared where they stand.
fn in_place(g: &Graph, x: Shape, s: &[u8], n: u16, v: usize) -> bool
    ensures { result ≡ true → (x.types ≤ 6) × (node_number g.now.file.now g.now.tables n < x.types) × (2 * (v + effect_size x.types) ≤ length s.now) × (2 * (node_at x n + effect_size x.types) ≤ length s.now) }
{
    let blocks = sheet::lies_in(s, x.types, v, 4)
        & sheet::lies_in(s, x.types, sheet_layout::node_at(x, n), 4);
    blocks & (g.node_number(n) < x.types)
}

// Rule 3: the lowest type at which the effect of the block at v is not at most that, or 6. Here and below the loop over the types is called
// with numbers alone: it reads the sheet and nothing of the file.
pub fn stepped_fails(g: &Graph, x: Shape, s: &[u8], n: u16, v: usize) -> usize
    ensures { result ≡ fails_of (effect_at s.now x.types v) (stepped_in g.now.file.now g.now.tables x s.now n) }
{
    if in_place(g, x, s, n, v) {
        let w = sheet_layout::node_at(x, n);
        let own = g.node_number(n);
        let step = graph_nodes::own_step(g, n);
        return sheet_compare::stepped_fails(s, x.types, v, w, own as usize, step);
    }
    sheet_compare::effect_fails(s, x.types, v, stepped(g, x, s, n))
}

// Rule 3: the block at v has mark 1 and is at most that.
pub fn stepped_met(g: &Graph, x: Shape, s: &[u8], n: u16, v: usize) -> bool
    ensures { result ≡ effect_under s.now x v (stepped_in g.now.file.now g.now.tables x s.now n) }
{
    if in_place(g, x, s, n, v) {
        let w = sheet_layout::node_at(x, n);
        let own = g.node_number(n);
        let step = graph_nodes::own_step(g, n);
        return sheet_compare::stepped_met(s, x, v, w, own as usize, step);
    }
    sheet_compare::effect_met(s, x, v, stepped(g, x, s, n))
}

// Rules 7 to 10, of call row k.
pub fn of_call(g: &Graph, x: Shape, s: &[u8], k: u16) -> Gives
    ensures { result ≡ called_in g.now.file.now g.now.tables x s.now k }
{
    let node = g.call_node(k);
    let method = g.call_method(k);
    let w = sheet_layout::node_at(x, node);
    let v = sheet_layout::exit_at(x, method, 0);
    let marked = sheet::is_marked(s, w);
    let returns = sheet::is_marked(s, v);
    let call = sheet::effect(s, x.types, w);
    let exit = sheet::effect(s, x.types, v);
    let repeats = g.node_count(node) as usize;
    Gives {
        node,
        method,
        marked,
        returns,
        rounds: rule_rounds::of_call(call, marked & returns, exit, repeats),
    }
}

// Rules 9 and 10: what is left where the exception e leaves a round of the call.
pub fn thrown(s: &[u8], x: Shape, c: Gives, e: u16) -> Effect
    requires { e < 8 }
    ensures { result ≡ thrown_in x s.now c e }
{
    let r = c.rounds;
    effect::then(
        r.earlier,
        sheet::effect(s, x.types, sheet_layout::exit_at(x, c.method, 1 + e)),
    )
}
