// What a sheet says of a node, as the verdict and the listing ask for it.
#![tactic(auto)]

ghost use Rattle.std.specs.Prelude.{◌≡◌};
ghost use Rattle.effect.specs.Whole.{covers_of};
ghost use Rattle.reach.specs.Node.{is_reached, node_stock};

use effect::Stock;
use graph_tables::Graph;
use sheet_layout::Shape;

// The sheet calls node n reached: the node is marked, and so is its method.
pub fn reached(g: &Graph, x: Shape, s: &[u8], n: u16) -> bool
    ensures { result ≡ is_reached g.now.file.now g.now.tables x s.now n }
{
    let w = sheet_layout::node_at(x, n);
    let v = sheet_layout::method_at(x, g.node_method(n));
    sheet::is_marked(s, w) & sheet::is_marked(s, v)
}

// The stock of node n: its effect applied to the stock of its method. Of a node that is not reached it says nothing.
pub fn stock(g: &Graph, x: Shape, s: &[u8], n: u16) -> Stock
    ensures { result ≡ node_stock g.now.file.now g.now.tables x s.now n }
{
    let w = sheet_layout::node_at(x, n);
    let v = sheet_layout::method_at(x, g.node_method(n));
    effect::apply(sheet::effect(s, x.types, w), sheet::stock(s, x.types, v))
}

// That stock covers a draw of type k: only that type is read.
pub fn covers(g: &Graph, x: Shape, s: &[u8], n: u16, k: usize, rights: u16) -> bool
    ensures { result ≡ covers_of (node_stock g.now.file.now g.now.tables x s.now n) k rights }
{
    if k < 6 {
        let at = sheet_layout::node_at(x, n);
        let from = sheet_layout::method_at(x, g.node_method(n));
        let held = effect_one::apply(
            sheet::one(s, x.types, at, k),
            sheet::held(s, x.types, from, k),
        );
        return effect_one::covers(held, rights);
    }
    false
}
