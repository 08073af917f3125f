// What the nodes of a file do to a stock, and the stock that a run starts with.
#![tactic(auto)]

ghost use Rattle.std.specs.Prelude.{◌≡◌};
ghost use Rattle.graph_tables.specs.Fields.{opening_rights, opening_count};
ghost use Rattle.model.specs.Stocks.{step_of};
ghost use Rattle.graph_nodes.specs.Nodes.{does_in, for_type, opening_in};
ghost use Rattle.graph_nodes.specs.Own.{own_of};

use effect::{Effect, Stock};
use effect_one::{Held, One};
use graph_tables::{Graph, Kind};

// The effect of node n's own step.
pub fn step(g: &Graph, n: u16) -> Effect
    ensures { result ≡ step_of (does_in g.now.file.now g.now.tables n) }
{
    if g.tables.nodes <= n {
        return effect::nothing_done();
    }
    if g.is_kind(n, Kind::Grant) {
        let number = g.node_number(n);
        let rights = g.node_rights(n);
        let count = g.node_count(n);
        return effect::grant(number as usize, rights, count);
    }
    if g.is_kind(n, Kind::Draw) {
        return effect::draw(g.node_number(n) as usize);
    }
    effect::nothing_done()
}

// The same of the node's own type, its number: nothing is done to another (`own_step_means` in proofs/Cases.antt).
pub fn own_step(g: &Graph, n: u16) -> One
    ensures { result ≡ own_of (does_in g.now.file.now g.now.tables n) }
{
    if g.tables.nodes <= n {
        return effect_one::nothing_done();
    }
    if g.is_kind(n, Kind::Grant) {
        let rights = g.node_rights(n);
        return effect_one::grant(rights, g.node_count(n));
    }
    let draws = g.is_kind(n, Kind::Draw);
    if draws {
        return effect_one::draw();
    }
    effect_one::nothing_done()
}

// What the opening stock has of type k, of those that the file has.
fn held_in(g: &Graph, k: usize) -> Held
    ensures { result ≡ record { rights = for_type g.now.tables (opening_rights g.now.file.now g.now.tables) k; count = for_type g.now.tables (opening_count g.now.file.now g.now.tables) k } }
{
    if k < g.tables.types as usize {
        Held {
            rights: g.opening_rights(k as u16),
            count: g.opening_count(k as u16),
        }
    } else {
        Held {
            rights: 0,
            count: 0,
        }
    }
}

// The opening stock.
pub fn opening(g: &Graph) -> Stock
    ensures { result ≡ opening_in g.now.file.now g.now.tables }
{
    effect::stock_of(|k| held_in(g, k))
}
