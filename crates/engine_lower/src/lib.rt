// Lowering one block of a sheet to what a rule asks of it.
#![tactic(auto)]

ghost use Rattle.std.specs.Prelude.{◌≡◌, not, ◌+◌, ◌*◌, ◌≤◌, length};
ghost use Rattle.sheet_layout.specs.Layout.{stock_size, effect_size};
ghost use Rattle.sheet.specs.Under.{effect_under, stock_under};
ghost use Rattle.engine_lower.specs.Lower.{effect_to, stock_to};

use effect::{Effect, Stock};
use sheet_layout::Shape;

// Two functions: an effect is tested and lowered word by word where it stands, and a stock is read and written whole, so they share no step.

// The block at w gets mark 1 and an effect at most e. Answers whether anything was written.
pub fn effect_to(s: &mut [u8], x: Shape, w: usize, e: Effect) -> bool
    requires { (2 * (w + effect_size x.types) ≤ length s.old) × (x.types ≤ 6) }
    ensures { (result ≡ not (effect_under s.old x w e)) × (s.new ≡ effect_to s.old x w e) }
{
    if sheet_compare::effect_met(s, x, w, e) {
        return false;
    }
    sheet_lower::lower_effect(s, x.types, w, e);
    true
}

// The block at w gets mark 1 and a stock at most h. Answers whether anything was written.
pub fn stock_to(s: &mut [u8], x: Shape, w: usize, h: Stock) -> bool
    requires { (2 * (w + stock_size x.types) ≤ length s.old) × (x.types ≤ 6) }
    ensures { (result ≡ not (stock_under s.old x w h)) × (s.new ≡ stock_to s.old x w h) }
{
    let mut most = h;
    if sheet::is_marked(s, w) {
        let old = sheet::stock(s, x.types, w);
        if effect_order::stock_at_most(old, h) {
            return false;
        }
        most = effect_order::lower(old, h);
    }
    sheet::write_stock(s, x.types, w, most);
    true
}
