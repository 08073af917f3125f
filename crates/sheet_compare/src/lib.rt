// Blocks of a sheet compared, and stepped, where they stand, type by type.
#![tactic(auto)]

ghost use Rattle.std.specs.Prelude.{◌≡◌, ◌+◌, ◌*◌, ◌<◌, ◌≤◌, length, eqb};
ghost use Rattle.sheet_layout.specs.Layout.{effect_size};
ghost use Rattle.effect_one.specs.Formulas.{then_one, at_most_one};
ghost use Rattle.effect.specs.Six.{one_at, effect_of};
ghost use Rattle.effect.specs.Whole.{one_if, then_of, fails_of};
ghost use Rattle.sheet.specs.Read.{effect_at};
ghost use Rattle.sheet.specs.Inner.{one_words};
ghost use Rattle.sheet.specs.Under.{effect_under};

use effect::Effect;
use effect_one::One;
use sheet_layout::Shape;

// Type k of the block at v is at most type k of the block at w. Most are the same, which one comparison tells.
fn one_under(s: &[u8], v: usize, w: usize, k: usize) -> bool
    requires { (2 * (v + (5 + 4 * k)) ≤ length s.now) × (2 * (w + (5 + 4 * k)) ≤ length s.now) }
    ensures { result ≡ at_most_one (one_words s.now v k) (one_words s.now w k) }
{
    let here = words::inner_four(s, 2 * (v + (1 + 4 * k)));
    let there = words::inner_four(s, 2 * (w + (1 + 4 * k)));
    here == there || effect_one::at_most(sheet::inner_one(s, v, k), sheet::inner_one(s, w, k))
}

// The same, where y is done to type n after what the block at w says.
fn stepped_under(s: &[u8], v: usize, w: usize, n: usize, y: One, k: usize) -> bool
    requires { (2 * (v + (5 + 4 * k)) ≤ length s.now) × (2 * (w + (5 + 4 * k)) ≤ length s.now) }
    ensures { result ≡ at_most_one (one_words s.now v k) (then_one (one_words s.now w k) (one_if (eqb k n) y)) }
{
    if k == n {
        return effect_one::at_most(
            sheet::inner_one(s, v, k),
            effect_one::then(sheet::inner_one(s, w, k), y),
        );
    }
    one_under(s, v, w, k)
}

// The lowest type at which the effect of the block at v is not at most that at w, then y for the type n; or 6. Both blocks lie in the sheet.
pub fn stepped_fails(s: &[u8], t: u16, v: usize, w: usize, n: usize, y: One) -> usize
    requires { (t ≤ 6) × (n < t) × (2 * (v + effect_size t) ≤ length s.now) × (2 * (w + effect_size t) ≤ length s.now) }
    ensures { result ≡ fails_of (effect_at s.now t v) (then_of (effect_at s.now t w) (effect_of (λ k. one_if (eqb k n) y))) }
{
    (0..t as usize)
        .find(|k| !stepped_under(s, v, w, n, y, *k))
        .unwrap_or(6)
}

// What the block at w, then y for the type n, does to type k.
fn stepped_one(s: &[u8], w: usize, n: usize, y: One, k: usize) -> One
    requires { 2 * (w + (5 + 4 * k)) ≤ length s.now }
    ensures { result ≡ then_one (one_words s.now w k) (one_if (eqb k n) y) }
{
    let x = sheet::inner_one(s, w, k);
    // asked before the call: a third less is computed where the compiler knows the step that does nothing
    if k != n {
        return effect_one::then(x, effect_one::nothing_done());
    }
    effect_one::then(x, y)
}

// The effect of the block at w, which lies in the sheet, then y for the type n.
pub fn stepped(s: &[u8], t: u16, w: usize, n: usize, y: One) -> Effect
    requires { (t ≤ 6) × (n < t) × (2 * (w + effect_size t) ≤ length s.now) }
    ensures { result ≡ then_of (effect_at s.now t w) (effect_of (λ k. one_if (eqb k n) y)) }
{
    sheet::effect_from_fn(t, |k| stepped_one(s, w, n, y, k))
}

// Type k of the block at v, which lies in the sheet, is at most y.
fn type_under(s: &[u8], t: u16, v: usize, k: usize, y: One) -> bool
    requires { (k < 6) × (2 * (v + effect_size t) ≤ length s.now) }
    ensures { result ≡ at_most_one (one_at (effect_at s.now t v) k) y }
{
    let x = if k < t as usize {
        sheet::inner_one(s, v, k)
    } else {
        effect_one::nothing_done()
    };
    effect_one::at_most(x, y)
}

// The lowest type at which the effect of a block that lies in the sheet is not at most e, or 6.
fn inner_fails(s: &[u8], t: u16, v: usize, e: Effect) -> usize
    requires { 2 * (v + effect_size t) ≤ length s.now }
    ensures { result ≡ fails_of (effect_at s.now t v) e }
{
    (0..6)
        .find(|k| !type_under(s, t, v, *k, effect::one_at(e, *k)))
        .unwrap_or(6)
}

// The same of any block.
pub fn effect_fails(s: &[u8], t: u16, v: usize, e: Effect) -> usize
    ensures { result ≡ fails_of (effect_at s.now t v) e }
{
    if sheet::lies_in(s, t, v, 4) {
        return inner_fails(s, t, v, e);
    }
    effect_order::fails(sheet::effect(s, t, v), e)
}

// The block at v has mark 1 and its effect is at most e.
pub fn effect_met(s: &[u8], x: Shape, v: usize, e: Effect) -> bool
    ensures { result ≡ effect_under s.now x v e }
{
    sheet::is_marked(s, v) && effect_fails(s, x.types, v, e) == 6
}

// The block at v has mark 1 and its effect is at most that at w, then y for the type n. Both blocks lie in the sheet.
pub fn stepped_met(s: &[u8], x: Shape, v: usize, w: usize, n: usize, y: One) -> bool
    requires { (x.types ≤ 6) × (n < x.types) × (2 * (v + effect_size x.types) ≤ length s.now) × (2 * (w + effect_size x.types) ≤ length s.now) }
    ensures { result ≡ effect_under s.now x v (then_of (effect_at s.now x.types w) (effect_of (λ k. one_if (eqb k n) y))) }
{
    sheet::is_marked(s, v) && stepped_fails(s, x.types, v, w, n, y) == 6
}
