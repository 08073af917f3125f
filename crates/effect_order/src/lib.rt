// Which of two stocks or effects is at most the other, what fails, and the smaller of the two.
#![tactic(auto)]

ghost use Rattle.std.specs.Prelude.{◌≡◌, min};
ghost use Rattle.effect.specs.Whole.{apply_of, both_of, at_most_of, stock_at_most_of, fails_of, stock_fails_of, lower_of, covers_of};
ghost use Rattle.effect.specs.Coordinate.{Coordinate, at};
ghost use Rattle.effect.specs.Meaning.{Below, AtMost, BelowAt, AtMostAt, LowestFailing, Covers, Leaves, Exactly};

use effect::{Effect, Stock};

// The smaller of what two effects leave.
pub fn both(a: Effect, b: Effect) -> Effect
    ensures equals { result ≡ both_of a b }
    ensures means { Leaves result (λ i s. min (at i (apply_of a s)) (at i (apply_of b s))) }
{
    effect::effect_of(|k| effect_one::both(effect::one_at(a, k), effect::one_at(b, k)))
}

// The lowest type at which one effect leaves more than another, of some stock, or 6.
pub fn fails(a: Effect, b: Effect) -> usize
    ensures equals { result ≡ fails_of a b }
    ensures means { LowestFailing (λ k. AtMostAt k a b) result }
{
    (0..6)
        .find(|k| !effect_one::at_most(effect::one_at(a, *k), effect::one_at(b, *k)))
        .unwrap_or(6)
}

// The lowest type at which one stock is not at most another, or 6.
pub fn stock_fails(s: Stock, t: Stock) -> usize
    ensures equals { result ≡ stock_fails_of s t }
    ensures means { LowestFailing (λ k. BelowAt k s t) result }
{
    (0..6)
        .find(|k| !effect_one::stock_at_most(effect::held_at(s, *k), effect::held_at(t, *k)))
        .unwrap_or(6)
}

// One effect leaves at most what another leaves, of every stock.
pub fn at_most(a: Effect, b: Effect) -> bool
    ensures equals { result ≡ at_most_of a b }
    ensures means { Exactly result (AtMost a b) }
{
    fails(a, b) == 6
}

// One stock is at most another, at every type.
pub fn stock_at_most(s: Stock, t: Stock) -> bool
    ensures equals { result ≡ stock_at_most_of s t }
    ensures means { Exactly result (Below s t) }
{
    stock_fails(s, t) == 6
}

// The smaller of two stocks, right by right and count by count.
pub fn lower(s: Stock, t: Stock) -> Stock
    ensures equals { result ≡ lower_of s t }
    ensures means { (i : Coordinate) → at i result ≡ min (at i s) (at i t) }
{
    effect::stock_of(|k| effect_one::lower(effect::held_at(s, k), effect::held_at(t, k)))
}

// The stock has every right drawn of type t, and a count of at least 1.
pub fn covers(s: Stock, t: usize, rights: u16) -> bool
    ensures equals { result ≡ covers_of s t rights }
    ensures means { Exactly result (Covers s t rights) }
{
    t < 6 && effect_one::covers(effect::held_at(s, t), rights)
}
