// Counts, drops and rights as numbers. A count of 255 is endless and a drop of 256 is none, as a sheet's words have them: the
// definitions of specs/ are over these numbers, so no enum stands for them.
#![tactic(auto)]

ghost use Rattle.std.specs.Prelude.{◌≡◌, ◌+◌, ◌-◌, ◌<◌, min, leb, ltb, eqb};
ghost use Rattle.effect_number.specs.Number.{pick, less, counted, count_after, rights_after};
ghost use Rattle.effect_number.specs.Formulas.{written, norm_drop, sum_drop, earlier_drop, rank, larger_drop, count_at_most, within};

// The sum below 254, else 255.
fn ceiled(a: u16, b: u16) -> u16
    requires { (a < 256) × (b < 256) }
    ensures { result ≡ pick (ltb (a + b) 254) (a + b) 255 }
{
    if a + b < 254 { a + b } else { 255 }
}

#[tactic(auto, unfolding(crate::specs::Number::less))]
pub fn less_of(r: u16, d: u16) -> u16
    ensures { result ≡ less r d }
{
    if r >= 255 { 255 } else { r.saturating_sub(d) }
}

// Std's `min`, under the name that the pages offer and wrong edits are tried on.
pub fn smaller(a: u16, b: u16) -> u16
    ensures { result ≡ min a b }
{
    a.min(b)
}

// The most that a drop leaves of a count: endless where the count is, and where the drop is none, since the count is the cap then.
#[tactic(auto, unfolding(crate::specs::Number::count_after, crate::specs::Number::left, crate::specs::Number::less))]
fn kept(r: u16, d: u16) -> u16
    ensures { result ≡ count_after 255 d r }
{
    if (r >= 255) | (d >= 256) {
        255
    } else {
        r.saturating_sub(d)
    }
}

#[tactic(auto, unfolding(crate::specs::Number::count_after, crate::specs::Number::left))]
pub fn count_after(c: u16, d: u16, r: u16) -> u16
    ensures { result ≡ count_after c d r }
{
    kept(r, d).min(c)
}

#[tactic(auto, unfolding(crate::specs::Number::rights_after))]
pub fn rights_after(i: u16, m: u16, r: u16) -> u16
    ensures { result ≡ rights_after i m r }
{
    (r | i) & m
}

#[tactic(auto, unfolding(crate::specs::Formulas::norm_drop))]
pub fn norm_drop(c: u16, d: u16) -> u16
    ensures { result ≡ norm_drop c d }
{
    if (c == 0) | (d >= 256) {
        256
    } else if d == 254 {
        255
    } else {
        d
    }
}

// The drop is in normal form beside the cap.
#[tactic(auto, unfolding(crate::specs::Formulas::norm_drop))]
pub fn drop_normal(c: u16, d: u16) -> bool
    ensures { result ≡ eqb (norm_drop c d) d }
{
    (d == 256) | ((c != 0) & ((d < 256) & (d != 254)))
}

#[tactic(auto, unfolding(crate::specs::Formulas::sum_drop))]
pub fn sum_drop(d: u16, f: u16) -> u16
    ensures { result ≡ sum_drop d f }
{
    if (d >= 256) | (f >= 256) {
        256
    } else {
        ceiled(d, f)
    }
}

// The drop of all of k times but one, each with the drop d.
#[tactic(auto, unfolding(crate::specs::Formulas::earlier_drop))]
pub fn earlier_drop(k: usize, d: u16) -> u16
    ensures { result ≡ earlier_drop k d }
{
    k.saturating_sub(1).saturating_mul(d as usize).min(255) as u16
}

// The drop of two effects in turn, in normal form beside their cap: a sum is never 254.
#[tactic(auto, unfolding(crate::specs::Formulas::norm_drop, crate::specs::Formulas::sum_drop))]
pub fn drop_then(cap: u16, d: u16, f: u16) -> u16
    ensures { result ≡ norm_drop cap (sum_drop d f) }
{
    if (cap == 0) | ((d >= 256) | (f >= 256)) {
        256
    } else {
        ceiled(d, f)
    }
}

// None counts as the smallest drop.
#[tactic(auto, unfolding(crate::specs::Formulas::rank))]
fn taken(d: u16) -> u16
    ensures { result ≡ rank d - 1 }
{
    if d >= 256 { 0 } else { d }
}

// The larger drop, in normal form beside the cap.
#[tactic(auto, unfolding(crate::specs::Formulas::norm_drop, crate::specs::Formulas::larger_drop, crate::specs::Formulas::rank))]
pub fn drop_both(cap: u16, d: u16, f: u16) -> u16
    ensures { result ≡ norm_drop cap (larger_drop d f) }
{
    let most = taken(d).max(taken(f));
    if (cap == 0) | ((d >= 256) & (f >= 256)) {
        256
    } else if most == 254 {
        255
    } else {
        most
    }
}

#[tactic(auto, unfolding(crate::specs::Formulas::within))]
pub fn within_of(a: u16, b: u16) -> bool
    ensures { result ≡ within a b }
{
    a & b == a
}

// The drop d is at least the drop f. A drop of 254 leaves what 255 leaves.
#[tactic(auto, unfolding(crate::specs::Formulas::rank, crate::specs::Formulas::written))]
pub fn drop_above(d: u16, f: u16) -> bool
    ensures { result ≡ leb (rank f) (rank (written d)) }
{
    if f >= 256 {
        true
    } else if d >= 256 {
        false
    } else {
        (f <= d) | (d == 254)
    }
}

// The cap c and the drop d, in normal form, are at most e and f.
#[tactic(auto, unfolding(crate::specs::Formulas::count_at_most, crate::specs::Formulas::norm_drop))]
pub fn count_at_most(c: u16, d: u16, e: u16, f: u16) -> bool
    ensures { result ≡ count_at_most (counted c) (norm_drop c d) e f }
{
    if c == 0 {
        true
    } else if c.min(255) > e {
        false
    } else {
        drop_above(d, f)
    }
}
