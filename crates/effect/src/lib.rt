// Stocks and effects: six types, each with rights and a count.
#![tactic(auto)]

ghost use Rattle.std.specs.Prelude.{ℕ, ◌≡◌, ◌<◌, eqb};
ghost use Rattle.effect.specs.Six.{held_at, one_at, stock_of, effect_of};
ghost use Rattle.effect.specs.Whole.{normal_of, nothing_done, one_if, draw_of, grant_of, apply_of, then_of, times_of};
ghost use Rattle.effect.specs.Coordinate.{at};
ghost use Rattle.effect.specs.Meaning.{replaced, one_taken, again_of, Normal, Leaves, Exactly};

use effect_one::{Held, One};

// Columns, and no array of structs: the form that the stock and the effect are given, and `then` does several types at once in it.
#[derive(Clone, Copy)]
pub struct Stock {
    pub rights: [u16; 6],
    pub counts: [u16; 6],
}

#[derive(Clone, Copy)]
pub struct Effect {
    pub keepin: [u16; 6],
    pub keepmax: [u16; 6],
    pub cap: [u16; 6],
    pub drop: [u16; 6],
}

pub fn held_at(s: Stock, k: usize) -> Held
    requires { k < 6 }
    ensures { result ≡ held_at s k }
{
    Held {
        rights: s.rights[k],
        count: s.counts[k],
    }
}

pub fn one_at(e: Effect, k: usize) -> One
    requires { k < 6 }
    ensures { result ≡ one_at e k }
{
    One {
        keepin: e.keepin[k],
        keepmax: e.keepmax[k],
        cap: e.cap[k],
        drop: e.drop[k],
    }
}

// The effect that does to each type what the closure says of it.
pub fn effect_of<F: Fn(usize) -> One>(one: F) -> Effect
    requires { (k : ℕ) → k < 6 → F.pre one k }
    ensures { (f : ℕ → One) → ((k : ℕ) (x : One) → k < 6 → F.post one k x → x ≡ f k) → result ≡ effect_of f }
{
    let mut e = Effect {
        keepin: [0; 6],
        keepmax: [0; 6],
        cap: [0; 6],
        drop: [0; 6],
    };
    for k in 0..6 {
        let x = one(k);
        e.keepin[k] = x.keepin;
        e.keepmax[k] = x.keepmax;
        e.cap[k] = x.cap;
        e.drop[k] = x.drop;
    }
    e
}

// The stock that has of each type what the closure says of it.
pub fn stock_of<F: Fn(usize) -> Held>(held: F) -> Stock
    requires { (k : ℕ) → k < 6 → F.pre held k }
    ensures { (f : ℕ → Held) → ((k : ℕ) (h : Held) → k < 6 → F.post held k h → h ≡ f k) → result ≡ stock_of f }
{
    let mut s = Stock {
        rights: [0; 6],
        counts: [0; 6],
    };
    for k in 0..6 {
        let h = held(k);
        s.rights[k] = h.rights;
        s.counts[k] = h.count;
    }
    s
}

// The effect x of type n.
fn only(n: usize, x: One) -> Effect
    ensures { result ≡ effect_of (λ k. one_if (eqb k n) x) }
{
    effect_of(|k| {
        if k == n {
            x
        } else {
            effect_one::nothing_done()
        }
    })
}

pub fn nothing_done() -> Effect
    ensures equals { result ≡ nothing_done }
    ensures means { Leaves result (λ i s. at i s) }
{
    effect_of(|_| effect_one::nothing_done())
}

// One is taken of type t.
pub fn draw(t: usize) -> Effect
    ensures equals { result ≡ draw_of t }
    ensures means { Leaves result (λ i s. at i (one_taken t s)) }
{
    only(t, effect_one::draw())
}

// Rights and count of type t are replaced.
pub fn grant(t: usize, rights: u16, count: u16) -> Effect
    ensures equals { result ≡ grant_of t rights count }
    ensures means { Leaves result (λ i s. at i (replaced t rights count s)) }
{
    only(t, effect_one::grant(rights, count))
}

// The effect is in normal form. `fold` asks the six types at once, in half the time of `all`, which asks one after the other.
pub fn normal(e: Effect) -> bool
    ensures equals { result ≡ normal_of e }
    ensures means { Exactly result (Normal e) }
{
    (0..6).fold(true, |ok, k| ok & effect_one::normal(one_at(e, k)))
}

// The stock that an effect leaves of a stock.
pub fn apply(e: Effect, s: Stock) -> Stock
    ensures { result ≡ apply_of e s }
{
    stock_of(|k| effect_one::apply(one_at(e, k), held_at(s, k)))
}

// The first effect, then the second.
pub fn then(a: Effect, b: Effect) -> Effect
    ensures equals { result ≡ then_of a b }
    ensures means { Leaves result (λ i s. at i (apply_of b (apply_of a s))) }
{
    effect_of(|k| effect_one::then(one_at(a, k), one_at(b, k)))
}

// The effect taken n times, one after the other; 0 is read as 1. It is as dear as one `then`, whatever n is.
pub fn times(e: Effect, n: usize) -> Effect
    ensures equals { result ≡ times_of e n }
    ensures means { Leaves result (λ i s. at i (again_of e n s)) }
{
    effect_of(|k| effect_one::times(one_at(e, k), n))
}
