// The blocks of a sheet: read from lent bytes, and written where they stand in it.
#![tactic(auto)]

ghost use Rattle.std.specs.Prelude.{ℕ, ◌≡◌, true, ◌↔◌, ◌+◌, ◌*◌, ◌<◌, ◌≤◌, length, get_or};
ghost use Rattle.sheet_layout.specs.Layout.{stock_size, effect_size};
ghost use Rattle.effect.specs.Six.{six, held_at, one_at};
ghost use Rattle.words.specs.Write.{splice, bytes_of};
ghost use Rattle.sheet.specs.Read.{sheet_word, mark_at, marked, column, stock_at, effect_at};
ghost use Rattle.sheet.specs.Inner.{one_words, of_types};
ghost use Rattle.sheet.specs.Write.{laid_out, stock_bytes, blanked};

use effect::{Effect, Stock};
use effect_one::{Held, One};
use std::array;

// Word k of the block whose first word is w.
fn word(s: &[u8], w: usize, k: usize) -> u16
    requires { k < 25 }
    ensures { result ≡ sheet_word s.now (w + k) }
{
    if s.len() / 2 < w {
        return 0;
    }
    words::word(s, 2 * (w + k)) as u16
}

// The mark of the block whose first word is w.
pub fn mark(s: &[u8], w: usize) -> u16
    ensures { result ≡ mark_at s.now w }
{
    word(s, w, 0)
}

// The block at w has mark 1.
pub fn is_marked(s: &[u8], w: usize) -> bool
    ensures { result ≡ marked s.now w }
{
    mark(s, w) == 1
}

// What a column has of type k: word j of the block for type 0, and n words on for each further type.
fn field(s: &[u8], t: u16, w: usize, n: usize, j: usize, none: u16, k: usize) -> u16
    requires { (n ≤ 4) × (j ≤ 4) × (k < 6) }
    ensures { result ≡ column s.now t w n j none k }
{
    if k < t as usize {
        return word(s, w, j + n * k);
    }
    none
}

// A block of t types, at most six, with n words each lies in the sheet.
pub fn lies_in(s: &[u8], t: u16, w: usize, n: usize) -> bool
    requires { n ≤ 4 }
    ensures { (result ≡ true) ↔ ((t ≤ 6) × (2 * (w + (1 + n * t)) ≤ length s.now)) }
{
    let have = s.len() / 2;
    if have < w {
        return false;
    }
    (t <= 6) & (1 + n * t as usize <= have - w)
}

// A column of a block that lies in the sheet: no word is tested, and a type that the file does not have costs nothing.
fn inner_column(s: &[u8], t: u16, w: usize, n: usize, j: usize, none: u16) -> [u16; 6]
    requires { (t ≤ 6) × (j ≤ n) × (2 * (w + (1 + n * t)) ≤ length s.now) }
    ensures { result ≡ six (column s.now t w n j none) }
{
    let mut c = [none; 6];
    for k in 0..t as usize {
        c[k] = words::inner_word(s, 2 * (w + (j + n * k))) as u16;
    }
    c
}

// A column of any block. Nearly every block lies in the sheet, which is tested once.
fn six_of(s: &[u8], t: u16, w: usize, n: usize, j: usize, none: u16) -> [u16; 6]
    requires { (n ≤ 4) × (j ≤ n) }
    ensures { result ≡ six (column s.now t w n j none) }
{
    if lies_in(s, t, w, n) {
        return inner_column(s, t, w, n, j, none);
    }
    array::from_fn(|k| field(s, t, w, n, j, none, k))
}

// The stock of the block whose first word is w, of t types.
pub fn stock(s: &[u8], t: u16, w: usize) -> Stock
    ensures { result ≡ stock_at s.now t w }
{
    Stock {
        rights: six_of(s, t, w, 2, 1, 0),
        counts: six_of(s, t, w, 2, 2, 0),
    }
}

// What the effect of a block does to type k, whose four words lie in the sheet.
pub fn inner_one(s: &[u8], w: usize, k: usize) -> One
    requires { 2 * (w + (5 + 4 * k)) ≤ length s.now }
    ensures { result ≡ one_words s.now w k }
{
    One {
        keepin: words::inner_word(s, 2 * (w + (1 + 4 * k))) as u16,
        keepmax: words::inner_word(s, 2 * (w + (2 + 4 * k))) as u16,
        cap: words::inner_word(s, 2 * (w + (3 + 4 * k))) as u16,
        drop: words::inner_word(s, 2 * (w + (4 + 4 * k))) as u16,
    }
}

// The effect that does to each of t types what `one` says, and nothing to a type that the file does not have.
pub fn effect_from_fn<F: Fn(usize) -> One>(t: u16, one: F) -> Effect
    requires few { t ≤ 6 }
    requires calls { (k : ℕ) → k < t → F.pre one k }
    ensures { (f : ℕ → One) → ((k : ℕ) (x : One) → k < t → F.post one k x → x ≡ f k) → result ≡ of_types f t }
{
    let mut keepin = [0; 6];
    let mut keepmax = [65535; 6];
    let mut cap = [255; 6];
    let mut drop = [0; 6];
    for k in 0..t as usize {
        let x = one(k);
        keepin[k] = x.keepin;
        keepmax[k] = x.keepmax;
        cap[k] = x.cap;
        drop[k] = x.drop;
    }
    Effect {
        keepin,
        keepmax,
        cap,
        drop,
    }
}

// The effect of a block that lies in the sheet, read type by type.
fn inner_effect(s: &[u8], t: u16, w: usize) -> Effect
    requires { (t ≤ 6) × (2 * (w + effect_size t) ≤ length s.now) }
    ensures { result ≡ effect_at s.now t w }
{
    effect_from_fn(t, |k| inner_one(s, w, k))
}

// The effect of the block whose first word is w, of t types.
pub fn effect(s: &[u8], t: u16, w: usize) -> Effect
    ensures { result ≡ effect_at s.now t w }
{
    if lies_in(s, t, w, 4) {
        return inner_effect(s, t, w);
    }
    Effect {
        keepin: six_of(s, t, w, 4, 1, 0),
        keepmax: six_of(s, t, w, 4, 2, 65535),
        cap: six_of(s, t, w, 4, 3, 255),
        drop: six_of(s, t, w, 4, 4, 0),
    }
}

// What the stock of the block at w has of type k,
pub fn held(s: &[u8], t: u16, w: usize, k: usize) -> Held
    requires { k < 6 }
    ensures { result ≡ held_at (stock_at s.now t w) k }
{
    Held {
        rights: field(s, t, w, 2, 1, 0, k),
        count: field(s, t, w, 2, 2, 0, k),
    }
}

// and what its effect does to type k.
pub fn one(s: &[u8], t: u16, w: usize, k: usize) -> One
    requires { k < 6 }
    ensures { result ≡ one_at (effect_at s.now t w) k }
{
    One {
        keepin: field(s, t, w, 4, 1, 0, k),
        keepmax: field(s, t, w, 4, 2, 65535, k),
        cap: field(s, t, w, 4, 3, 255, k),
        drop: field(s, t, w, 4, 4, 0, k),
    }
}

// Every byte is made 0.
pub fn blank(s: &mut [u8])
    ensures { s.new ≡ blanked s.old }
{
    s.fill(0);
}

// One field of t types goes into the words v of a block: type 0 at word j, and n words on for each further type.
fn laid(v: [u16; 25], t: u16, n: usize, j: usize, field: [u16; 6]) -> [u16; 25]
    requires { (t ≤ 6) × (n ≤ 4) × (j ≤ 4) }
    ensures { result ≡ laid_out v n j field t }
{
    let mut r = v;
    for k in 0..t as usize {
        r[j + n * k] = field[k];
    }
    r
}

// The words v are written where their block stands in the sheet's middle.
fn put_block(s: &mut [u8], w: usize, v: &[u16])
    requires { 2 * (w + length v.now) ≤ length s.old }
    ensures { s.new ≡ splice s.old (2 * w) (bytes_of (λ k. get_or v.now k 0) (length v.now)) }
{
    let a = 2 * w;
    let e = a + 2 * v.len();
    words::put_words(&mut s[a..e], v);
}

// The block whose first word is w is marked and gets the stock x.
pub fn write_stock(s: &mut [u8], t: u16, w: usize, x: Stock)
    requires { (2 * (w + stock_size t) ≤ length s.old) × (t ≤ 6) }
    ensures { s.new ≡ splice s.old (2 * w) (stock_bytes x t) }
{
    let v = laid(laid([1; 25], t, 2, 1, x.rights), t, 2, 2, x.counts);
    let n = 1 + 2 * t as usize;
    put_block(s, w, &v[..n]);
}
