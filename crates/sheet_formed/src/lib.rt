// Which blocks of a sheet are ill formed.
#![tactic(auto)]

ghost use Rattle.std.specs.Prelude.{◌≡◌, ◌+◌, ◌*◌, ◌<◌, ◌≤◌, length};
ghost use Rattle.sheet_layout.specs.Layout.{effect_size};
ghost use Rattle.effect.specs.Whole.{normal_of};
ghost use Rattle.sheet.specs.Read.{mark_at, effect_at};
ghost use Rattle.sheet_formed.specs.Ill.{some_word, counts_fit, fits, ill_by, ill_block, first_ill};

use effect::Stock;
use sheet_layout::Shape;

// One of the n words from w on is not 0.
fn some_word(s: &[u8], w: usize, n: usize) -> bool
    requires { (w < 72057594037927936) × (n < 1048576) }
    ensures { result ≡ some_word s.now w n }
{
    (0..n).any(|k| words::word(s, 2 * (w + k)) != 0)
}

// No count is above 255.
fn counts_fit(x: Stock) -> bool
    ensures { result ≡ counts_fit x }
{
    x.counts.iter().all(|c| *c <= 255)
}

// What a marked block holds may stand in it.
fn content_fits(s: &[u8], t: u16, w: usize, stock: bool) -> bool
    ensures { result ≡ fits s.now t w stock }
{
    if stock {
        return counts_fit(sheet::stock(s, t, w));
    }
    effect::normal(sheet::effect(s, t, w))
}

// Block b is ill formed, judged word by word.
fn any_ill(s: &[u8], x: Shape, b: u32) -> bool
    ensures { result ≡ ill_block s.now x b }
{
    let w = sheet_layout::block_at(x, b);
    let m = sheet::mark(s, w);
    if m == 0 {
        return some_word(s, w, sheet_layout::block_size(x, b));
    }
    if m == 1 {
        return !content_fits(s, x.types, w, sheet_layout::is_stock(x, b));
    }
    true
}

// One of the words of an unmarked effect that lies in the sheet is not 0: four are read at once.
fn inner_some(s: &[u8], t: u16, w: usize) -> bool
    requires { (2 * (w + effect_size t) ≤ length s.now) × (mark_at s.now w ≡ 0) }
    ensures { result ≡ some_word s.now w (effect_size t) }
{
    (0..t as usize).any(|k| words::inner_four(s, 2 * (w + (1 + 4 * k))) != 0)
}

// An effect that lies in the sheet is normal.
fn inner_normal(s: &[u8], t: u16, w: usize) -> bool
    requires { (t ≤ 6) × (2 * (w + effect_size t) ≤ length s.now) }
    ensures { result ≡ normal_of (effect_at s.now t w) }
{
    (0..t as usize).all(|k| effect_one::normal(sheet::inner_one(s, w, k)))
}

// A block with an effect that lies in the sheet is ill formed.
fn inner_ill(s: &[u8], t: u16, w: usize) -> bool
    requires { (t ≤ 6) × (2 * (w + effect_size t) ≤ length s.now) }
    ensures { result ≡ ill_by (mark_at s.now w) (some_word s.now w (effect_size t)) (normal_of (effect_at s.now t w)) }
{
    let mark = words::inner_word(s, 2 * w);
    if mark == 0 {
        return inner_some(s, t, w);
    }
    if mark == 1 {
        return !inner_normal(s, t, w);
    }
    true
}

// Block b is ill formed. Nearly all blocks have an effect and lie in the sheet.
pub fn block_ill(s: &[u8], x: Shape, b: u32) -> bool
    ensures { result ≡ ill_block s.now x b }
{
    let w = sheet_layout::block_at(x, b);
    let stock = sheet_layout::is_stock(x, b);
    if !stock & sheet::lies_in(s, x.types, w, 4) {
        return inner_ill(s, x.types, w);
    }
    any_ill(s, x, b)
}

// The lowest ill-formed block, or the number of blocks.
pub fn first_ill(s: &[u8], x: Shape) -> u32
    ensures { result ≡ first_ill s.now x }
{
    let n = sheet_layout::block_count(x);
    (0..n).find(|b| block_ill(s, x, *b)).unwrap_or(n)
}
