// Effects of a sheet marked and lowered where they stand, type by type.
#![tactic(auto)]

ghost use Rattle.std.specs.Prelude.{◌≡◌, cond, ◌+◌, ◌*◌, ◌<◌, ◌≤◌, length};
ghost use Rattle.words.specs.Write.{splice};
ghost use Rattle.sheet_layout.specs.Layout.{effect_size};
ghost use Rattle.effect_one.specs.Formulas.{both_one};
ghost use Rattle.sheet.specs.Inner.{one_words};
ghost use Rattle.sheet_lower.specs.Lowered.{one_bytes, lowered_bytes};

use effect::Effect;
use effect_one::One;

// The four words of type k of the block at w become x.
fn put_one(s: &mut [u8], w: usize, k: usize, x: One)
    requires { 2 * (w + (5 + 4 * k)) ≤ length s.old }
    ensures { s.new ≡ splice s.old (2 * (w + (1 + 4 * k))) (one_bytes x) }
{
    let at = 2 * (w + (1 + 4 * k));
    words::put_word(s, at, x.keepin);
    words::put_word(s, at + 2, x.keepmax);
    words::put_word(s, at + 4, x.cap);
    words::put_word(s, at + 6, x.drop);
}

// They become x or, in a block that was marked, the lower of what they say and x.
fn lower_one(s: &mut [u8], w: usize, k: usize, old: bool, x: One)
    requires { 2 * (w + (5 + 4 * k)) ≤ length s.old }
    ensures { s.new ≡ splice s.old (2 * (w + (1 + 4 * k))) (one_bytes (cond old (both_one (one_words s.old w k) x) x)) }
{
    if old {
        let y = sheet::inner_one(s, w, k);
        put_one(s, w, k, effect_one::both(y, x));
        return;
    }
    put_one(s, w, k, x);
}

// The block at w is marked and gets the effect e or, where it was marked, the lower of what it said and e.
pub fn lower_effect(s: &mut [u8], t: u16, w: usize, e: Effect)
    requires { (2 * (w + effect_size t) ≤ length s.old) × (t ≤ 6) }
    ensures { s.new ≡ splice s.old (2 * w) (lowered_bytes s.old t w e) }
{
    let old = sheet::is_marked(s, w);
    for k in 0..t as usize {
        // read here: a call would copy the whole effect at every turn
        let x = One {
            keepin: e.keepin[k],
            keepmax: e.keepmax[k],
            cap: e.cap[k],
            drop: e.drop[k],
        };
        lower_one(s, w, k, old, x);
    }
    words::put_word(s, 2 * w, 1);
}
