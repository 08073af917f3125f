// Stocks and effects of one type.
#![tactic(auto)]

ghost use Rattle.std.specs.Prelude.{◌≡◌};
ghost use Rattle.effect_one.specs.Single.{drop_only, idle, apply_one};
ghost use Rattle.effect_one.specs.Formulas.{normal_form, normal_one, drawn, granted, then_one, times_one, both_one, at_most_one, held_at_most, lower_held, covers_held};

// What a stock holds of one type.
#[derive(Clone, Copy)]
pub struct Held {
    pub rights: u16,
    pub count: u16,
}

// What an effect does to one type.
#[derive(Clone, Copy)]
pub struct One {
    pub keepin: u16,
    pub keepmax: u16,
    pub cap: u16,
    pub drop: u16,
}

#[tactic(auto, unfolding(crate::specs::Formulas::normal_form))]
pub fn normal_form(x: One) -> One
    ensures { result ≡ normal_form x }
{
    One {
        keepin: x.keepin & x.keepmax,
        keepmax: x.keepmax,
        cap: x.cap.min(255),
        drop: effect_number::norm_drop(x.cap, x.drop),
    }
}

#[tactic(auto, unfolding(crate::specs::Formulas::normal_one))]
pub fn normal(x: One) -> bool
    ensures { result ≡ normal_one x }
{
    let i = effect_number::within_of(x.keepin, x.keepmax);
    let c = x.cap <= 255;
    let d = effect_number::drop_normal(x.cap, x.drop);
    i & (c & d)
}

// All is kept but what is dropped.
fn dropping(d: u16) -> One
    ensures { result ≡ drop_only d }
{
    One {
        keepin: 0,
        keepmax: 65535,
        cap: 255,
        drop: d,
    }
}

#[tactic(auto, unfolding(crate::specs::Single::idle))]
pub fn nothing_done() -> One
    ensures { result ≡ idle }
{
    dropping(0)
}

#[tactic(auto, unfolding(crate::specs::Formulas::drawn))]
pub fn draw() -> One
    ensures { result ≡ drawn }
{
    dropping(1)
}

#[tactic(auto, unfolding(crate::specs::Formulas::granted))]
pub fn grant(rights: u16, count: u16) -> One
    ensures { result ≡ granted rights count }
{
    normal_form(One {
        keepin: rights,
        keepmax: rights,
        cap: count,
        drop: 256,
    })
}

// What the effect leaves.
#[tactic(auto, unfolding(crate::specs::Single::apply_one))]
pub fn apply(x: One, h: Held) -> Held
    ensures { result ≡ apply_one x h }
{
    Held {
        rights: effect_number::rights_after(x.keepin, x.keepmax, h.rights),
        count: effect_number::count_after(x.cap, x.drop, h.count),
    }
}

// The first effect, then the second.
#[tactic(auto, using(effect_number::proofs::Cases::cap_is, effect_number::proofs::Cases::norm_counted), unfolding(crate::specs::Formulas::then_one, crate::specs::Formulas::normal_form))]
pub fn then(x: One, y: One) -> One
    ensures { result ≡ then_one x y }
{
    let keepmax = effect_number::rights_after(y.keepin, y.keepmax, x.keepmax);
    let cap = effect_number::count_after(y.cap, y.drop, x.cap);
    One {
        keepin: effect_number::rights_after(y.keepin, y.keepmax, x.keepin) & keepmax,
        keepmax,
        cap,
        drop: effect_number::drop_then(cap, x.drop, y.drop),
    }
}

// The effect taken k times, without a repetition; 0 is read as 1.
#[tactic(auto, unfolding(crate::specs::Formulas::times_one))]
pub fn times(x: One, k: usize) -> One
    ensures { result ≡ times_one x k }
{
    if x.drop >= 256 {
        return normal_form(x);
    }
    let d = effect_number::earlier_drop(k, x.drop);
    normal_form(One {
        keepin: x.keepin,
        keepmax: x.keepmax,
        cap: effect_number::less_of(x.cap, d),
        drop: effect_number::sum_drop(d, x.drop),
    })
}

// The smaller of what two effects leave.
#[tactic(auto, using(effect_number::proofs::Cases::norm_counted), unfolding(crate::specs::Formulas::both_one, crate::specs::Formulas::normal_form))]
pub fn both(x: One, y: One) -> One
    ensures { result ≡ both_one x y }
{
    let keepmax = x.keepmax & y.keepmax;
    let cap = x.cap.min(y.cap).min(255);
    One {
        keepin: x.keepin & y.keepin & keepmax,
        keepmax,
        cap,
        drop: effect_number::drop_both(cap, x.drop, y.drop),
    }
}

// x leaves at most what y leaves. What keep-in has beyond keep-max is never left, so it is not compared.
#[tactic(auto, unfolding(crate::specs::Formulas::at_most_one, crate::specs::Formulas::normal_form))]
pub fn at_most(x: One, y: One) -> bool
    ensures { result ≡ at_most_one x y }
{
    let i = effect_number::within_of(x.keepin & x.keepmax, y.keepin);
    let m = effect_number::within_of(x.keepmax, y.keepmax);
    let c = effect_number::count_at_most(x.cap, x.drop, y.cap, y.drop);
    i & (m & c)
}

#[tactic(auto, unfolding(crate::specs::Formulas::held_at_most))]
pub fn stock_at_most(h: Held, g: Held) -> bool
    ensures { result ≡ held_at_most h g }
{
    let i = effect_number::within_of(h.rights, g.rights);
    let c = h.count.min(255) <= g.count;
    i & c
}

#[tactic(auto, unfolding(crate::specs::Formulas::lower_held))]
pub fn lower(h: Held, g: Held) -> Held
    ensures { result ≡ lower_held h g }
{
    Held {
        rights: h.rights & g.rights,
        count: h.count.min(g.count),
    }
}

#[tactic(auto, unfolding(crate::specs::Formulas::covers_held))]
pub fn covers(h: Held, rights: u16) -> bool
    ensures { result ≡ covers_held h rights }
{
    let i = effect_number::within_of(rights, h.rights);
    let c = h.count >= 1;
    i & c
}
