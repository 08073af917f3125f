// What the rounds of a repeated call come to. Effects alone: nothing here knows of graphs.
#![tactic(auto)]

ghost use Rattle.std.specs.Prelude.{◌≡◌, true, List, ◌<◌, ◌≤◌};
ghost use Rattle.rule_rounds.specs.Chain.{digit_on, power_chain, steps_of, most_steps, Taking};
ghost use Rattle.rule_rounds.specs.Climb.{climb_of};
ghost use Rattle.rule_rounds.specs.Rounds.{rounds_of};

use effect::Effect;

// What a call's targets must be at most: `earlier` where a round begins, the first or a further one; `whole` where any round has returned.
#[derive(Clone, Copy)]
pub struct Rounds {
    pub earlier: Effect,
    pub whole: Effect,
}

// An effect taken so many times: `effect` is the lowest of it taken 1 to `repeats` times, `before` the lowest of it taken 0 to `repeats` - 1
// times. `steps` is the number of "then" formed for `effect`; for `before` it is one less.
#[derive(Clone, Copy)]
pub struct Repeated {
    pub before: Effect,
    pub effect: Effect,
    pub steps: u32,
}

// A power on the way, and the number of "then" formed for it.
#[derive(Clone, Copy)]
struct Climb {
    power: Effect,
    steps: u32,
}

// One binary digit more: the square and, for a 1, y behind it.
fn digit(p: Climb, y: Effect, one: bool) -> Climb
    requires { p.steps < 1000 }
    ensures { (l : List Effect) → p ≡ climb_of y l → result ≡ climb_of y (digit_on y one l) }
{
    let square = effect::then(p.power, p.power);
    if one {
        return Climb {
            power: effect::then(square, y),
            steps: p.steps + 2,
        };
    }
    Climb {
        power: square,
        steps: p.steps + 1,
    }
}

// y to the power e, by the binary digits of e below the highest, the higher first.
fn power(y: Effect, e: u32) -> Climb
    requires { 0 < e }
    ensures { result ≡ climb_of y (power_chain y e) }
{
    let mut p = Climb { power: y, steps: 0 };
    for place in (0..e.ilog2()).rev() {
        p = digit(p, y, (e >> place) % 2 == 1);
    }
    p
}

// x taken up to so many times, by squaring: (nothing done, both, x) to the power of one less, then x once more. 0 is read as 1.
pub fn taken(x: Effect, repeats: u8) -> Repeated
    ensures means { Taking x repeats result }
    ensures few { result.steps ≤ most_steps }
{
    let none = effect::nothing_done();
    if repeats < 2 {
        return Repeated {
            before: none,
            effect: x,
            steps: 0,
        };
    }
    let p = power(effect_order::both(none, x), repeats as u32 - 1);
    let before = p.power;
    Repeated {
        before: before,
        effect: effect::then(before, x),
        steps: p.steps + 1,
    }
}

// The number of "then" that `taken` spends: with e one less than the repeats, the bit length of e, less 1, plus the ones in e. By leading
// zeros, and not `ilog2`: the request names the form.
pub fn steps_of(repeats: u8) -> u32
    ensures { result ≡ steps_of repeats }
{
    if repeats < 2 {
        return 0;
    }
    let e = repeats as u32 - 1;
    31 - e.leading_zeros() + e.count_ones()
}

// The rounds of a call whose method returns by the exit x. A round leaves at most what the one before it left, so the lowest of some rounds
// is the last of them, and `effect::times` is cheaper than a chain of products.
fn returning(call: Effect, x: Effect, repeats: usize) -> Rounds
    ensures { result ≡ rounds_of call true x repeats }
{
    if repeats <= 1 {
        return Rounds {
            earlier: call,
            whole: effect::then(call, x),
        };
    }
    let last = effect::then(call, effect::times(x, repeats - 1));
    Rounds {
        earlier: effect_order::both(call, last),
        whole: effect::then(last, x),
    }
}

// The rounds of a call whose method has the exit x, if that is marked.
pub fn of_call(call: Effect, marked: bool, x: Effect, repeats: usize) -> Rounds
    ensures { result ≡ rounds_of call marked x repeats }
{
    if marked {
        return returning(call, x, repeats);
    }
    Rounds {
        earlier: call,
        whole: call,
    }
}
