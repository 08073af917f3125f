// For 1 to 255 repeats: how many "then" `taken` spent on a draw, and how many `steps_of` says.
#![tactic(auto)]

use std::io;

fn print_steps(to: &impl Print, repeats: u8) -> io::Result<()> {
    let t = rule_rounds::taken(effect::draw(0), repeats);
    println!(to; "{repeats} {} {}", t.steps, rule_rounds::steps_of(repeats))
}

fn main(rt: HostRuntime) -> io::Result<()> {
    for repeats in 1..=u8::MAX {
        print_steps(&rt, repeats)?;
    }
    Ok(())
}
