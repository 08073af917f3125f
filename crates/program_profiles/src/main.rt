// Reads one graph file on standard input and prints a line for each profile: its name, and whether the graph fits it.
#![tactic(auto)]

use answer::Answer;
use std::{fmt, io};

// An answer, printed as `fits`, as `unfit`, the node and its line, or as `refused`, the number and the place.
#[derive(Clone, Copy)]
struct Verdict(Answer);

impl fmt::Display for Verdict {
    fn fmt<W: fmt::Write>(&self, f: &mut fmt::Formatter<W>) -> fmt::Result {
        match self.0 {
            Answer::Pass => write!(f, "fits"),
            Answer::Unfit(node, line) => write!(f, "unfit {node} {line}"),
            refused => write!(
                f,
                "refused {} {}",
                answer::number(refused),
                answer::place(refused)
            ),
        }
    }
}

fn print_profiles(to: &impl Print, one_shot: Answer, session: Answer) -> io::Result<()> {
    println!(to; "one-shot {}", Verdict(one_shot))?;
    println!(to; "session {}", Verdict(session))
}

// A file above the longest is refused without a look at the rest of it.
fn print_file(to: &impl Print, f: &[u8]) -> io::Result<()> {
    if f.len() > 13486 {
        return print_profiles(to, Answer::BadLength, Answer::BadLength);
    }
    print_profiles(to, profile::one_shot(f), profile::session(f))
}

// One byte more than the longest file is read.
fn main(rt: HostRuntime) -> io::Result<()> {
    let mut file = [0u8; 13487];
    let Ok(n) = program_input::read(&mut rt.stdin(), &mut file) else {
        return eprintln!(rt; "snellair: standard input could not be read");
    };
    print_file(&rt, &file[..n])
}
