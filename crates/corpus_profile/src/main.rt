// Judges each of the files that its arguments name by both profiles, and prints the name, and number, type, place and line
// of each answer.
#![tactic(auto)]

use corpus_files::Numbers;
use std::io;

fn judge(to: &impl Print, name: &str, file: &[u8]) -> io::Result<()> {
    let one_shot = Numbers(profile::one_shot(file));
    let session = Numbers(profile::session(file));
    println!(to; "{name} {one_shot} {session}")
}

fn main(rt: HostRuntime) -> io::Result<()> {
    corpus_files::each_file::<16384, _>(&rt, |name, part| judge(&rt, name, part.bytes))
}
