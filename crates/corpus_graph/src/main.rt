// Judges each of the files that its arguments name, and prints the name, and the answer's number, type, place and line.
#![tactic(auto)]

use corpus_files::Numbers;
use std::io;

fn judge(to: &impl Print, name: &str, file: &[u8]) -> io::Result<()> {
    println!(to; "{name} {}", Numbers(graph::judged(file).answer))
}

// There is room for more than the longest file, so that files that are too long are judged as well.
fn main(rt: HostRuntime) -> io::Result<()> {
    corpus_files::each_file::<16384, _>(&rt, |name, part| judge(&rt, name, part.bytes))
}
