// Checks the sheet and the graph file in each of the files that its arguments name, and prints the name, and the answer's
// number, type, place and line. A file is two bytes, the graph file's length, lowest byte first, then the graph file, and then
// the sheet, which is all that is left.
#![tactic(auto)]

use corpus_files::{Numbers, Part};
use std::io;

// Where no read failed, a file is short by the system's error 0.
fn check(rt: &HostRuntime, name: &str, part: Part<'_>) -> io::Result<()> {
    let both = part.bytes;
    let end = 2 + words::word(both, 0);
    if both.len() < end {
        let why = part.error.unwrap_or(io::Error::from_raw_os_error(0));
        return corpus_files::fail(rt, name.as_bytes(), why);
    }
    let a = accept::check(&both[2..end], &both[end..]);
    println!(rt; "{name} {}", Numbers(a))
}

// There is room for the longest graph file with the longest sheet, and two bytes.
fn main(rt: HostRuntime) -> io::Result<()> {
    corpus_files::each_file::<69632, _>(&rt, |name, part| check(&rt, name, part))
}
