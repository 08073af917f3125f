// The files that the arguments of a program name, read as far as a buffer goes, and what is said of those that fail.
#![tactic(auto)]

ghost use Rattle.std.specs.Prelude.{◌≡◌, ◌^◌, ◌<◌, ◌≤◌, length, IfOk, IfSome, Some};
ghost use Rattle.corpus_files.specs.Text.{numbers_text};

use answer::Answer;
use std::env::{Env, FillError};
use std::fs::Files;
use std::io::{ErrorKind, Read};
use std::{fmt, fs, io, str};

// The argument i, put into `buffer`, or nothing where there is none. One that does not fit counts as empty.
pub fn argument<'a>(rt: &impl Env, i: usize, buffer: &'a mut [u8]) -> Option<&'a [u8]>
    ensures { IfSome result (λ name. length name.now ≤ length buffer.old) }
{
    match rt.arg(i, buffer) {
        Ok(n) => Some(&buffer[..n]),
        Err(FillError::TooLong) => Some(&[]),
        Err(FillError::NotPresent) => None,
    }
}

// The file, and its name as text: only a name that is UTF-8 can be opened.
pub fn open<'a, R: Files>(rt: &R, path: &'a [u8]) -> io::Result<(&'a str, R::File)>
    ensures { IfOk result (λ opened. opened.0.now ≡ path.now) }
{
    match str::from_utf8(path) {
        Ok(name) => Ok((name, fs::open(rt, name)?)),
        Err(_) => Err(io::Error::from(ErrorKind::InvalidFilename)),
    }
}

// What was read of a file, and the error that ended it, where one did.
#[derive(Clone, Copy)]
pub struct Part<'a> {
    pub bytes: &'a [u8],
    pub error: Option<io::Error>,
}

// Reads until the buffer is full, the file ends or a read fails. Unlike at `program_input::read`, what came before that failure
// counts.
pub fn read<'a>(file: &mut impl Read, buffer: &'a mut [u8]) -> Part<'a>
    ensures { length result.bytes.now ≤ length buffer.old }
{
    let mut done = 0;
    let mut error = None;
    while done < buffer.len() {
        match file.read(&mut buffer[done..]) {
            Ok(0) => break,
            Ok(more) => done += more,
            Err(why) => {
                error = Some(why);
                break;
            }
        }
    }
    Part {
        bytes: &buffer[..done],
        error,
    }
}

// The words of an error without the number that follows them.
fn words_of(text: &str) -> &str {
    match text.split_once(" (os error ") {
        Some((words, _)) => words,
        None => text,
    }
}

// A line on standard error: what failed, a colon, and why, in the system's words. Where there is no memory for them, the
// number stays.
pub fn fail(rt: &HostRuntime, what: &[u8], why: io::Error) -> io::Result<()> {
    let to = rt.stderr();
    to.write_all(what)?;
    match format!(in rt.alloc(); "{why}") {
        Ok(text) => println!(to; ": {}", words_of(text.as_str())),
        Err(_) => println!(to; ": {why}"),
    }
}

fn visit_file<const N: usize, F: Fn(&str, Part<'_>) -> io::Result<()>>(
    rt: &HostRuntime,
    path: &[u8],
    visit: &F,
) -> io::Result<()>
    requires room { N < 2 ^ 63 }
    requires visit { F.IsAlwaysCallable visit.now }
{
    match open(rt, path) {
        Ok((name, mut file)) => {
            let mut buffer = [0u8; N];
            visit(name, read(&mut file, &mut buffer))
        }
        Err(error) => fail(rt, path, error),
    }
}

// Reads up to N bytes of each file that an argument names, and calls `visit` with the file's name and what was read. Of a
// file that can't be opened a line says so, and the next one follows.
pub fn each_file<const N: usize, F: Fn(&str, Part<'_>) -> io::Result<()>>(
    rt: &HostRuntime,
    visit: F,
) -> io::Result<()>
    requires room { N < 2 ^ 63 }
    requires visit { F.IsAlwaysCallable visit }
{
    for i in 1..usize::MAX {
        let mut buffer = [0u8; 4096];
        let Some(path) = argument(rt, i, &mut buffer) else {
            break;
        };
        visit_file::<N, F>(rt, path, &visit)?;
    }
    Ok(())
}

// An answer, printed as its number, type, place and line.
#[derive(Clone, Copy)]
pub struct Numbers(pub Answer);

impl fmt::Display for Numbers {
    ghost output = { λ n. Some (numbers_text n.0) };

    fn fmt<W: fmt::Write>(&self, f: &mut fmt::Formatter<W>) -> fmt::Result {
        let a = self.0;
        let number = answer::number(a);
        let type_of = answer::type_of(a);
        let place = answer::place(a);
        let line = answer::line(a);
        write!(f, "{number} {type_of} {place} {line}")
    }
}
