// Reads one graph file on standard input and prints its listing: the answer, and then for each reached node and type the
// rights and the count that a run brings at least. What fails is said on standard error.
#![tactic(auto)]

ghost use Rattle.std.specs.Prelude.{◌≡◌, ◌≤◌, length, take};
ghost use Rattle.listing.specs.Lists.{Prints};

use answer::Answer;
use std::io;
use std::io::{Stderr, Stdout};
use words_digits::Text;

fn complain(to: Stderr, text: &[u8]) {
    let _ = to.write_all(text);
}

// Only the listing of the input is ever printed.
fn print(to: Stdout, input: &[u8], listing: &[u8]) -> io::Result<()>
    requires { Prints input.now listing.now }
{
    to.write_all(listing)
}

// Its length is all that is said of it, so that no proof has to look at its bytes.
fn zeros<const N: usize>() -> [u8; N]
    ensures { N ≡ length result }
{
    [0; N]
}

// The listing of the input at the start of `out`. The sheet is the part of the longest that the file asks for.
#[tactic(auto, using(crate::proofs::Printed::long_printed, listing_first::proofs::Longest::first_few, sheet_layout::proofs::Bounds::sheet_le, std::proofs::lemmas::Grind::common_steps), unfolding(sheet_layout::specs::Layout::sheet_bytes))]
fn list(input: &[u8], out: &mut [u8]) -> usize
    requires { 46103 ≤ length out.old }
    ensures { (result ≤ length out.new) × Prints input.now (take result out.new) }
{
    if input.len() > 13486 {
        let mut text = Text { out, end: 0 };
        listing_first::put_first(&mut text, Answer::BadLength);
        return text.end;
    }
    let j = graph::judged(input);
    let end = sheet_layout::sheet_bytes(j.shape);
    let mut sheet = sheet_layout::longest_sheet();
    let reply = listing::of_judged(input, j, &mut sheet[..end], out);
    reply.length
}

// One byte more than the longest file is read, and refused without a look at the rest.
fn main(rt: HostRuntime) {
    let mut file = zeros::<13487>();
    let Ok(n) = program_input::read(&mut rt.stdin(), &mut file) else {
        complain(rt.stderr(), b"snellair: standard input could not be read\n");
        return;
    };
    let mut out = zeros::<46103>();
    let m = list(&file[..n], &mut out);
    if print(rt.stdout(), &file[..n], &out[..m]).is_err() {
        complain(rt.stderr(), b"snellair: the listing could not be written\n");
    }
}
