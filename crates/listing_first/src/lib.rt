// The first line of the listing.
#![tactic(auto)]

ghost use Rattle.std.specs.Prelude.{◌+◌, ◌≤◌, length};
ghost use Rattle.words_digits.specs.Writes.{Writes};
ghost use Rattle.listing_first.specs.Listing.{overdrawn_line, refused_line, first_line};

use answer::Answer;
use words_digits::Text;

#[tactic(auto, using(crate::proofs::Lengths::overdrawn_length))]
fn put_overdrawn(text: &mut Text, node: u16, drawn: u16, line: u16)
    requires { text.old.end + length (overdrawn_line node drawn line) ≤ length text.old.out.now }
    ensures { Writes text.old (overdrawn_line node drawn line) text.new }
{
    text.put_text(b"overdrawn ");
    text.put_decimal(node);
    text.put_byte(b' ');
    text.put_decimal(drawn);
    text.put_byte(b' ');
    text.put_decimal(line);
    text.put_byte(b'\n');
}

#[tactic(auto, using(crate::proofs::Lengths::refused_length))]
fn put_refused(text: &mut Text, number: u16, place: u16)
    requires { text.old.end + length (refused_line number place) ≤ length text.old.out.now }
    ensures { Writes text.old (refused_line number place) text.new }
{
    text.put_text(b"refused ");
    text.put_decimal(number);
    text.put_byte(b' ');
    text.put_decimal(place);
    text.put_byte(b'\n');
}

// `pass`, `overdrawn`, the node, the type and the line, or `refused`, the number and the place.
#[tactic(auto, unfolding(crate::specs::Listing::first_line))]
pub fn put_first(text: &mut Text, a: Answer)
    requires { text.old.end + length (first_line a) ≤ length text.old.out.now }
    ensures { Writes text.old (first_line a) text.new }
{
    match a {
        Answer::Pass => text.put_text(b"pass\n"),
        Answer::Overdrawn(node, drawn, line) => put_overdrawn(text, node, drawn, line),
        _ => put_refused(text, answer::number(a), answer::place(a) as u16),
    }
}
