// A node's lines of the listing, one for each type.
#![tactic(auto)]

ghost use Rattle.std.specs.Prelude.{◌+◌, ◌≤◌, length};
ghost use Rattle.words_digits.specs.Writes.{Writes};
ghost use Rattle.listing_first.specs.Listing.{count_text, stock_line, stock_lines};

use effect::Stock;
use effect_one::Held;
use words_digits::Text;

// An endless count is a star.
#[tactic(auto, unfolding(listing_first::specs::Listing::count_text))]
fn put_count(text: &mut Text, count: u16)
    requires { text.old.end + length (count_text count) ≤ length text.old.out.now }
    ensures { Writes text.old (count_text count) text.new }
{
    if count == 255 {
        text.put_byte(b'*');
    } else {
        text.put_decimal(count);
    }
}

// The line of node n and type k.
#[tactic(auto, using(listing_first::proofs::Lengths::line_length))]
fn put_line(text: &mut Text, n: u16, k: u16, h: Held)
    requires { text.old.end + length (stock_line n k h) ≤ length text.old.out.now }
    ensures { Writes text.old (stock_line n k h) text.new }
{
    text.put_decimal(n);
    text.put_byte(b' ');
    text.put_decimal(k);
    text.put_byte(b' ');
    text.put_hex(h.rights);
    text.put_byte(b' ');
    put_count(text, h.count);
    text.put_byte(b'\n');
}

// The lines of node n, which holds `held`.
pub fn put_stock(text: &mut Text, n: u16, types: u16, held: Stock)
    requires { (types ≤ 6) × (text.old.end + length (stock_lines n held types) ≤ length text.old.out.now) }
    ensures { Writes text.old (stock_lines n held types) text.new }
{
    for k in 0..types {
        put_line(text, n, k, effect::held_at(held, k as usize));
    }
}
