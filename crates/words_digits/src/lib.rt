// Bytes, decimal and hex digits, written into a lent buffer, each text behind the one before.
#![tactic(auto)]

ghost use Rattle.std.specs.Prelude.{◌≡◌, [], ◌∷◌, ◌+◌, ◌<◌, ◌≤◌, length};
ghost use Rattle.words_digits.specs.Digits.{place_text, decimal, hex_digit, four_hex};
ghost use Rattle.words_digits.specs.Writes.{Writes};

// What is written into the buffer, up to `end`.
#[derive(Drop)]
pub struct Text<'a> {
    pub out: &'a mut [u8],
    pub end: usize,
}

fn hex_digit(d: u16) -> u8
    requires { d < 16 }
    ensures { result ≡ hex_digit d }
{
    if d < 10 {
        return 48 + d as u8;
    }
    87 + d as u8
}

impl<'a> Text<'a> {
    pub fn put_byte(&mut self, b: u8)
        requires { self.old.end + 1 ≤ length self.old.out.now }
        ensures { Writes self.old (b ∷ []) self.new }
    {
        self.out[self.end] = b;
        self.end += 1;
    }

    pub fn put_text(&mut self, text: &[u8])
        requires { self.old.end + length text.now ≤ length self.old.out.now }
        ensures { Writes self.old text.now self.new }
    {
        let end = self.end + text.len();
        self.out[self.end..end].copy_from_slice(text);
        self.end = end;
    }

    // The digit of n for the power of ten p, and nothing where n is below p.
    fn put_place(&mut self, p: u16, n: u16)
        requires { (0 < p) × (self.old.end + length (place_text p n) ≤ length self.old.out.now) }
        ensures { Writes self.old (place_text p n) self.new }
    {
        if n >= p {
            self.put_byte(48 + (n / p % 10) as u8);
        }
    }

    pub fn put_decimal(&mut self, n: u16)
        requires { self.old.end + length (decimal n) ≤ length self.old.out.now }
        ensures { Writes self.old (decimal n) self.new }
    {
        for p in [10000, 1000, 100, 10] {
            self.put_place(p, n);
        }
        self.put_byte(48 + (n % 10) as u8);
    }

    pub fn put_hex(&mut self, n: u16)
        requires { self.old.end + 4 ≤ length self.old.out.now }
        ensures { Writes self.old (four_hex n) self.new }
    {
        for p in [4096, 256, 16, 1] {
            self.put_byte(hex_digit(n / p % 16));
        }
    }
}
