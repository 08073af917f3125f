// Bytes and little-endian words of a lent slice, read and written. What lies past the end reads as 0, so no reader has an index to show.
#![tactic(auto)]

ghost use Rattle.std.specs.Prelude.{◌≡◌, ◌+◌, ◌*◌, ◌<◌, ◌≤◌, min, length, get_or};
ghost use Rattle.words.specs.Bytes.{byte_at, word_at};
ghost use Rattle.words.specs.Four.{four_at};
ghost use Rattle.words.specs.Write.{splice, word_bytes, bytes_of};

// The byte at `at`.
#[tactic(auto, unfolding(crate::specs::Bytes::byte_at))]
pub fn byte(s: &[u8], at: usize) -> usize
    ensures { (result ≡ byte_at s.now at) × (result < 256) }
{
    s.get(at).copied().unwrap_or(0) as usize
}

// The two bytes at `at`, low byte first.
#[tactic(auto, unfolding(crate::specs::Bytes::word_at, crate::specs::Bytes::byte_at))]
pub fn word(s: &[u8], at: usize) -> usize
    ensures { (result ≡ word_at s.now at) × (result < 65536) }
{
    if at < s.len().saturating_sub(1) {
        inner_word(s, at)
    } else {
        byte(s, at)
    }
}

// The same, where both bytes are known to lie in the slice, so that nothing is tested.
#[tactic(auto, unfolding(crate::specs::Bytes::word_at, crate::specs::Bytes::byte_at))]
pub fn inner_word(s: &[u8], at: usize) -> usize
    requires { at + 2 ≤ length s.now }
    ensures { (result ≡ word_at s.now at) × (result < 65536) }
{
    u16::from_le_bytes([s[at], s[at + 1]]) as usize
}

// Four such words as one number, so that they are compared at once.
#[tactic(auto, unfolding(crate::specs::Four::four_at))]
pub fn inner_four(s: &[u8], at: usize) -> usize
    requires { at + 8 ≤ length s.now }
    ensures { result ≡ four_at s.now at }
{
    let low = inner_word(s, at) + 65536 * inner_word(s, at + 2);
    let high = inner_word(s, at + 4) + 65536 * inner_word(s, at + 6);
    low + 4294967296 * high
}

// The word v is written at `at`.
pub fn put_word(s: &mut [u8], at: usize, v: u16)
    requires { at + 2 ≤ length s.old }
    ensures { s.new ≡ splice s.old at (word_bytes v) }
{
    s[at..at + 2].copy_from_slice(&v.to_le_bytes());
}

// A slice is filled with the words v.
pub fn put_words(s: &mut [u8], v: &[u16])
    requires { length s.old ≡ 2 * length v.now }
    ensures { s.new ≡ bytes_of (λ k. get_or v.now k 0) (length v.now) }
{
    for (k, word) in v.iter().enumerate() {
        put_word(s, 2 * k, *word);
    }
}

// The smaller of two numbers: std's `min`, under the name that the pages offer and wrong edits are tried on.
pub fn smaller(a: usize, b: usize) -> usize
    ensures { result ≡ min a b }
{
    a.min(b)
}
