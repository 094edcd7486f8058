// Big-endian 32-bit words in lent bytes. The functions are total: where the bytes are not all there, a word is read as 0 and nothing is written.
#![tactic(auto)]

ghost use Rattle.std.specs.Prelude.{◌≡◌, ◌+◌, ◌≤◌, length, nat_le};
ghost use Rattle.words.specs.Words.{word_at, four_at, put_word, put_four};

// There are n bytes from place at on. The length is compared by itself, so that in a loop over places the compiler does so before it.
fn has(length: usize, at: usize, n: usize) -> bool
    ensures { result ≡ nat_le (at + n) length }
{
    n <= length && at <= length - n
}

// The word whose first byte stands at place at.
pub fn word_at(s: &[u8], at: usize) -> u32
    ensures { result ≡ word_at s.now at }
{
    if has(s.len(), at, 4) {
        u32::from_be_bytes([s[at], s[at + 1], s[at + 2], s[at + 3]])
    } else {
        0
    }
}

// Four words, one after the other.
#[derive(Clone, Copy)]
pub struct Four {
    pub a: u32,
    pub b: u32,
    pub c: u32,
    pub d: u32,
}

// The first four of s.
fn first_four(s: &[u8]) -> Four
    ensures { result ≡ four_at s.now 0 }
{
    Four {
        a: word_at(s, 0),
        b: word_at(s, 4),
        c: word_at(s, 8),
        d: word_at(s, 12),
    }
}

// The four from place at on. Where they are all there just their 16 bytes are lent to the four reads, and the compiler drops the test of each.
pub fn four_at(s: &[u8], at: usize) -> Four
    ensures { result ≡ four_at s.now at }
{
    if !has(s.len(), at, 16) {
        return first_four(s.get(at..).unwrap_or(&[]));
    }
    first_four(&s[at..at + 16])
}

// Writes a word's four bytes from place at on, where there is room for them.
fn lay(s: &mut [u8], at: usize, w: u32)
    requires { at + 4 ≤ length s.old }
    ensures { s.new ≡ put_word s.old at w }
{
    s[at..at + 4].copy_from_slice(&w.to_be_bytes());
}

// Writes a word's four bytes from place at on.
pub fn put_word(s: &mut [u8], at: usize, w: u32)
    ensures { s.new ≡ put_word s.old at w }
{
    if has(s.len(), at, 4) {
        lay(s, at, w);
    }
}

// Writes four words from place at on, with one test of the room for all of them.
pub fn put_four(s: &mut [u8], at: usize, four: Four)
    ensures { s.new ≡ put_four s.old at four.a four.b four.c four.d }
{
    if has(s.len(), at, 16) {
        lay(s, at, four.a);
        lay(s, at + 4, four.b);
        lay(s, at + 8, four.c);
        lay(s, at + 12, four.d);
    }
}
