// Total reads from slices, and total stores: a place past the end reads as 0, and nothing is stored there.
#![tactic(auto)]

ghost use Rattle.std.specs.Prelude.{◌≡◌, ◌+◌, ◌*◌, take, drop, set};
ghost use Rattle.words.specs.Bytes.{byte_at, halfword_at, word_at};

pub fn byte_at(s: &[u8], i: usize) -> u8
    ensures { result ≡ byte_at s.now i }
{
    s.get(i).copied().unwrap_or(0)
}

// The number that two bytes make, the higher one first.
// Kept: no `from_be_bytes`, which compiles to a swap of bytes and some three instructions more a halfword.
pub fn pair(high: u8, low: u8) -> u16
    ensures { result ≡ high * 256 + low }
{
    u16::from(high) * 256 + u16::from(low)
}

// The number that two halfwords make, the higher one first.
pub fn join(high: u16, low: u16) -> u32
    ensures { result ≡ high * 65536 + low }
{
    u32::from(high) * 65536 + u32::from(low)
}

// Kept: the test that `byte_behind(s, i, 1)` would spare, since its sum would cost the machine two instructions a byte more.
pub fn halfword_at(s: &[u8], i: usize) -> u16
    ensures { result ≡ halfword_at s.now i }
{
    if s.len() <= i {
        return 0;
    }
    pair(byte_at(s, i), byte_at(s, i + 1))
}

pub fn word_at(s: &[u8], i: usize) -> u32
    ensures { result ≡ word_at s.now i }
{
    if s.len() <= i {
        return 0;
    }
    join(halfword_at(s, i), halfword_at(s, i + 2))
}

// The byte, the halfword and the word `k` places behind a place. Where their sum is past every place, so is the last place.
pub fn byte_behind(s: &[u8], at: usize, k: usize) -> u8
    ensures { result ≡ byte_at s.now (at + k) }
{
    byte_at(s, at.saturating_add(k))
}

pub fn halfword_behind(s: &[u8], at: usize, k: usize) -> u16
    ensures { result ≡ halfword_at s.now (at + k) }
{
    halfword_at(s, at.saturating_add(k))
}

pub fn word_behind(s: &[u8], at: usize, k: usize) -> u32
    ensures { result ≡ word_at s.now (at + k) }
{
    word_at(s, at.saturating_add(k))
}

// At most `n` elements from `at` on: those that there are.
pub fn part<T>(s: &[T], at: usize, n: usize) -> &[T]
    ensures { result.now ≡ take n (drop at s.now) }
{
    let rest = &s[at.min(s.len())..];
    &rest[..n.min(rest.len())]
}

// The byte or the word at a place set; nothing past the end.
// Kept: two functions, since their edits store the numbers 0 and 1, which one over any type of element could not.
pub fn set_byte(s: &mut [u8], i: usize, b: u8)
    ensures { s.new ≡ set s.old i b }
{
    if i < s.len() {
        s[i] = b;
    }
}

pub fn set_word(s: &mut [u32], i: usize, w: u32)
    ensures { s.new ≡ set s.old i w }
{
    if i < s.len() {
        s[i] = w;
    }
}
