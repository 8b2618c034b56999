// The operands behind a code byte at `at`, each as a word.
#![tactic(auto)]

ghost use Rattle.std.specs.Prelude.{◌≡◌, ◌+◌};
ghost use Rattle.std.specs.Int.{w8, w16};
ghost use Rattle.words.specs.Bytes.{byte_at, halfword_at, word_at};
ghost use Rattle.operand.specs.Operand.{extended};
ghost use Rattle.operand.specs.Distance.{place_at};

// The word that holds a signed byte.
pub fn extend_byte(b: u8) -> u32
    ensures { result ≡ extended w8 b }
{
    i32::from(b.cast_signed()).cast_unsigned()
}

// The word that holds a signed halfword.
pub fn extend_halfword(h: u16) -> u32
    ensures { result ≡ extended w16 h }
{
    i32::from(h.cast_signed()).cast_unsigned()
}

pub fn unsigned_byte(code: &[u8], at: usize) -> u32
    ensures { result ≡ byte_at code.now (at + 1) }
{
    u32::from(words::byte_behind(code, at, 1))
}

// The second of two bytes.
pub fn second_byte(code: &[u8], at: usize) -> u32
    ensures { result ≡ byte_at code.now (at + 2) }
{
    u32::from(words::byte_behind(code, at, 2))
}

pub fn unsigned_halfword(code: &[u8], at: usize) -> u32
    ensures { result ≡ halfword_at code.now (at + 1) }
{
    u32::from(words::halfword_behind(code, at, 1))
}

pub fn signed_byte(code: &[u8], at: usize) -> u32
    ensures { result ≡ extended w8 (byte_at code.now (at + 1)) }
{
    extend_byte(words::byte_behind(code, at, 1))
}

pub fn signed_halfword(code: &[u8], at: usize) -> u32
    ensures { result ≡ extended w16 (halfword_at code.now (at + 1)) }
{
    extend_halfword(words::halfword_behind(code, at, 1))
}

pub fn word(code: &[u8], at: usize) -> u32
    ensures { result ≡ word_at code.now (at + 1) }
{
    words::word_behind(code, at, 1)
}

// The place at a distance, modulo 2^32.
pub fn place_at(at: u32, distance: u32) -> u32
    ensures { result ≡ place_at at distance }
{
    at.wrapping_add(distance)
}
