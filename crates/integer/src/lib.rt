// Words read as signed numbers.
#![tactic(auto)]

ghost use Rattle.std.specs.Prelude.{◌≡◌};
ghost use Rattle.std.specs.Int.Signed.{le_z, lt_z};
ghost use Rattle.std.specs.Int.{w32};
ghost use Rattle.std.proofs.Common.{to_z};

// The signed number that a word holds.
pub fn signed(word: u32) -> i64
    ensures { result ≡ to_z w32 word }
{
    i64::from(word.cast_signed())
}

// x <= y, signed.
pub fn at_most(x: u32, y: u32) -> bool
    ensures { result ≡ le_z (to_z w32 x) (to_z w32 y) }
{
    signed(x) <= signed(y)
}

// x < y, signed.
pub fn below(x: u32, y: u32) -> bool
    ensures { result ≡ lt_z (to_z w32 x) (to_z w32 y) }
{
    signed(x) < signed(y)
}
