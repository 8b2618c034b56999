// The operations on words: a word, or the trap that stands in its place.
#![tactic(auto)]

ghost use Rattle.std.specs.Prelude.{◌≡◌};
ghost use Rattle.operate.specs.Value.{signed_word, truth_of};

use numbers::Trap;

pub mod arithmetic;
pub mod compare;
pub mod operation;
pub mod sets;

// The word of a signed number; trap 31 where there is none.
pub fn signed_word(z: i64) -> Result<u32, Trap>
    ensures { result ≡ signed_word z }
{
    if z < -0x8000_0000 {
        return Err(Trap::OutOfRange);
    }
    if 0x7FFF_FFFF < z {
        return Err(Trap::OutOfRange);
    }
    Ok((z as i32).cast_unsigned())
}

pub fn truth(t: bool) -> u32
    ensures { result ≡ truth_of t }
{
    u32::from(t)
}
