// Instruction decoding: what stands at a place of the code, within a limit.
#![tactic(auto)]

ghost use Rattle.std.specs.Prelude.{◌≡◌, ◌<◌};
ghost use Rattle.opcode.specs.Decode.{undecoded_number, undecoded_trap, decode_in, decode_at};
ghost use Rattle.numbers.specs.Number.{number_of};
ghost use Rattle.numbers.specs.TrapNumber.{trap_number};

use crate::format::FormatSheet;
use crate::instruction::{Instruction, Mode};
use numbers::{Refusal, Trap};

mod build;
pub mod format;
pub mod instruction;
pub mod length;

/// Why no instruction stands at a place: an unserved one, or one that runs past the limit.
#[derive(Clone, Copy, Debug, PartialEq, Eq)]
pub enum DecodeError {
    Unserved,
    Past,
}

// The check's numbers, 10 and 11.
impl From<DecodeError> for Refusal {
    ghost from_gives = { λ e refusal. number_of refusal ≡ undecoded_number e };

    fn from(e: DecodeError) -> Refusal {
        match e {
            DecodeError::Unserved => Refusal::Unserved,
            DecodeError::Past => Refusal::Past,
        }
    }
}

// The traps of a step, 20 and 21.
impl From<DecodeError> for Trap {
    ghost from_gives = { λ e trap. trap_number trap ≡ undecoded_trap e };

    fn from(e: DecodeError) -> Trap {
        match e {
            DecodeError::Unserved => Trap::Unserved,
            DecodeError::Past => Trap::Outside,
        }
    }
}

// The instruction whose code byte stands at `at`, in a mode, and the place after it.
fn decode_in(
    formats: FormatSheet<'_>,
    mode: Mode,
    code: &[u8],
    limit: usize,
    at: usize,
) -> Result<(Instruction, usize), DecodeError>
    requires { at < limit }
    ensures { result ≡ decode_in mode code.now limit at }
{
    let length = length::length_in(formats, mode, code, at);
    if length == 0 {
        return Err(DecodeError::Unserved);
    }
    if limit - at < length {
        return Err(DecodeError::Past);
    }
    Ok((build::instruction_at(mode, code, at), at + length))
}

pub fn decode(
    formats: FormatSheet<'_>,
    code: &[u8],
    limit: usize,
    at: usize,
) -> Result<(Instruction, usize), DecodeError>
    ensures { result ≡ decode_at code.now limit at }
{
    if limit <= at {
        return Err(DecodeError::Past);
    }
    if words::byte_at(code, at) != 0xF5 {
        return decode_in(formats, Mode::Normal, code, limit, at);
    }
    if limit <= at + 1 {
        return Err(DecodeError::Past);
    }
    decode_in(formats, Mode::Double, code, limit, at + 1)
}
