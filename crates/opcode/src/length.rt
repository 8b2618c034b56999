// How long an instruction is, by the sheet.
ghost use Rattle.std.specs.Prelude.{◌≡◌};
ghost use Rattle.words.specs.Bytes.{byte_at};
ghost use Rattle.opcode.specs.Sheet.{sheet_of};
ghost use Rattle.opcode.specs.Length.{length_in, length_at};
ghost use Rattle.opcode.specs.declared.instruction.Mode.TheVariants.{Normal};

use crate::format::FormatSheet;
use crate::instruction::Mode;

// The bytes in normal mode, by the entry of the code byte: the fixed ones, and the table of a switch. A prefix is no instruction.
fn normal_length(format: u16, code: &[u8], at: usize) -> usize
    requires { format ≡ sheet_of (byte_at code.now at) }
    ensures { result ≡ length_in Normal code.now at }
{
    let fixed = (format % 16) as usize;
    if format < 32 {
        return fixed;
    }
    if 0x8000 <= format {
        return 0;
    }
    fixed + ((format / 32) as usize) * (operand::unsigned_halfword(code, at) as usize)
}

// The bytes of the instruction whose code byte stands at `at`; 0 where it is not served in the mode.
pub fn length_in(formats: FormatSheet<'_>, mode: Mode, code: &[u8], at: usize) -> usize
    ensures { result ≡ length_in mode code.now at }
{
    let format = formats.format_of(words::byte_at(code, at));
    match mode {
        Mode::Normal => normal_length(format, code, at),
        Mode::Double => {
            if format / 16 % 2 == 0 {
                return 0;
            }
            (format % 16) as usize
        }
    }
}

// The bytes of the instruction at `at`, a prefix counted in; 0 where it is not served.
pub fn length_at(formats: FormatSheet<'_>, code: &[u8], at: usize) -> usize
    ensures { result ≡ length_at code.now at }
{
    let format = formats.format_of(words::byte_at(code, at));
    if format < 0x8000 {
        return normal_length(format, code, at);
    }
    let length = length_in(formats, Mode::Double, code, at + 1);
    if length == 0 {
        return 0;
    }
    1 + length
}
