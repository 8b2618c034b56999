// Prints the sheet of the 256 codes, from the table that lengths are read from: code, mnemonic, length in bytes, marks.
#![tactic(auto)]

use opcode::DecodeError;
use opcode::format::FormatSheet;
use opcode::instruction::Instruction;
use std::io;

mod names;

fn write(rt: &impl Print, text: &[u8]) -> io::Result<()> {
    rt.write_all(text)
}

fn write_number(rt: &impl Print, n: usize) -> io::Result<()> {
    rt.print(n)
}

// How an operand is given: in the code's last digit, or in one, two or four bytes.
fn write_size(rt: &impl Print, code: u8, length: usize) -> io::Result<()> {
    match length {
        1 => {
            write(rt, b".")?;
            write_number(rt, (code % 16) as usize)
        }
        2 => write(rt, b".b"),
        3 => write(rt, b".h"),
        _ => write(rt, b".w"),
    }
}

fn write_mnemonic(rt: &impl Print, code: u8, i: Instruction, length: usize) -> io::Result<()> {
    let number = mnemonic::parts_of(i).number;
    if let Some(name) = names::NAMES.get(number as usize) {
        write(rt, name.as_bytes())?;
    }
    if number < names::SIZED {
        write_size(rt, code, length)?;
    }
    Ok(())
}

// The fixed bytes, and those that each entry of a switch's table adds.
fn write_length(rt: &impl Print, format: u16) -> io::Result<()> {
    write(rt, b" ")?;
    write_number(rt, (format % 16) as usize)?;
    let each = format % 0x8000 / 32;
    if 0 < each {
        write(rt, b"+")?;
        write_number(rt, each as usize)?;
        write(rt, b"n")?;
    }
    Ok(())
}

// A switch, and the modes that a code is served in.
fn write_marks(rt: &impl Print, format: u16) -> io::Result<()> {
    if 32 <= format {
        write(rt, b" switch")?;
    }
    write(rt, b" normal")?;
    if format / 16 % 2 == 1 {
        write(rt, b" double")?;
    }
    Ok(())
}

// The mnemonic is that of the instruction which the code and operands of zeros make.
fn write_served(
    rt: &impl Print,
    formats: FormatSheet<'_>,
    code: u8,
    format: u16,
) -> io::Result<()> {
    let bytes = [code, 0, 0, 0, 0, 0, 0, 0, 0, 0];
    match opcode::decode(formats, &bytes, 10, 0) {
        Ok((i, length)) => {
            write(rt, b" ")?;
            write_mnemonic(rt, code, i, length)?;
            write_length(rt, format)?;
            write_marks(rt, format)
        }
        Err(DecodeError::Unserved) => write(rt, b" -"),
        Err(DecodeError::Past) => write(rt, b" past"),
    }
}

fn write_row(rt: &impl Print, formats: FormatSheet<'_>, code: u8) -> io::Result<()> {
    let format = formats.format_of(code);
    if format == 0 {
        return write(rt, b" - unserved");
    }
    if 0x8000 <= format {
        write(rt, b" DOUBLE")?;
        write_length(rt, format)?;
        return write(rt, b" prefix");
    }
    write_served(rt, formats, code, format)
}

fn write_code(rt: &impl Print, code: u8) -> io::Result<()> {
    let digits = b"0123456789ABCDEF";
    let first = words::byte_at(digits, (code / 16) as usize);
    let last = words::byte_at(digits, (code % 16) as usize);
    write(rt, &[first, last])
}

fn main(rt: HostRuntime) -> io::Result<()> {
    let entries = opcode::format::formats();
    let formats = FormatSheet { entries: &entries };
    for code in 0..=255u8 {
        write_code(&rt, code)?;
        write_row(&rt, formats, code)?;
        write(&rt, b"\n")?;
    }
    Ok(())
}
