// The instruction that a code byte and its operands make. A code that is not served makes a Nop, which decoding never hands on.
ghost use Rattle.std.specs.Prelude.{◌≡◌, ◌<◌, ◌/◌};
ghost use Rattle.words.specs.Bytes.{byte_at};
ghost use Rattle.opcode.specs.Table.{find, short_table, data_table, operation_table, control_table};
ghost use Rattle.opcode.specs.Decode.{made, instruction_at};

use crate::instruction::{Arithmetic, Base, Instruction, Mode, Operation, Order, SetOperation};

// 5.2.4.1: the operand is the last digit of the code.
fn short_form(mode: Mode, code: &[u8], at: usize) -> Instruction
    requires { byte_at code.now at < 128 }
    ensures { result ≡ made (find short_table (byte_at code.now at / 16)) mode code.now at }
{
    let opcode = words::byte_at(code, at);
    let digit = (opcode % 16) as u32;
    let family = opcode / 16;
    match family {
        0 => Instruction::LoadConstant(digit),
        1 => Instruction::Load(Base::Local, mode, digit),
        2 => Instruction::Load(Base::Global, mode, digit),
        3 => Instruction::Load(Base::Popped, mode, digit),
        4 => Instruction::Store(Base::Local, mode, digit),
        5 => Instruction::Store(Base::Global, mode, digit),
        6 => Instruction::Store(Base::Popped, mode, digit),
        _ => Instruction::Call(digit),
    }
}

// 5.2.4.2 to 5.2.4.6.
fn data_form(mode: Mode, code: &[u8], at: usize) -> Instruction
    ensures { result ≡ made (find data_table (byte_at code.now at)) mode code.now at }
{
    let opcode = words::byte_at(code, at);
    match opcode {
        0x80 => Instruction::Load(Base::Constant, mode, operand::unsigned_byte(code, at)),
        0x81 => Instruction::Load(Base::Constant, mode, operand::unsigned_halfword(code, at)),
        0x82 => Instruction::LoadConstant(operand::signed_byte(code, at)),
        0x83 => Instruction::LoadConstant(operand::signed_halfword(code, at)),
        0x84 => Instruction::LoadConstant(operand::word(code, at)),
        0x85 => Instruction::Load(Base::Local, mode, operand::unsigned_byte(code, at)),
        0x86 => Instruction::Load(Base::Global, mode, operand::unsigned_byte(code, at)),
        0x87 => Instruction::Load(Base::Popped, mode, operand::unsigned_byte(code, at)),
        0x88 => Instruction::Load(Base::Popped, mode, operand::unsigned_halfword(code, at)),
        0x89 => Instruction::Load(
            Base::External(operand::unsigned_byte(code, at)),
            mode,
            operand::second_byte(code, at),
        ),
        0x8D => Instruction::LoadAddress(Base::Local, operand::unsigned_byte(code, at)),
        0x8E => Instruction::LoadAddress(Base::Global, operand::unsigned_byte(code, at)),
        0x8F => Instruction::LoadAddress(Base::Popped, operand::unsigned_byte(code, at)),
        0x90 => Instruction::LoadAddress(Base::Popped, operand::unsigned_halfword(code, at)),
        0x91 => Instruction::LoadAddress(
            Base::External(operand::unsigned_byte(code, at)),
            operand::second_byte(code, at),
        ),
        0x92 => Instruction::LoadAddress(Base::Constant, operand::unsigned_byte(code, at)),
        0x93 => Instruction::LoadAddress(Base::Constant, operand::unsigned_halfword(code, at)),
        0x94 => Instruction::Store(Base::Local, mode, operand::unsigned_byte(code, at)),
        0x95 => Instruction::Store(Base::Global, mode, operand::unsigned_byte(code, at)),
        0x96 => Instruction::Store(Base::Popped, mode, operand::unsigned_byte(code, at)),
        0x97 => Instruction::Store(Base::Popped, mode, operand::unsigned_halfword(code, at)),
        0x98 => Instruction::Store(
            Base::External(operand::unsigned_byte(code, at)),
            mode,
            operand::second_byte(code, at),
        ),
        0x9E => Instruction::Pop(operand::unsigned_byte(code, at)),
        0x9F => Instruction::Swap,
        _ => Instruction::Nop,
    }
}

// 5.2.4.7 to 5.2.4.10: no operands.
fn operation_form(mode: Mode, code: &[u8], at: usize) -> Instruction
    ensures { result ≡ made (find operation_table (byte_at code.now at)) mode code.now at }
{
    let opcode = words::byte_at(code, at);
    match opcode {
        0xA0 => Instruction::Operate(Operation::Signed(Arithmetic::Add)),
        0xA1 => Instruction::Operate(Operation::Signed(Arithmetic::Subtract)),
        0xA2 => Instruction::Operate(Operation::Signed(Arithmetic::Multiply)),
        0xA3 => Instruction::Operate(Operation::Signed(Arithmetic::Divide)),
        0xA5 => Instruction::Operate(Operation::Signed(Arithmetic::Modulus)),
        0xA6 => Instruction::Operate(Operation::Negate),
        0xA8 => Instruction::Operate(Operation::Unsigned(Arithmetic::Add)),
        0xA9 => Instruction::Operate(Operation::Unsigned(Arithmetic::Subtract)),
        0xAA => Instruction::Operate(Operation::Unsigned(Arithmetic::Multiply)),
        0xAB => Instruction::Operate(Operation::Unsigned(Arithmetic::Divide)),
        0xAD => Instruction::Operate(Operation::Unsigned(Arithmetic::Modulus)),
        0xB8 => Instruction::Operate(Operation::Set(SetOperation::Union)),
        0xB9 => Instruction::Operate(Operation::Set(SetOperation::Difference)),
        0xBA => Instruction::Operate(Operation::Set(SetOperation::Intersection)),
        0xBE => Instruction::Operate(Operation::Equal),
        0xBF => Instruction::Operate(Operation::NotEqual),
        0xC0 => Instruction::Operate(Operation::CompareSigned(Order::Less)),
        0xC1 => Instruction::Operate(Operation::CompareSigned(Order::Greater)),
        0xC2 => Instruction::Operate(Operation::CompareSigned(Order::LessEqual)),
        0xC3 => Instruction::Operate(Operation::CompareSigned(Order::GreaterEqual)),
        0xC4 => Instruction::Operate(Operation::CompareUnsigned(Order::Less)),
        0xC5 => Instruction::Operate(Operation::CompareUnsigned(Order::Greater)),
        0xC6 => Instruction::Operate(Operation::CompareUnsigned(Order::LessEqual)),
        0xC7 => Instruction::Operate(Operation::CompareUnsigned(Order::GreaterEqual)),
        0xD0 => Instruction::Operate(Operation::Set(SetOperation::Subset)),
        0xD1 => Instruction::Operate(Operation::Set(SetOperation::Superset)),
        0xD2 => Instruction::Operate(Operation::Set(SetOperation::Member)),
        0xD7 => Instruction::Operate(Operation::Not),
        0xD8 => Instruction::Alloc,
        0xD9 => Instruction::Free,
        _ => Instruction::Nop,
    }
}

// 5.2.4.11 to 5.2.4.18.
fn control_form(mode: Mode, code: &[u8], at: usize) -> Instruction
    ensures { result ≡ made (find control_table (byte_at code.now at)) mode code.now at }
{
    let opcode = words::byte_at(code, at);
    match opcode {
        0xDA => Instruction::Jump(operand::signed_byte(code, at)),
        0xDB => Instruction::Jump(operand::signed_halfword(code, at)),
        0xDC => Instruction::JumpC(operand::signed_byte(code, at)),
        0xDD => Instruction::JumpC(operand::signed_halfword(code, at)),
        0xDE => Instruction::JumpT(operand::unsigned_byte(code, at)),
        0xDF => Instruction::JumpF(operand::unsigned_byte(code, at)),
        0xE0 => Instruction::Iter(operand::unsigned_halfword(code, at)),
        0xE1 => Instruction::Next,
        0xE2 => Instruction::Switch(operand::unsigned_halfword(code, at)),
        0xE3 => Instruction::SwitchX(operand::unsigned_halfword(code, at)),
        0xE4 => Instruction::Leave,
        0xE5 => Instruction::Call(operand::unsigned_byte(code, at)),
        0xE6 => Instruction::CallExternal(
            operand::unsigned_byte(code, at),
            operand::second_byte(code, at),
        ),
        0xE8 => Instruction::Enter(
            operand::unsigned_byte(code, at),
            operand::second_byte(code, at),
        ),
        0xE9 => Instruction::Rtn,
        _ => Instruction::Nop,
    }
}

pub fn instruction_at(mode: Mode, code: &[u8], at: usize) -> Instruction
    requires { byte_at code.now at ≡ 0x70 → ⊥ }
    ensures { result ≡ instruction_at mode code.now at }
{
    let opcode = words::byte_at(code, at);
    if opcode < 0x80 {
        return short_form(mode, code, at);
    }
    if opcode < 0xA0 {
        return data_form(mode, code, at);
    }
    if opcode < 0xDA {
        return operation_form(mode, code, at);
    }
    control_form(mode, code, at)
}
