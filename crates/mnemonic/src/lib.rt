// What a listing shows of an instruction, as numbers.
#![tactic(auto)]

ghost use Rattle.std.specs.Prelude.{◌≡◌, ◌<◌};
ghost use Rattle.mnemonic.specs.Mnemonic.{operation_number};
ghost use Rattle.mnemonic.specs.Mnemonic.{parts, based, parts_of};

use opcode::instruction::{Base, Instruction, Operation};

// The number of the mnemonic; the mode, 1 where DOUBLE stands before it; the operand and the second one, 0 where there is none.
#[derive(Clone, Copy)]
pub struct Parts {
    pub number: u32,
    pub mode: u32,
    pub operand: u32,
    pub second: u32,
}

fn operation_number(op: Operation) -> u32
    ensures { result ≡ operation_number op }
{
    match op {
        Operation::Signed(op) => 21 + op as u32,
        Operation::Unsigned(op) => 26 + op as u32,
        Operation::Negate => 31,
        Operation::Equal => 32,
        Operation::NotEqual => 33,
        Operation::CompareSigned(order) => 34 + order as u32,
        Operation::CompareUnsigned(order) => 38 + order as u32,
        Operation::Set(op) => 42 + op as u32,
        Operation::Not => 48,
    }
}

fn listed(number: u32, mode: u32, operand: u32, second: u32) -> Parts
    ensures { result ≡ parts number mode operand second }
{
    Parts {
        number,
        mode,
        operand,
        second,
    }
}

// An instruction that has no modes and at most one operand.
fn plain(number: u32, operand: u32) -> Parts
    ensures { result ≡ parts number 0 operand 0 }
{
    listed(number, 0, operand, 0)
}

// A load or a store, or a load of an address.
fn based(first: u32, external: u32, base: Base, mode: u32, operand: u32) -> Parts
    requires { first < 10 }
    ensures { result ≡ based first external base mode operand }
{
    match base {
        Base::Local => listed(first, mode, operand, 0),
        Base::Global => listed(first + 1, mode, operand, 0),
        Base::Constant => listed(first + 2, mode, operand, 0),
        Base::Popped => listed(first + 3, mode, operand, 0),
        Base::External(library) => listed(external, mode, library, operand),
    }
}

#[tactic(auto, unfolding(crate::specs::Mnemonic::parts_of))]
pub fn parts_of(i: Instruction) -> Parts
    ensures { result ≡ parts_of i }
{
    match i {
        Instruction::LoadConstant(n) => plain(0, n),
        Instruction::Load(base, mode, n) => based(1, 58, base, mode as u32, n),
        Instruction::LoadAddress(base, n) => based(5, 59, base, 0, n),
        Instruction::Store(base, mode, n) => based(9, 60, base, mode as u32, n),
        Instruction::Jump(n) => plain(13, n),
        Instruction::JumpC(n) => plain(14, n),
        Instruction::JumpT(n) => plain(15, n),
        Instruction::JumpF(n) => plain(16, n),
        Instruction::Call(n) => plain(17, n),
        Instruction::Pop(n) => plain(18, n),
        Instruction::Swap => plain(19, 0),
        Instruction::Nop => plain(20, 0),
        Instruction::Operate(op) => plain(operation_number(op), 0),
        Instruction::Alloc => plain(49, 0),
        Instruction::Free => plain(50, 0),
        Instruction::Iter(n) => plain(51, n),
        Instruction::Next => plain(52, 0),
        Instruction::Switch(n) => plain(53, n),
        Instruction::SwitchX(n) => plain(54, n),
        Instruction::Leave => plain(55, 0),
        Instruction::Enter(n, k) => listed(56, 0, n, k),
        Instruction::Rtn => plain(57, 0),
        Instruction::CallExternal(library, n) => listed(61, 0, library, n),
    }
}
