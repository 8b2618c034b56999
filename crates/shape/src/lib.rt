// What an instruction finds on the stack, and its shape for the check.
#![tactic(auto)]

ghost use Rattle.std.specs.Prelude.{◌≡◌};
ghost use Rattle.shape.specs.Counts.{popped, words_in, operands};
ghost use Rattle.shape.specs.Shape.{shape_of, finds, needed};

use opcode::instruction::{Base, Instruction, Mode, Operation};

// Whose table stands behind a switch: SWITCH has branches, SWITCH_X has ranges.
#[derive(Clone, Copy)]
pub enum Table {
    Branches,
    Ranges,
}

// How an instruction deals with the stack and where it goes.
#[derive(Clone, Copy)]
pub enum Shape {
    // pops so many words, pushes so many, goes on
    Straight(u32, u32),
    // POP: drops so many slots
    Pop(u32),
    // JUMP
    Jump(u32),
    // JUMP_C
    JumpC(u32),
    // JUMP_T, JUMP_F: the boolean stays where they jump
    JumpTF(u32),
    // ITER
    Iter(u32),
    // NEXT
    Next,
    // SWITCH, SWITCH_X
    Switch(Table, u32),
    // LEAVE
    Leave,
    // CALL
    Call(u32),
    // CALL_E: library and procedure
    CallExternal(u32, u32),
    // ENTER
    Enter(u32),
    // RTN
    Rtn,
}

pub fn popped_words(base: Base) -> u32
    ensures { result ≡ popped base }
{
    match base {
        Base::Popped => 1,
        Base::Local | Base::Global | Base::Constant | Base::External(_) => 0,
    }
}

pub fn words_in(mode: Mode) -> u32
    ensures { result ≡ words_in mode }
{
    match mode {
        Mode::Normal => 1,
        Mode::Double => 2,
    }
}

// The words that an operation takes.
pub fn operand_words(op: Operation) -> u32
    ensures { result ≡ operands op }
{
    match op {
        Operation::Negate | Operation::Not => 1,
        Operation::Signed(_) | Operation::Unsigned(_) | Operation::Set(_) => 2,
        Operation::Equal | Operation::NotEqual => 2,
        Operation::CompareSigned(_) | Operation::CompareUnsigned(_) => 2,
    }
}

#[tactic(auto, unfolding(crate::specs::Shape::shape_of))]
pub fn shape_of(i: Instruction) -> Shape
    ensures { result ≡ shape_of i }
{
    match i {
        Instruction::LoadConstant(_) => Shape::Straight(0, 1),
        Instruction::Load(base, mode, _) => Shape::Straight(popped_words(base), words_in(mode)),
        Instruction::LoadAddress(base, _) => Shape::Straight(popped_words(base), 1),
        Instruction::Store(base, mode, _) => {
            Shape::Straight(popped_words(base) + words_in(mode), 0)
        }
        Instruction::Pop(n) => Shape::Pop(n),
        Instruction::Swap => Shape::Straight(2, 2),
        Instruction::Nop => Shape::Straight(0, 0),
        Instruction::Operate(op) => Shape::Straight(operand_words(op), 1),
        Instruction::Alloc => Shape::Straight(1, 1),
        Instruction::Free => Shape::Straight(1, 0),
        Instruction::Jump(distance) => Shape::Jump(distance),
        Instruction::JumpC(distance) => Shape::JumpC(distance),
        Instruction::JumpT(distance) | Instruction::JumpF(distance) => Shape::JumpTF(distance),
        Instruction::Iter(distance) => Shape::Iter(distance),
        Instruction::Next => Shape::Next,
        Instruction::Switch(n) => Shape::Switch(Table::Branches, n),
        Instruction::SwitchX(n) => Shape::Switch(Table::Ranges, n),
        Instruction::Leave => Shape::Leave,
        Instruction::Call(p) => Shape::Call(p),
        Instruction::CallExternal(l, p) => Shape::CallExternal(l, p),
        Instruction::Enter(parameters, _) => Shape::Enter(parameters),
        Instruction::Rtn => Shape::Rtn,
    }
}

// The number of stack words that an instruction of a shape finds.
pub fn words_found(shape: Shape) -> u32
    ensures { result ≡ finds shape }
{
    match shape {
        Shape::Straight(n, _) | Shape::Pop(n) | Shape::Enter(n) => n,
        Shape::Jump(_) | Shape::Call(_) | Shape::CallExternal(_, _) | Shape::Rtn => 0,
        Shape::JumpC(_) | Shape::JumpTF(_) | Shape::Switch(_, _) | Shape::Leave => 1,
        Shape::Iter(_) => 4,
        Shape::Next => 5,
    }
}

// The number of stack words that an instruction finds.
pub fn needed_words(i: Instruction) -> u32
    ensures { result ≡ needed i }
{
    words_found(shape_of(i))
}
