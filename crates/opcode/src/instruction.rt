// The served instructions, grouped so that what differs only in a length or in the place of an operand is one case.

// 5.2.1: the modes that are served.
#[derive(Clone, Copy)]
pub enum Mode {
    Normal,
    Double,
}

// What an address is counted from: FP, GP, the constants, an address that is popped, or the globals of a library.
#[derive(Clone, Copy)]
pub enum Base {
    Local,
    Global,
    Constant,
    Popped,
    // the globals of a library
    External(u32),
}

#[derive(Clone, Copy)]
pub enum Arithmetic {
    Add,
    Subtract,
    Multiply,
    Divide,
    Modulus,
}

#[derive(Clone, Copy)]
pub enum Order {
    Less,
    Greater,
    LessEqual,
    GreaterEqual,
}

// ADD_S, SUB_S, MUL_S; LEQ_S, GEQ_S, TEST.
#[derive(Clone, Copy)]
pub enum SetOperation {
    Union,
    Difference,
    Intersection,
    Subset,
    Superset,
    Member,
}

// What takes words and gives one word: 5.2.4.7 to 5.2.4.9.
#[derive(Clone, Copy)]
pub enum Operation {
    Signed(Arithmetic),
    Unsigned(Arithmetic),
    Negate,
    Equal,
    NotEqual,
    CompareSigned(Order),
    CompareUnsigned(Order),
    Set(SetOperation),
    Not,
}

// Operands are words: a signed one is the word that holds it.
#[derive(Clone, Copy)]
pub enum Instruction {
    LoadConstant(u32),
    Load(Base, Mode, u32),
    LoadAddress(Base, u32),
    Store(Base, Mode, u32),
    Pop(u32),
    Swap,
    Nop,
    Operate(Operation),
    Alloc,
    Free,
    Jump(u32),
    JumpC(u32),
    JumpT(u32),
    JumpF(u32),
    Iter(u32),
    Next,
    Switch(u32),
    SwitchX(u32),
    Leave,
    Call(u32),
    CallExternal(u32, u32),
    Enter(u32, u32),
    Rtn,
}
