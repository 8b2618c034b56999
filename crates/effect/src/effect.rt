// What an instruction does, before any of it is done.

use numbers::Trap;
use registers::Registers;

// The words that it pushes, the first one lower.
#[derive(Clone, Copy)]
pub enum Push {
    NoPush,
    PushOne(u32),
    PushTwo(u32, u32),
}

// The words that it writes to memory, from an address on. WritePopped writes the stack words that go.
#[derive(Clone, Copy)]
pub enum Write {
    NoWrite,
    WriteOne(u32, u32),
    WriteTwo(u32, u32, u32),
    WriteThree(u32, u32, u32, u32),
    WritePopped(u32),
}

// A trap; the finish; or: so many stack words go, these are pushed, these are written, and the registers are then so (but for the
// height, which the words give).
#[derive(Clone, Copy)]
pub enum Effect {
    Trap(Trap),
    Finish,
    Go(u32, Push, Write, Registers),
}
