// Completes jumps, loops, switches and unsigned arithmetic, and hands other codes on.
#![tactic(auto)]

ghost use Rattle.std.specs.Prelude.{◌≡◌, true, List, ℕ, ◌+◌, ◌≤◌, ◌<◌, length};
ghost use Rattle.words.specs.Bytes.{byte_at, halfword_at};
ghost use Rattle.operand.specs.Distance.{place_at};
ghost use Rattle.registers.specs.Program.{program};
ghost use Rattle.state.specs.Fits.{bounded};
ghost use Rattle.fast.specs.Fast.{spot, state_at, Became, Did};
ghost use Rattle.fast_flow.specs.Flow.{DoesIn, DoesCode};

use fast_operations::operations;
use opcode::instruction::Arithmetic;
use registers::{Attributes, Registers};

mod jumps;
mod loops;
mod switches;

// Goes to a place, where it is within the code.
fn go(pc: &mut usize, height: &mut usize, size: usize, place: usize, h: usize) -> bool
    ensures { (m s : List ℕ) → Became result (place < size)
        (spot pc.old height.old m s) (spot place h m s)
        (spot pc.new height.new m s) }
{
    if size <= place {
        return false;
    }
    *pc = place;
    *height = h;
    true
}

// Reads the halfword at a place within the code.
fn half(code: &[u8], at: usize) -> u16
    requires { at + 1 < length code.now }
    ensures { result ≡ halfword_at code.now at }
{
    let k = at + 1;
    words::pair(code[at], code[k])
}

// Takes a word as an index.
fn wide(x: u32) -> usize
    ensures { result ≡ x }
{
    x as usize
}

// Finds the place at a distance, modulo 2^32.
fn place_from(at: usize, distance: u32) -> usize
    requires { at < 0x1_0000_0000 }
    ensures { result ≡ place_at at distance }
{
    (at + (distance as usize)) % 0x1_0000_0000
}

// Serves SWITCH, SWITCH_X and LEAVE, and what operation_step has.
fn switch_step(code: &[u8], stack: &mut [u32], pc: &mut usize, height: &mut usize, b: u8) -> bool
    requires code_len_bound { length code.now ≤ 65535 }
    requires pc_in_bounds { pc.old + 1 < length code.now }
    requires height_in_bounds { height.old ≤ length stack.old }
    ensures { (m : List ℕ) → DoesCode result code.now b
        (spot pc.old height.old m stack.old)
        (spot pc.new height.new m stack.new) }
{
    match b {
        0xE2 => switches::switch(code, stack, pc, height),
        0xE3 => switches::switch_x(code, stack, pc, height),
        0xE4 => switches::leave(code, stack, pc, height),
        _ => operations::operation_step(stack, pc, height, b),
    }
}

// Serves jumps, DA to DF, and what switch_step has.
fn jump_step(code: &[u8], stack: &mut [u32], pc: &mut usize, height: &mut usize, b: u8) -> bool
    requires code_len_bound { length code.now ≤ 65535 }
    requires pc_in_bounds { pc.old + 1 < length code.now }
    requires height_in_bounds { height.old ≤ length stack.old }
    ensures { (m : List ℕ) → DoesCode result code.now b
        (spot pc.old height.old m stack.old)
        (spot pc.new height.new m stack.new) }
{
    match b {
        0xDA => jumps::jump_b(code, pc, height),
        0xDB => jumps::jump_h(code, pc, height),
        0xDC => jumps::jump_c_b(code, stack, pc, height),
        0xDD => jumps::jump_c_h(code, stack, pc, height),
        0xDE => jumps::jump_tf(code, stack, pc, height, 1),
        0xDF => jumps::jump_tf(code, stack, pc, height, 0),
        _ => switch_step(code, stack, pc, height, b),
    }
}

// Serves unsigned arithmetic, for which the module's issue counts, and what jump_step has.
fn unsigned_step(
    code: &[u8],
    attributes: Attributes,
    stack: &mut [u32],
    pc: &mut usize,
    height: &mut usize,
    b: u8,
) -> bool
    requires code_len_bound { length code.now ≤ 65535 }
    requires pc_in_bounds { pc.old + 1 < length code.now }
    requires height_in_bounds { height.old ≤ length stack.old }
    ensures { (m : List ℕ) → DoesIn result code.now attributes b
        (spot pc.old height.old m stack.old)
        (spot pc.new height.new m stack.new) }
{
    match b {
        0xA8 => operations::unsigned_two(stack, pc, height, attributes.wraps, Arithmetic::Add),
        0xA9 => operations::unsigned_two(stack, pc, height, attributes.wraps, Arithmetic::Subtract),
        0xAA => operations::unsigned_two(stack, pc, height, attributes.wraps, Arithmetic::Multiply),
        0xAB => operations::unsigned_two(stack, pc, height, attributes.wraps, Arithmetic::Divide),
        0xAD => operations::unsigned_two(stack, pc, height, attributes.wraps, Arithmetic::Modulus),
        _ => jump_step(code, stack, pc, height, b),
    }
}

// Serves ITER and NEXT, and what unsigned_step has. Nothing stands between the matches, so that they make one jump.
pub fn flow_step(
    code: &[u8],
    attributes: Attributes,
    q: Registers,
    memory: &mut [u32],
    stack: &mut [u32],
    pc: &mut usize,
    height: &mut usize,
    b: u8,
) -> bool
    requires code_len_bound { length code.now ≤ 65535 }
    requires pc_in_bounds { pc.old + 1 < length code.now }
    requires b_value { b ≡ byte_at code.now pc.old }
    requires stack_value { bounded attributes (state_at q (spot pc.old height.old memory.old stack.old)) ≡ true }
    ensures { Did result (program code.now attributes) q
        (spot pc.old height.old memory.old stack.old)
        (spot pc.new height.new memory.new stack.new) }
{
    match b {
        0xE0 => loops::iter(code, attributes, q, memory, stack, pc, height),
        0xE1 => loops::next(code, attributes, q, memory, stack, pc, height),
        _ => unsigned_step(code, attributes, stack, pc, height, b),
    }
}
