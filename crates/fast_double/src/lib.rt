// Completes loads and stores in two words: the codes behind DOUBLE.
#![tactic(auto)]

ghost use Rattle.std.specs.Prelude.{◌≡◌, true, ◌+◌, ◌<◌, length};
ghost use Rattle.words.specs.Bytes.{byte_at};
ghost use Rattle.registers.specs.Program.{program};
ghost use Rattle.state.specs.Fits.{bounded};
ghost use Rattle.fast.specs.Fast.{spot, state_at, Did};

use fast::leaf;
use registers::{Attributes, Registers};

// Serves codes 10 to 6F behind DOUBLE.
fn double_short(
    code: &[u8],
    attributes: Attributes,
    q: Registers,
    memory: &mut [u32],
    stack: &mut [u32],
    pc: &mut usize,
    height: &mut usize,
    b: u8,
) -> bool
    requires pc_in_bounds { pc.old + 1 + 1 < length code.now }
    requires pc_value { byte_at code.now pc.old ≡ 0xF5 }
    requires b_value { b ≡ byte_at code.now (pc.old + 1) }
    requires b_bound { b < 0x70 }
    requires stack_value { bounded attributes (state_at q (spot pc.old height.old memory.old stack.old)) ≡ true }
    ensures { Did result (program code.now attributes) q
        (spot pc.old height.old memory.old stack.old)
        (spot pc.new height.new memory.new stack.new) }
{
    let at = *pc + 1;
    let next = at + 1;
    let n = (b % 16) as usize;
    match b / 16 {
        1 => leaf::load_two(
            memory,
            stack,
            pc,
            height,
            next,
            q.mp as usize,
            (q.fp as usize) + n,
        ),
        2 => leaf::load_two(
            memory,
            stack,
            pc,
            height,
            next,
            q.mp as usize,
            (q.gp as usize) + n,
        ),
        3 => leaf::load_two_popped(memory, stack, pc, height, next, q.mp as usize, n),
        4 => leaf::store_two(
            attributes,
            memory,
            stack,
            pc,
            height,
            next,
            q.fp as usize,
            q.mp as usize,
            (q.fp as usize) + n,
        ),
        5 => leaf::store_two(
            attributes,
            memory,
            stack,
            pc,
            height,
            next,
            q.fp as usize,
            q.mp as usize,
            (q.gp as usize) + n,
        ),
        6 => leaf::store_two_popped(attributes, q, memory, stack, pc, height, next, n),
        _ => false,
    }
}

// Serves codes with a halfword behind them.
fn double_half(
    code: &[u8],
    attributes: Attributes,
    q: Registers,
    memory: &mut [u32],
    stack: &mut [u32],
    pc: &mut usize,
    height: &mut usize,
    b: u8,
) -> bool
    requires pc_in_bounds { pc.old + 1 + 2 < length code.now }
    requires pc_value { byte_at code.now pc.old ≡ 0xF5 }
    requires b_value { b ≡ byte_at code.now (pc.old + 1) }
    requires stack_value { bounded attributes (state_at q (spot pc.old height.old memory.old stack.old)) ≡ true }
    ensures { Did result (program code.now attributes) q
        (spot pc.old height.old memory.old stack.old)
        (spot pc.new height.new memory.new stack.new) }
{
    let at = *pc + 1;
    if code.len() <= at + 3 {
        return false;
    }
    let k = at + 1;
    let n = words::pair(code[k], code[k + 1]) as usize;
    let next = at + 3;
    match b {
        0x81 => leaf::load_two(
            memory,
            stack,
            pc,
            height,
            next,
            q.mp as usize,
            (attributes.constants as usize) + n,
        ),
        0x88 => leaf::load_two_popped(memory, stack, pc, height, next, q.mp as usize, n),
        0x97 => leaf::store_two_popped(attributes, q, memory, stack, pc, height, next, n),
        _ => false,
    }
}

// Serves codes with a byte behind them, and what double_half has.
fn double_long(
    code: &[u8],
    attributes: Attributes,
    q: Registers,
    memory: &mut [u32],
    stack: &mut [u32],
    pc: &mut usize,
    height: &mut usize,
    b: u8,
) -> bool
    requires pc_in_bounds { pc.old + 1 + 1 < length code.now }
    requires pc_value { byte_at code.now pc.old ≡ 0xF5 }
    requires b_value { b ≡ byte_at code.now (pc.old + 1) }
    requires stack_value { bounded attributes (state_at q (spot pc.old height.old memory.old stack.old)) ≡ true }
    ensures { Did result (program code.now attributes) q
        (spot pc.old height.old memory.old stack.old)
        (spot pc.new height.new memory.new stack.new) }
{
    let at = *pc + 1;
    if code.len() <= at + 2 {
        return false;
    }
    let n = words::byte_at(code, at + 1) as usize;
    let next = at + 2;
    match b {
        0x80 => leaf::load_two(
            memory,
            stack,
            pc,
            height,
            next,
            q.mp as usize,
            (attributes.constants as usize) + n,
        ),
        0x85 => leaf::load_two(
            memory,
            stack,
            pc,
            height,
            next,
            q.mp as usize,
            (q.fp as usize) + n,
        ),
        0x86 => leaf::load_two(
            memory,
            stack,
            pc,
            height,
            next,
            q.mp as usize,
            (q.gp as usize) + n,
        ),
        0x87 => leaf::load_two_popped(memory, stack, pc, height, next, q.mp as usize, n),
        0x94 => leaf::store_two(
            attributes,
            memory,
            stack,
            pc,
            height,
            next,
            q.fp as usize,
            q.mp as usize,
            (q.fp as usize) + n,
        ),
        0x95 => leaf::store_two(
            attributes,
            memory,
            stack,
            pc,
            height,
            next,
            q.fp as usize,
            q.mp as usize,
            (q.gp as usize) + n,
        ),
        0x96 => leaf::store_two_popped(attributes, q, memory, stack, pc, height, next, n),
        _ => double_half(code, attributes, q, memory, stack, pc, height, b),
    }
}

// Serves DOUBLE, code F5: a load or store in two words.
pub fn double_step(
    code: &[u8],
    attributes: Attributes,
    q: Registers,
    memory: &mut [u32],
    stack: &mut [u32],
    pc: &mut usize,
    height: &mut usize,
) -> bool
    requires pc_in_bounds { pc.old + 1 < length code.now }
    requires pc_value { byte_at code.now pc.old ≡ 0xF5 }
    requires stack_value { bounded attributes (state_at q (spot pc.old height.old memory.old stack.old)) ≡ true }
    ensures { Did result (program code.now attributes) q
        (spot pc.old height.old memory.old stack.old)
        (spot pc.new height.new memory.new stack.new) }
{
    let at = *pc + 1;
    if code.len() <= at + 1 {
        return false;
    }
    let b = code[at];
    if b < 0x70 {
        return double_short(code, attributes, q, memory, stack, pc, height, b);
    }
    double_long(code, attributes, q, memory, stack, pc, height, b)
}
