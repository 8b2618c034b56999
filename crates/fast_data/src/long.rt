// Serves long forms. A chain of matches on the code, each with its codes, and nothing between them: LLVM makes one jump table
// of all.
ghost use Rattle.std.specs.Prelude.{◌≡◌, true, ◌+◌, ◌≤◌, ◌<◌, length};
ghost use Rattle.words.specs.Bytes.{byte_at};
ghost use Rattle.registers.specs.Program.{program};
ghost use Rattle.state.specs.Fits.{bounded};
ghost use Rattle.fast.specs.Fast.{spot, state_at, Did};

use fast::leaf;
use registers::{Attributes, Registers};

// Serves LOAD_C.w, code 84: a word is behind it.
fn word_step(
    code: &[u8],
    attributes: Attributes,
    q: Registers,
    memory: &[u32],
    stack: &mut [u32],
    pc: &mut usize,
    height: &mut usize,
) -> bool
    requires pc_in_bounds { pc.old + 1 < length code.now }
    requires pc_value { byte_at code.now pc.old ≡ 0x84 }
    requires stack_value { bounded attributes (state_at q (spot pc.old height.old memory.now stack.old)) ≡ true }
    ensures { Did result (program code.now attributes) q
        (spot pc.old height.old memory.now stack.old)
        (spot pc.new height.new memory.now stack.new) }
{
    let here = *pc;
    if code.len() <= here + 5 {
        return false;
    }
    let k = here + 1;
    let high = words::pair(code[k], code[k + 1]);
    let j = k + 2;
    let low = words::pair(code[j], code[j + 1]);
    leaf::push(stack, pc, height, here + 5, words::join(high, low))
}

// Serves loads with a byte behind them.
fn byte_load(
    code: &[u8],
    attributes: Attributes,
    q: Registers,
    memory: &[u32],
    stack: &mut [u32],
    pc: &mut usize,
    height: &mut usize,
    b: u8,
) -> bool
    requires pc_in_bounds { pc.old + 1 < length code.now }
    requires b_value { b ≡ byte_at code.now pc.old }
    requires stack_value { bounded attributes (state_at q (spot pc.old height.old memory.now stack.old)) ≡ true }
    ensures { Did result (program code.now attributes) q
        (spot pc.old height.old memory.now stack.old)
        (spot pc.new height.new memory.now stack.new) }
{
    let here = *pc;
    if code.len() <= here + 2 {
        return false;
    }
    let x = words::byte_at(code, here + 1);
    let n = x as usize;
    let next = here + 2;
    match b {
        0x80 => leaf::load(
            memory,
            stack,
            pc,
            height,
            next,
            q.mp as usize,
            (attributes.constants as usize) + n,
        ),
        0x82 => leaf::push(stack, pc, height, next, operand::extend_byte(x)),
        0x85 => leaf::load(
            memory,
            stack,
            pc,
            height,
            next,
            q.mp as usize,
            (q.fp as usize) + n,
        ),
        0x86 => leaf::load(
            memory,
            stack,
            pc,
            height,
            next,
            q.mp as usize,
            (q.gp as usize) + n,
        ),
        0x87 => leaf::load_popped(memory, stack, pc, height, next, q.mp as usize, n),
        _ => false,
    }
}

// Serves addresses with a byte behind them.
fn byte_address(
    code: &[u8],
    attributes: Attributes,
    q: Registers,
    memory: &[u32],
    stack: &mut [u32],
    pc: &mut usize,
    height: &mut usize,
    b: u8,
) -> bool
    requires pc_in_bounds { pc.old + 1 < length code.now }
    requires b_value { b ≡ byte_at code.now pc.old }
    requires stack_value { bounded attributes (state_at q (spot pc.old height.old memory.now stack.old)) ≡ true }
    ensures { Did result (program code.now attributes) q
        (spot pc.old height.old memory.now stack.old)
        (spot pc.new height.new memory.now stack.new) }
{
    let here = *pc;
    if code.len() <= here + 2 {
        return false;
    }
    let n = words::byte_at(code, here + 1) as usize;
    let next = here + 2;
    match b {
        0x8D => leaf::push(stack, pc, height, next, ((q.fp as usize) + n) as u32),
        0x8E => leaf::push(stack, pc, height, next, ((q.gp as usize) + n) as u32),
        0x8F => leaf::address_popped(stack, pc, height, next, n),
        0x92 => leaf::push(
            stack,
            pc,
            height,
            next,
            ((attributes.constants as usize) + n) as u32,
        ),
        _ => false,
    }
}

// Serves stores, and POP, with a byte behind them.
fn byte_store(
    code: &[u8],
    attributes: Attributes,
    q: Registers,
    memory: &mut [u32],
    stack: &[u32],
    pc: &mut usize,
    height: &mut usize,
    b: u8,
) -> bool
    requires pc_in_bounds { pc.old + 1 < length code.now }
    requires b_value { b ≡ byte_at code.now pc.old }
    requires stack_value { bounded attributes (state_at q (spot pc.old height.old memory.old stack.now)) ≡ true }
    ensures { Did result (program code.now attributes) q
        (spot pc.old height.old memory.old stack.now)
        (spot pc.new height.new memory.new stack.now) }
{
    let here = *pc;
    if code.len() <= here + 2 {
        return false;
    }
    let n = words::byte_at(code, here + 1) as usize;
    let next = here + 2;
    match b {
        0x94 => leaf::store(
            attributes,
            memory,
            stack,
            pc,
            height,
            next,
            q.fp as usize,
            q.mp as usize,
            (q.fp as usize) + n,
        ),
        0x95 => leaf::store(
            attributes,
            memory,
            stack,
            pc,
            height,
            next,
            q.fp as usize,
            q.mp as usize,
            (q.gp as usize) + n,
        ),
        0x96 => leaf::store_popped(attributes, q, memory, stack, pc, height, next, n),
        0x9E => leaf::drop(pc, height, next, n),
        _ => false,
    }
}

// Serves loads and addresses with a halfword behind them.
fn half_load(
    code: &[u8],
    attributes: Attributes,
    q: Registers,
    memory: &[u32],
    stack: &mut [u32],
    pc: &mut usize,
    height: &mut usize,
    b: u8,
) -> bool
    requires pc_in_bounds { pc.old + 1 < length code.now }
    requires b_value { b ≡ byte_at code.now pc.old }
    requires stack_value { bounded attributes (state_at q (spot pc.old height.old memory.now stack.old)) ≡ true }
    ensures { Did result (program code.now attributes) q
        (spot pc.old height.old memory.now stack.old)
        (spot pc.new height.new memory.now stack.new) }
{
    let here = *pc;
    if code.len() <= here + 3 {
        return false;
    }
    let k = here + 1;
    let x = words::pair(code[k], code[k + 1]);
    let n = x as usize;
    let next = here + 3;
    match b {
        0x81 => leaf::load(
            memory,
            stack,
            pc,
            height,
            next,
            q.mp as usize,
            (attributes.constants as usize) + n,
        ),
        0x83 => leaf::push(stack, pc, height, next, operand::extend_halfword(x)),
        0x88 => leaf::load_popped(memory, stack, pc, height, next, q.mp as usize, n),
        0x90 => leaf::address_popped(stack, pc, height, next, n),
        0x93 => leaf::push(
            stack,
            pc,
            height,
            next,
            ((attributes.constants as usize) + n) as u32,
        ),
        _ => false,
    }
}

// Serves STOR_F.h, code 97.
fn half_store(
    code: &[u8],
    attributes: Attributes,
    q: Registers,
    memory: &mut [u32],
    stack: &[u32],
    pc: &mut usize,
    height: &mut usize,
) -> bool
    requires pc_in_bounds { pc.old + 1 < length code.now }
    requires pc_value { byte_at code.now pc.old ≡ 0x97 }
    requires stack_value { bounded attributes (state_at q (spot pc.old height.old memory.old stack.now)) ≡ true }
    ensures { Did result (program code.now attributes) q
        (spot pc.old height.old memory.old stack.now)
        (spot pc.new height.new memory.new stack.now) }
{
    let here = *pc;
    if code.len() <= here + 3 {
        return false;
    }
    let k = here + 1;
    let n = words::pair(code[k], code[k + 1]) as usize;
    let next = here + 3;
    leaf::store_popped(attributes, q, memory, stack, pc, height, next, n)
}

// Serves SWAP, code 9F.
fn swap_step(
    code: &[u8],
    attributes: Attributes,
    q: Registers,
    memory: &[u32],
    stack: &mut [u32],
    pc: &mut usize,
    height: &mut usize,
) -> bool
    requires pc_in_bounds { pc.old + 1 < length code.now }
    requires pc_value { byte_at code.now pc.old ≡ 0x9F }
    requires stack_value { bounded attributes (state_at q (spot pc.old height.old memory.now stack.old)) ≡ true }
    ensures { Did result (program code.now attributes) q
        (spot pc.old height.old memory.now stack.old)
        (spot pc.new height.new memory.now stack.new) }
{
    let next = *pc + 1;
    leaf::swap(stack, pc, height, next)
}

// Serves POP, SWAP and DOUBLE, and goes on to the jumps and the operations.
fn stack_step(
    code: &[u8],
    attributes: Attributes,
    q: Registers,
    memory: &mut [u32],
    stack: &mut [u32],
    pc: &mut usize,
    height: &mut usize,
    b: u8,
) -> bool
    requires code_len_bound { length code.now ≤ 65535 }
    requires pc_in_bounds { pc.old + 1 < length code.now }
    requires b_value { b ≡ byte_at code.now pc.old }
    requires stack_value { bounded attributes (state_at q (spot pc.old height.old memory.old stack.old)) ≡ true }
    ensures { Did result (program code.now attributes) q
        (spot pc.old height.old memory.old stack.old)
        (spot pc.new height.new memory.new stack.new) }
{
    match b {
        0x9E => byte_store(code, attributes, q, memory, stack, pc, height, 0x9E),
        0x9F => swap_step(code, attributes, q, memory, stack, pc, height),
        0xF5 => fast_double::double_step(code, attributes, q, memory, stack, pc, height),
        _ => fast_flow::flow_step(code, attributes, q, memory, stack, pc, height, b),
    }
}

// Serves STOR_L, _G and _F, 94 to 97, and what stack_step has.
fn store_step(
    code: &[u8],
    attributes: Attributes,
    q: Registers,
    memory: &mut [u32],
    stack: &mut [u32],
    pc: &mut usize,
    height: &mut usize,
    b: u8,
) -> bool
    requires code_len_bound { length code.now ≤ 65535 }
    requires pc_in_bounds { pc.old + 1 < length code.now }
    requires b_value { b ≡ byte_at code.now pc.old }
    requires stack_value { bounded attributes (state_at q (spot pc.old height.old memory.old stack.old)) ≡ true }
    ensures { Did result (program code.now attributes) q
        (spot pc.old height.old memory.old stack.old)
        (spot pc.new height.new memory.new stack.new) }
{
    match b {
        0x94 => byte_store(code, attributes, q, memory, stack, pc, height, 0x94),
        0x95 => byte_store(code, attributes, q, memory, stack, pc, height, 0x95),
        0x96 => byte_store(code, attributes, q, memory, stack, pc, height, 0x96),
        0x97 => half_store(code, attributes, q, memory, stack, pc, height),
        _ => stack_step(code, attributes, q, memory, stack, pc, height, b),
    }
}

// Serves LOAD_A, 8D to 90, 92 and 93, and what store_step has.
fn address_step(
    code: &[u8],
    attributes: Attributes,
    q: Registers,
    memory: &mut [u32],
    stack: &mut [u32],
    pc: &mut usize,
    height: &mut usize,
    b: u8,
) -> bool
    requires code_len_bound { length code.now ≤ 65535 }
    requires pc_in_bounds { pc.old + 1 < length code.now }
    requires b_value { b ≡ byte_at code.now pc.old }
    requires stack_value { bounded attributes (state_at q (spot pc.old height.old memory.old stack.old)) ≡ true }
    ensures { Did result (program code.now attributes) q
        (spot pc.old height.old memory.old stack.old)
        (spot pc.new height.new memory.new stack.new) }
{
    match b {
        0x8D => byte_address(code, attributes, q, memory, stack, pc, height, 0x8D),
        0x8E => byte_address(code, attributes, q, memory, stack, pc, height, 0x8E),
        0x8F => byte_address(code, attributes, q, memory, stack, pc, height, 0x8F),
        0x90 => half_load(code, attributes, q, memory, stack, pc, height, 0x90),
        0x92 => byte_address(code, attributes, q, memory, stack, pc, height, 0x92),
        0x93 => half_load(code, attributes, q, memory, stack, pc, height, 0x93),
        _ => store_step(code, attributes, q, memory, stack, pc, height, b),
    }
}

// Serves loads, 80 to 88, and what address_step has. The code is a literal in each arm, so that its part makes no second jump.
pub fn long_step(
    code: &[u8],
    attributes: Attributes,
    q: Registers,
    memory: &mut [u32],
    stack: &mut [u32],
    pc: &mut usize,
    height: &mut usize,
    b: u8,
) -> bool
    requires code_len_bound { length code.now ≤ 65535 }
    requires pc_in_bounds { pc.old + 1 < length code.now }
    requires b_value { b ≡ byte_at code.now pc.old }
    requires stack_value { bounded attributes (state_at q (spot pc.old height.old memory.old stack.old)) ≡ true }
    ensures { Did result (program code.now attributes) q
        (spot pc.old height.old memory.old stack.old)
        (spot pc.new height.new memory.new stack.new) }
{
    match b {
        0x80 => byte_load(code, attributes, q, memory, stack, pc, height, 0x80),
        0x81 => half_load(code, attributes, q, memory, stack, pc, height, 0x81),
        0x82 => byte_load(code, attributes, q, memory, stack, pc, height, 0x82),
        0x83 => half_load(code, attributes, q, memory, stack, pc, height, 0x83),
        0x84 => word_step(code, attributes, q, memory, stack, pc, height),
        0x85 => byte_load(code, attributes, q, memory, stack, pc, height, 0x85),
        0x86 => byte_load(code, attributes, q, memory, stack, pc, height, 0x86),
        0x87 => byte_load(code, attributes, q, memory, stack, pc, height, 0x87),
        0x88 => half_load(code, attributes, q, memory, stack, pc, height, 0x88),
        _ => address_step(code, attributes, q, memory, stack, pc, height, b),
    }
}
