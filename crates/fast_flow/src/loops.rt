// Serves ITER and NEXT.
ghost use Rattle.std.specs.Prelude.{◌≡◌, true, List, ℕ, ◌+◌, ◌-◌, ◌≤◌, ◌<◌, length, set};
ghost use Rattle.words.specs.Bytes.{byte_at};
ghost use Rattle.registers.specs.Program.{program};
ghost use Rattle.state.specs.Fits.{bounded};
ghost use Rattle.fast.specs.Fast.{spot, state_at, Became, Did};
ghost use Rattle.fast_flow.specs.Flow.{DoesRound};

use fast::leaf;
use opcode::instruction::Arithmetic;
use registers::{Attributes, Registers};

// Stores a word, pushes the place that is next as a label, and goes there.
fn store_and_push(
    memory: &mut [u32],
    stack: &mut [u32],
    pc: &mut usize,
    height: &mut usize,
    next: usize,
    a: usize,
    x: u32,
) -> bool
    requires next_bound { next < 0x1_0000_0000 }
    requires a_in_bounds { a < length memory.old }
    ensures { Became result (height.old < length stack.old)
        (spot pc.old height.old memory.old stack.old)
        (spot next (height.old + 1) (set memory.old a x)
        (set stack.old height.old next))
        (spot pc.new height.new memory.new stack.new) }
{
    let h = *height;
    if stack.len() <= h {
        return false;
    }
    memory[a] = x;
    stack[h] = next as u32;
    *pc = next;
    *height = h + 1;
    true
}

// Stores a word and goes to a place, where it is within the code.
fn store_and_go(
    memory: &mut [u32],
    pc: &mut usize,
    height: &mut usize,
    size: usize,
    place: usize,
    h: usize,
    a: usize,
    x: u32,
) -> bool
    requires { a < length memory.old }
    ensures { (s : List ℕ) → Became result (place < size)
        (spot pc.old height.old memory.old s)
        (spot place h (set memory.old a x) s)
        (spot pc.new height.new memory.new s) }
{
    if size <= place {
        return false;
    }
    memory[a] = x;
    *pc = place;
    *height = h;
    true
}

// Serves ITER: past the loop, or into it.
pub fn iter(
    code: &[u8],
    attributes: Attributes,
    q: Registers,
    memory: &mut [u32],
    stack: &mut [u32],
    pc: &mut usize,
    height: &mut usize,
) -> bool
    requires code_len_bound { length code.now ≤ 65535 }
    requires pc_in_bounds { pc.old + 1 < length code.now }
    requires height_in_bounds { height.old ≤ length stack.old }
    requires mp_in_bounds { q.mp ≤ length memory.old }
    requires stack_value { bounded attributes (state_at q (spot pc.old height.old memory.old stack.old)) ≡ true }
    ensures { byte_at code.now pc.old ≡ 0xE0 → Did result (program code.now attributes) q
        (spot pc.old height.old memory.old stack.old)
        (spot pc.new height.new memory.new stack.new) }
{
    let here = *pc;
    let h = *height;
    if code.len() <= here + 3 {
        return false;
    }
    if h < 4 {
        return false;
    }
    let first = stack[h - 3];
    if control::is_beyond(stack[h - 1], first, stack[h - 2]) {
        let place = crate::place_from(here, crate::half(code, here + 1) as u32);
        return crate::go(pc, height, code.len(), place, h - 4);
    }
    let a = crate::wide(stack[h - 4]);
    if (q.mp as usize) <= a {
        return false;
    }
    if !leaf::is_plain(attributes, q.fp as usize, a) {
        return false;
    }
    store_and_push(memory, stack, pc, height, here + 3, a, first)
}

// Goes past the loop, or round to the label, with NEXT's sum.
fn round(
    memory: &mut [u32],
    stack: &[u32],
    pc: &mut usize,
    height: &mut usize,
    size: usize,
    next: usize,
    a: usize,
    x: u32,
) -> bool
    requires a_in_bounds { a < length memory.old }
    requires height_in_bounds { height.old ≤ length stack.now }
    requires le_height { 5 ≤ height.old }
    ensures { DoesRound result size next a x
        (spot pc.old height.old memory.old stack.now)
        (spot pc.new height.new memory.new stack.now) }
{
    let h = *height;
    if control::is_beyond(stack[h - 2], x, stack[h - 3]) {
        return store_and_go(memory, pc, height, size, next, h - 5, a, x);
    }
    store_and_go(memory, pc, height, size, crate::wide(stack[h - 1]), h, a, x)
}

// Serves NEXT.
pub fn next(
    code: &[u8],
    attributes: Attributes,
    q: Registers,
    memory: &mut [u32],
    stack: &[u32],
    pc: &mut usize,
    height: &mut usize,
) -> bool
    requires pc_in_bounds { pc.old + 1 < length code.now }
    requires height_in_bounds { height.old ≤ length stack.now }
    requires mp_in_bounds { q.mp ≤ length memory.old }
    requires stack_value { bounded attributes (state_at q (spot pc.old height.old memory.old stack.now)) ≡ true }
    ensures { byte_at code.now pc.old ≡ 0xE1 → Did result (program code.now attributes) q
        (spot pc.old height.old memory.old stack.now)
        (spot pc.new height.new memory.new stack.now) }
{
    let here = *pc;
    let h = *height;
    if h < 5 {
        return false;
    }
    let a = crate::wide(stack[h - 5]);
    if (q.mp as usize) <= a {
        return false;
    }
    if !leaf::is_plain(attributes, q.fp as usize, a) {
        return false;
    }
    let Ok(x) = operate::arithmetic::signed_value(Arithmetic::Add, memory[a], stack[h - 2]) else {
        return false;
    };
    round(memory, stack, pc, height, code.len(), here + 1, a, x)
}
