// Serves jumps.
ghost use Rattle.std.specs.Prelude.{◌≡◌, List, ℕ, ◌+◌, ◌-◌, ◌≤◌, ◌<◌, length};
ghost use Rattle.opcode.specs.declared.instruction.Instruction.TheVariants.{JumpC};
ghost use Rattle.fast.specs.Fast.{spot};
ghost use Rattle.fast_flow.specs.Flow.{Does, DoesCode};

// Takes a byte as a word.
fn word(x: u8) -> u32
    ensures { result ≡ x }
{
    x as u32
}

// Serves JUMP.b.
pub fn jump_b(code: &[u8], pc: &mut usize, height: &mut usize) -> bool
    requires code_len_bound { length code.now ≤ 65535 }
    requires pc_in_bounds { pc.old + 1 < length code.now }
    ensures { (m s : List ℕ) → DoesCode result code.now 0xDA
        (spot pc.old height.old m s) (spot pc.new height.new m s) }
{
    let here = *pc;
    let h = *height;
    let place = crate::place_from(here, operand::extend_byte(code[here + 1]));
    crate::go(pc, height, code.len(), place, h)
}

// Serves JUMP.h.
pub fn jump_h(code: &[u8], pc: &mut usize, height: &mut usize) -> bool
    requires code_len_bound { length code.now ≤ 65535 }
    requires pc_in_bounds { pc.old + 1 < length code.now }
    ensures { (m s : List ℕ) → DoesCode result code.now 0xDB
        (spot pc.old height.old m s) (spot pc.new height.new m s) }
{
    let here = *pc;
    let h = *height;
    if code.len() < here + 3 {
        return false;
    }
    let place = crate::place_from(here, operand::extend_halfword(crate::half(code, here + 1)));
    crate::go(pc, height, code.len(), place, h)
}

// Serves JUMP_C: jumps where the boolean is false.
fn jump_c(
    stack: &[u32],
    pc: &mut usize,
    height: &mut usize,
    size: usize,
    next: usize,
    distance: u32,
) -> bool
    requires pc_bound { pc.old < 0x1_0000_0000 }
    requires height_in_bounds { height.old ≤ length stack.now }
    ensures { (m : List ℕ) → Does result size (JumpC distance) next
        (spot pc.old height.old m stack.now)
        (spot pc.new height.new m stack.now) }
{
    let here = *pc;
    let h = *height;
    if h < 1 {
        return false;
    }
    let x = stack[h - 1];
    if 1 < x {
        return false;
    }
    if x == 0 {
        return crate::go(pc, height, size, crate::place_from(here, distance), h - 1);
    }
    crate::go(pc, height, size, next, h - 1)
}

// Serves JUMP_C.b.
pub fn jump_c_b(code: &[u8], stack: &[u32], pc: &mut usize, height: &mut usize) -> bool
    requires code_len_bound { length code.now ≤ 65535 }
    requires pc_in_bounds { pc.old + 1 < length code.now }
    requires height_in_bounds { height.old ≤ length stack.now }
    ensures { (m : List ℕ) → DoesCode result code.now 0xDC
        (spot pc.old height.old m stack.now)
        (spot pc.new height.new m stack.now) }
{
    let here = *pc;
    jump_c(
        stack,
        pc,
        height,
        code.len(),
        here + 2,
        operand::extend_byte(code[here + 1]),
    )
}

// Serves JUMP_C.h.
pub fn jump_c_h(code: &[u8], stack: &[u32], pc: &mut usize, height: &mut usize) -> bool
    requires code_len_bound { length code.now ≤ 65535 }
    requires pc_in_bounds { pc.old + 1 < length code.now }
    requires height_in_bounds { height.old ≤ length stack.now }
    ensures { (m : List ℕ) → DoesCode result code.now 0xDD
        (spot pc.old height.old m stack.now)
        (spot pc.new height.new m stack.now) }
{
    let here = *pc;
    if code.len() < here + 3 {
        return false;
    }
    jump_c(
        stack,
        pc,
        height,
        code.len(),
        here + 3,
        operand::extend_halfword(crate::half(code, here + 1)),
    )
}

// Serves JUMP_T (truth is 1) and JUMP_F (0): jumps and keeps the boolean where it is `truth`.
pub fn jump_tf(code: &[u8], stack: &[u32], pc: &mut usize, height: &mut usize, truth: u32) -> bool
    requires code_len_bound { length code.now ≤ 65535 }
    requires pc_in_bounds { pc.old + 1 < length code.now }
    requires height_in_bounds { height.old ≤ length stack.now }
    requires truth_bound { truth ≤ 1 }
    ensures { (m : List ℕ) → DoesCode result code.now (0xDF - truth)
        (spot pc.old height.old m stack.now)
        (spot pc.new height.new m stack.now) }
{
    let here = *pc;
    let h = *height;
    if h < 1 {
        return false;
    }
    let x = stack[h - 1];
    if 1 < x {
        return false;
    }
    if x == truth {
        let place = crate::place_from(here, word(code[here + 1]));
        return crate::go(pc, height, code.len(), place, h);
    }
    crate::go(pc, height, code.len(), here + 2, h - 1)
}
