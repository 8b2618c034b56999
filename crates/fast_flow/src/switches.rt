// Serves SWITCH, SWITCH_X and LEAVE.
ghost use Rattle.std.specs.Prelude.{◌≡◌, List, ℕ, ◌+◌, ◌-◌, ◌≤◌, ◌<◌, length, set};
ghost use Rattle.words.specs.Bytes.{halfword_at};
ghost use Rattle.fast.specs.Fast.{spot, Became};
ghost use Rattle.fast_flow.specs.Flow.{DoesCode};

// Takes a halfword as an index.
fn wide_half(x: u16) -> usize
    ensures { (result ≡ x) × (result < 65536) }
{
    x as usize
}

// Goes to the place at a distance, with the exit label for the selector.
fn branch(code: &[u8], stack: &mut [u32], pc: &mut usize, height: &mut usize, distance: u16) -> bool
    requires code_len_bound { length code.now ≤ 65535 }
    requires pc_in_bounds { pc.old + 4 < length code.now }
    requires height_in_bounds { height.old ≤ length stack.old }
    requires le_height { 1 ≤ height.old }
    ensures { (m : List ℕ) → Became result ((pc.old + distance < length code.now)
        × (pc.old + halfword_at code.now (pc.old + 3) < 0x1_0000_0000))
        (spot pc.old height.old m stack.old)
        (spot (pc.old + distance) height.old m
        (set stack.old (height.old - 1)
        (pc.old + halfword_at code.now (pc.old + 3))))
        (spot pc.new height.new m stack.new) }
{
    let here = *pc;
    let h = *height;
    let place = here + wide_half(distance);
    if code.len() <= place {
        return false;
    }
    stack[h - 1] = (here + wide_half(crate::half(code, here + 3))) as u32;
    *pc = place;
    true
}

// Serves SWITCH: to the branch of the selector, or ELSE.
pub fn switch(code: &[u8], stack: &mut [u32], pc: &mut usize, height: &mut usize) -> bool
    requires code_len_bound { length code.now ≤ 65535 }
    requires pc_in_bounds { pc.old + 1 < length code.now }
    requires height_in_bounds { height.old ≤ length stack.old }
    ensures { (m : List ℕ) → DoesCode result code.now 0xE2
        (spot pc.old height.old m stack.old)
        (spot pc.new height.new m stack.new) }
{
    let here = *pc;
    let h = *height;
    if h < 1 {
        return false;
    }
    if code.len() < here + 9 {
        return false;
    }
    let n = wide_half(crate::half(code, here + 1));
    if code.len() < here + 9 + 2 * n {
        return false;
    }
    let x = crate::wide(stack[h - 1]);
    if n < x {
        return branch(code, stack, pc, height, crate::half(code, here + 5));
    }
    branch(code, stack, pc, height, crate::half(code, here + 7 + 2 * x))
}

// Serves SWITCH_X: to the first range that holds the selector, or ELSE.
pub fn switch_x(code: &[u8], stack: &mut [u32], pc: &mut usize, height: &mut usize) -> bool
    requires code_len_bound { length code.now ≤ 65535 }
    requires pc_in_bounds { pc.old + 1 < length code.now }
    requires height_in_bounds { height.old ≤ length stack.old }
    ensures { (m : List ℕ) → DoesCode result code.now 0xE3
        (spot pc.old height.old m stack.old)
        (spot pc.new height.new m stack.new) }
{
    let here = *pc;
    let h = *height;
    if h < 1 {
        return false;
    }
    if code.len() < here + 7 {
        return false;
    }
    let n = crate::half(code, here + 1);
    if code.len() < here + 7 + 10 * wide_half(n) {
        return false;
    }
    let distance = switch_table::search_distance(code, here, n as u32, stack[h - 1]);
    if distance == 0 {
        return branch(code, stack, pc, height, crate::half(code, here + 5));
    }
    branch(code, stack, pc, height, distance)
}

// Serves LEAVE: to the exit label on top.
pub fn leave(code: &[u8], stack: &[u32], pc: &mut usize, height: &mut usize) -> bool
    requires pc_in_bounds { pc.old + 1 < length code.now }
    requires height_in_bounds { height.old ≤ length stack.now }
    ensures { (m : List ℕ) → DoesCode result code.now 0xE4
        (spot pc.old height.old m stack.now)
        (spot pc.new height.new m stack.now) }
{
    let h = *height;
    if h < 1 {
        return false;
    }
    crate::go(pc, height, code.len(), crate::wide(stack[h - 1]), h - 1)
}
