// Completes a step, or writes nothing: each function sets place and height, and of memory or stack what the step changes.
ghost use Rattle.std.specs.Prelude.{◌≡◌, true, List, ℕ, ◌+◌, ◌≤◌, ◌<◌, leb, length};
ghost use Rattle.registers.specs.Memory.{link_words, is_link, chained};
ghost use Rattle.fast.specs.Fast.{spot, plain, free};
ghost use Rattle.fast.specs.Leaves.{Pushes, Loads, LoadsPopped, LoadsTwo, LoadsTwoPopped, AddressPopped, Drops, Swaps};
ghost use Rattle.fast.specs.Leaves.{Stores, StoresPopped, StoresTwo, StoresTwoPopped};

use registers::{Attributes, Registers, access};

// Takes a word as an index.
fn wide(x: u32) -> usize
    ensures { (result ≡ x) × (result < 0x1_0000_0000) }
{
    x as usize
}

// Pushes a word, where there is room.
pub fn push(stack: &mut [u32], pc: &mut usize, height: &mut usize, next: usize, x: u32) -> bool
    ensures { (m : List ℕ) → Pushes result next x
        (spot pc.old height.old m stack.old)
        (spot pc.new height.new m stack.new) }
{
    let top = *height;
    if stack.len() <= top {
        return false;
    }
    stack[top] = x;
    *pc = next;
    *height = top + 1;
    true
}

// Pushes a live word of memory.
pub fn load(
    memory: &[u32],
    stack: &mut [u32],
    pc: &mut usize,
    height: &mut usize,
    next: usize,
    mp: usize,
    a: usize,
) -> bool
    requires { mp ≤ length memory.now }
    ensures { Loads result next mp a
        (spot pc.old height.old memory.now stack.old)
        (spot pc.new height.new memory.now stack.new) }
{
    if mp <= a {
        return false;
    }
    push(stack, pc, height, next, memory[a])
}

// Replaces an address by the live word at an offset from it.
pub fn load_popped(
    memory: &[u32],
    stack: &mut [u32],
    pc: &mut usize,
    height: &mut usize,
    next: usize,
    mp: usize,
    offset: usize,
) -> bool
    requires mp_in_bounds { mp ≤ length memory.now }
    requires height_in_bounds { height.old ≤ length stack.old }
    requires offset_bound { offset < 65536 }
    ensures { LoadsPopped result next mp offset
        (spot pc.old height.old memory.now stack.old)
        (spot pc.new height.new memory.now stack.new) }
{
    let h = *height;
    if h < 1 {
        return false;
    }
    let from = wide(stack[h - 1]) + offset;
    if mp <= from {
        return false;
    }
    stack[h - 1] = memory[from];
    *pc = next;
    true
}

// Adds an offset to an address.
pub fn address_popped(
    stack: &mut [u32],
    pc: &mut usize,
    height: &mut usize,
    next: usize,
    offset: usize,
) -> bool
    requires height_in_bounds { height.old ≤ length stack.old }
    requires offset_bound { offset < 65536 }
    ensures { (m : List ℕ) → AddressPopped result next offset
        (spot pc.old height.old m stack.old)
        (spot pc.new height.new m stack.new) }
{
    let h = *height;
    if h < 1 {
        return false;
    }
    let sum = wide(stack[h - 1]) + offset;
    if 0x1_0000_0000 <= sum {
        return false;
    }
    stack[h - 1] = sum as u32;
    *pc = next;
    true
}

// Says whether a word lies in the running frame or among the globals.
pub fn is_plain(attributes: Attributes, fp: usize, a: usize) -> bool
    ensures { result ≡ plain attributes fp a }
{
    fp <= a || ((attributes.globals as usize) <= a && a < (attributes.constants as usize))
}

// Says whether `a` is one of the link words just below a frame.
fn is_near(memory: &[u32], frame: usize, a: usize) -> bool
    requires { a < frame }
    ensures { result ≡ leb frame (a + link_words memory.now frame) }
{
    frame - a <= 3 && frame - a <= access::link_words(memory, frame)
}

// Says whether `a`, past the data frames, is a link word. Each saved FP lies below its frame, and the last one at `start`.
fn is_link(memory: &[u32], start: usize, fp: usize, calls: usize, a: usize) -> bool
    requires calls_value { chained memory.now start fp calls ≡ true }
    requires start_le_a { start ≤ a }
    requires fp_in_bounds { fp ≤ length memory.now }
    ensures { result ≡ is_link memory.now fp calls a }
{
    let mut frame = fp;
    while a < frame {
        if is_near(memory, frame, a) {
            return true;
        }
        frame = memory[frame - 2] as usize;
    }
    false
}

// Says whether a word is not protected, as far as the running module tells. Only a word of an outer frame takes a walk.
fn is_free(attributes: Attributes, q: Registers, memory: &[u32], a: usize) -> bool
    requires calls_value { chained memory.now attributes.frames q.fp q.calls ≡ true }
    requires fp_in_bounds { q.fp ≤ length memory.now }
    ensures { result ≡ free attributes q memory.now a }
{
    let start = attributes.frames as usize;
    is_plain(attributes, q.fp as usize, a)
        || (start <= a && !is_link(memory, start, q.fp as usize, q.calls as usize, a))
}

// Stores the top word to a live word of the running frame, or a live global.
pub fn store(
    attributes: Attributes,
    memory: &mut [u32],
    stack: &[u32],
    pc: &mut usize,
    height: &mut usize,
    next: usize,
    fp: usize,
    mp: usize,
    a: usize,
) -> bool
    requires mp_in_bounds { mp ≤ length memory.old }
    requires height_in_bounds { height.old ≤ length stack.now }
    ensures { Stores result attributes next fp mp a
        (spot pc.old height.old memory.old stack.now)
        (spot pc.new height.new memory.new stack.now) }
{
    let h = *height;
    if h < 1 {
        return false;
    }
    if mp <= a {
        return false;
    }
    if !is_plain(attributes, fp, a) {
        return false;
    }
    memory[a] = stack[h - 1];
    *pc = next;
    *height = h - 1;
    true
}

// Stores the top word at an offset from the address below it.
pub fn store_popped(
    attributes: Attributes,
    q: Registers,
    memory: &mut [u32],
    stack: &[u32],
    pc: &mut usize,
    height: &mut usize,
    next: usize,
    offset: usize,
) -> bool
    requires mp_in_bounds { q.mp ≤ length memory.old }
    requires height_in_bounds { height.old ≤ length stack.now }
    requires offset_bound { offset < 65536 }
    requires calls_value { chained memory.old attributes.frames q.fp q.calls ≡ true }
    requires fp_in_bounds { q.fp ≤ length memory.old }
    ensures { StoresPopped result attributes q next offset
        (spot pc.old height.old memory.old stack.now)
        (spot pc.new height.new memory.new stack.now) }
{
    let h = *height;
    if h < 2 {
        return false;
    }
    let to = wide(stack[h - 2]) + offset;
    if (q.mp as usize) <= to {
        return false;
    }
    if !is_free(attributes, q, memory, to) {
        return false;
    }
    memory[to] = stack[h - 1];
    *pc = next;
    *height = h - 2;
    true
}

// Drops words.
pub fn drop(pc: &mut usize, height: &mut usize, next: usize, n: usize) -> bool
    ensures { (m s : List ℕ) → Drops result next n
        (spot pc.old height.old m s)
        (spot pc.new height.new m s) }
{
    let h = *height;
    if h < n {
        return false;
    }
    *pc = next;
    *height = h - n;
    true
}

// Exchanges the two top words.
pub fn swap(stack: &mut [u32], pc: &mut usize, height: &mut usize, next: usize) -> bool
    requires { height.old ≤ length stack.old }
    ensures { (m : List ℕ) → Swaps result next
        (spot pc.old height.old m stack.old)
        (spot pc.new height.new m stack.new) }
{
    let h = *height;
    if h < 2 {
        return false;
    }
    let x = stack[h - 2];
    stack[h - 2] = stack[h - 1];
    stack[h - 1] = x;
    *pc = next;
    true
}

// Pushes two live words of memory.
pub fn load_two(
    memory: &[u32],
    stack: &mut [u32],
    pc: &mut usize,
    height: &mut usize,
    next: usize,
    mp: usize,
    a: usize,
) -> bool
    requires mp_in_bounds { mp ≤ length memory.now }
    requires a_bound { a < 0x1_0000_0000 }
    ensures { LoadsTwo result next mp a
        (spot pc.old height.old memory.now stack.old)
        (spot pc.new height.new memory.now stack.new) }
{
    let h = *height;
    if mp <= a + 1 {
        return false;
    }
    if stack.len() <= h {
        return false;
    }
    if stack.len() <= h + 1 {
        return false;
    }
    stack[h] = memory[a];
    stack[h + 1] = memory[a + 1];
    *pc = next;
    *height = h + 2;
    true
}

// Replaces an address by the two live words at an offset from it.
pub fn load_two_popped(
    memory: &[u32],
    stack: &mut [u32],
    pc: &mut usize,
    height: &mut usize,
    next: usize,
    mp: usize,
    offset: usize,
) -> bool
    requires mp_in_bounds { mp ≤ length memory.now }
    requires height_in_bounds { height.old ≤ length stack.old }
    requires offset_bound { offset < 65536 }
    ensures { LoadsTwoPopped result next mp offset
        (spot pc.old height.old memory.now stack.old)
        (spot pc.new height.new memory.now stack.new) }
{
    let h = *height;
    if h < 1 {
        return false;
    }
    let first = wide(stack[h - 1]) + offset;
    if mp <= first + 1 {
        return false;
    }
    if stack.len() <= h {
        return false;
    }
    stack[h - 1] = memory[first];
    stack[h] = memory[first + 1];
    *pc = next;
    *height = h + 1;
    true
}

// Stores the two top words to live words of the running frame, or live globals.
pub fn store_two(
    attributes: Attributes,
    memory: &mut [u32],
    stack: &[u32],
    pc: &mut usize,
    height: &mut usize,
    next: usize,
    fp: usize,
    mp: usize,
    a: usize,
) -> bool
    requires mp_in_bounds { mp ≤ length memory.old }
    requires height_in_bounds { height.old ≤ length stack.now }
    requires a_bound { a < 0x1_0000_0000 }
    ensures { StoresTwo result attributes next fp mp a
        (spot pc.old height.old memory.old stack.now)
        (spot pc.new height.new memory.new stack.now) }
{
    let h = *height;
    if h < 2 {
        return false;
    }
    if mp <= a + 1 {
        return false;
    }
    if !is_plain(attributes, fp, a) {
        return false;
    }
    if !is_plain(attributes, fp, a + 1) {
        return false;
    }
    memory[a] = stack[h - 2];
    memory[a + 1] = stack[h - 1];
    *pc = next;
    *height = h - 2;
    true
}

// Stores the two top words at an offset from the address below them.
pub fn store_two_popped(
    attributes: Attributes,
    q: Registers,
    memory: &mut [u32],
    stack: &[u32],
    pc: &mut usize,
    height: &mut usize,
    next: usize,
    offset: usize,
) -> bool
    requires mp_in_bounds { q.mp ≤ length memory.old }
    requires height_in_bounds { height.old ≤ length stack.now }
    requires offset_bound { offset < 65536 }
    requires calls_value { chained memory.old attributes.frames q.fp q.calls ≡ true }
    requires fp_in_bounds { q.fp ≤ length memory.old }
    ensures { StoresTwoPopped result attributes q next offset
        (spot pc.old height.old memory.old stack.now)
        (spot pc.new height.new memory.new stack.now) }
{
    let h = *height;
    if h < 3 {
        return false;
    }
    let to = wide(stack[h - 3]) + offset;
    if (q.mp as usize) <= to + 1 {
        return false;
    }
    if !is_free(attributes, q, memory, to) {
        return false;
    }
    if !is_free(attributes, q, memory, to + 1) {
        return false;
    }
    memory[to] = stack[h - 2];
    memory[to + 1] = stack[h - 1];
    *pc = next;
    *height = h - 3;
    true
}
