// Serves CALL, ENTER and RTN.
ghost use Rattle.std.specs.Prelude.{◌≡◌, true, ◌+◌, ◌≤◌, ◌<◌, length, take, drop};
ghost use Rattle.std.proofs.lemmas.List.Edits.{sets};
ghost use Rattle.entries.specs.Entries.{entry_count};
ghost use Rattle.opcode.specs.declared.instruction.Instruction.TheVariants.{Call, Enter, Rtn};
ghost use Rattle.registers.specs.Program.{program};
ghost use Rattle.state.specs.Fits.{bounded};
ghost use Rattle.fast.specs.Fast.{Completes};
ghost use Rattle.fast_frames.specs.Frames.{framed};
ghost use Rattle.fast.specs.Fast.{Decodes};

use registers::Attributes;

// Serves CALL, where the callee, its depth and its link words are in order.
pub fn call(
    code: &[u8],
    attributes: Attributes,
    memory: &mut [u32],
    stack: &[u32],
    pc: &mut usize,
    fp: &mut usize,
    mp: &mut usize,
    gp: usize,
    height: usize,
    calls: &mut usize,
    count: u32,
    p: u32,
    next: usize,
) -> bool
    requires code_len_bound { length code.now ≤ 4096 }
    requires count_value { count ≡ entry_count code.now }
    requires next_in_bounds { next ≤ length code.now }
    requires decodes { Decodes code.now pc.old (Call p) next }
    requires stack_value { bounded attributes (framed pc.old fp.old mp.old gp height calls.old memory.old stack.now) ≡ true }
    ensures { Completes result (program code.now attributes)
        (framed pc.old fp.old mp.old gp
        height calls.old memory.old stack.now)
        (framed pc.new fp.new mp.new gp
        height calls.new memory.new stack.now) }
{
    if p == 0 {
        return false;
    }
    if count <= p {
        return false;
    }
    if 64 <= *calls {
        return false;
    }
    let old = *mp;
    if memory.len() < old + 2 {
        return false;
    }
    let k = 2 * (p as usize);
    if code.len() <= k + 1 {
        return false;
    }
    let entry = words::pair(code[k], code[k + 1]) as usize;
    if code.len() <= entry {
        return false;
    }
    memory[old] = *fp as u32;
    memory[old + 1] = next as u32;
    *pc = entry;
    *fp = old + 2;
    *mp = old + 2;
    *calls = *calls + 1;
    true
}

// Copies words of the stack from `low` on to memory from `a` on. Most calls have few: the first two go without a loop.
fn copy_words(memory: &mut [u32], a: usize, stack: &[u32], low: usize, n: usize)
    requires n_in_bounds { a + n ≤ length memory.old }
    requires n_in_bounds_2 { low + n ≤ length stack.now }
    ensures { memory.new ≡ sets memory.old a (take n (drop low stack.now)) }
{
    if n == 0 {
        return;
    }
    memory[a] = stack[low];
    if n == 1 {
        return;
    }
    memory[a + 1] = stack[low + 1];
    for i in 2..n {
        memory[a + i] = stack[low + i];
    }
}

// Serves ENTER, where the words are on the stack and memory has room.
pub fn enter(
    code: &[u8],
    attributes: Attributes,
    memory: &mut [u32],
    stack: &[u32],
    pc: &mut usize,
    fp: usize,
    mp: &mut usize,
    gp: usize,
    height: &mut usize,
    calls: usize,
    parameters: usize,
    locals: usize,
    next: usize,
) -> bool
    requires code_len_bound { length code.now ≤ 4096 }
    requires parameters_bound { parameters < 256 }
    requires locals_bound { locals < 256 }
    requires next_in_bounds { next < length code.now }
    requires decodes { Decodes code.now pc.old (Enter parameters locals) next }
    requires stack_value { bounded attributes (framed pc.old fp mp.old gp height.old calls memory.old stack.now) ≡ true }
    ensures { Completes result (program code.now attributes)
        (framed pc.old fp mp.old gp
        height.old calls memory.old stack.now)
        (framed pc.new fp mp.new gp
        height.new calls memory.new stack.now) }
{
    let h = *height;
    if h < parameters {
        return false;
    }
    let old = *mp;
    let top = old + parameters + locals;
    if memory.len() < top {
        return false;
    }
    copy_words(memory, old, stack, h - parameters, parameters);
    *pc = next;
    *mp = top;
    *height = h - parameters;
    true
}

// Serves RTN, where a local call is active: its return word is a place in the code, and not 0.
pub fn rtn(
    code: &[u8],
    attributes: Attributes,
    memory: &[u32],
    stack: &[u32],
    pc: &mut usize,
    fp: &mut usize,
    mp: &mut usize,
    gp: usize,
    height: usize,
    calls: &mut usize,
    next: usize,
) -> bool
    requires code_len_bound { length code.now ≤ 4096 }
    requires decodes { Decodes code.now pc.old Rtn next }
    requires stack_value { bounded attributes (framed pc.old fp.old mp.old gp height calls.old memory.now stack.now) ≡ true }
    ensures { Completes result (program code.now attributes)
        (framed pc.old fp.old mp.old gp
        height calls.old memory.now stack.now)
        (framed pc.new fp.new mp.new gp
        height calls.new memory.now stack.now) }
{
    if *calls == 0 {
        return false;
    }
    let frame = *fp;
    let place = memory[frame - 1] as usize;
    if code.len() <= place {
        return false;
    }
    if place == 0 {
        return false;
    }
    *pc = place;
    *mp = frame - 2;
    *fp = memory[frame - 2] as usize;
    *calls = *calls - 1;
    true
}
