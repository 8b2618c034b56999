// Completes steps that change frames, or writes nothing.
#![tactic(auto)]

ghost use Rattle.std.specs.Prelude.{◌≡◌, true, ◌+◌, ◌≤◌, ◌<◌, length};
ghost use Rattle.words.specs.Bytes.{byte_at};
ghost use Rattle.entries.specs.Entries.{entry_count};
ghost use Rattle.registers.specs.Program.{program};
ghost use Rattle.state.specs.Fits.{bounded};
ghost use Rattle.fast.specs.Fast.{Completes};
ghost use Rattle.fast_frames.specs.Frames.{framed};

use registers::Attributes;

pub mod allocation;
pub mod frames;

// Reads an operand byte.
fn byte(code: &[u8], at: usize) -> usize
    requires { at < length code.now }
    ensures { (result ≡ byte_at code.now at) × (result < 256) }
{
    code[at] as usize
}

// Serves ALLOC, FREE, CALL.b, ENTER and RTN.
fn long_step(
    code: &[u8],
    attributes: Attributes,
    memory: &mut [u32],
    stack: &mut [u32],
    pc: &mut usize,
    fp: &mut usize,
    mp: &mut usize,
    gp: usize,
    height: &mut usize,
    calls: &mut usize,
    count: u32,
    b: u8,
) -> bool
    requires code_len_bound { length code.now ≤ 4096 }
    requires count_value { count ≡ entry_count code.now }
    requires pc_in_bounds { pc.old < length code.now }
    requires b_value { b ≡ byte_at code.now pc.old }
    requires stack_value { bounded attributes (framed pc.old fp.old mp.old gp height.old calls.old memory.old stack.old)
        ≡ true }
    ensures { Completes result (program code.now attributes)
        (framed pc.old fp.old mp.old gp
        height.old calls.old memory.old stack.old)
        (framed pc.new fp.new mp.new gp
        height.new calls.new memory.new stack.new) }
{
    let here = *pc;
    if b == 0xE9 {
        return frames::rtn(
            code,
            attributes,
            memory,
            stack,
            pc,
            fp,
            mp,
            gp,
            *height,
            calls,
            here + 1,
        );
    }
    if b == 0xE8 {
        if code.len() <= here + 3 {
            return false;
        }
        return frames::enter(
            code,
            attributes,
            memory,
            stack,
            pc,
            *fp,
            mp,
            gp,
            height,
            *calls,
            byte(code, here + 1),
            byte(code, here + 2),
            here + 3,
        );
    }
    if code.len() <= here + 2 {
        return false;
    }
    if b == 0xE5 {
        return frames::call(
            code,
            attributes,
            memory,
            stack,
            pc,
            fp,
            mp,
            gp,
            *height,
            calls,
            count,
            code[here + 1] as u32,
            here + 2,
        );
    }
    if b == 0xD8 {
        return allocation::alloc(
            code,
            attributes,
            memory,
            stack,
            pc,
            *fp,
            mp,
            gp,
            *height,
            *calls,
            here + 1,
        );
    }
    if b == 0xD9 {
        return allocation::free(
            code,
            attributes,
            memory,
            stack,
            pc,
            *fp,
            mp,
            gp,
            height,
            *calls,
            here + 1,
        );
    }
    false
}

// Completes one step of those, where it can; `count` is the number of entries.
pub fn frame_step(
    code: &[u8],
    attributes: Attributes,
    memory: &mut [u32],
    stack: &mut [u32],
    pc: &mut usize,
    fp: &mut usize,
    mp: &mut usize,
    gp: usize,
    height: &mut usize,
    calls: &mut usize,
    count: u32,
) -> bool
    requires code_len_bound { length code.now ≤ 4096 }
    requires count_value { count ≡ entry_count code.now }
    requires stack_value { bounded attributes (framed pc.old fp.old mp.old gp height.old calls.old memory.old stack.old)
        ≡ true }
    ensures { Completes result (program code.now attributes)
        (framed pc.old fp.old mp.old gp
        height.old calls.old memory.old stack.old)
        (framed pc.new fp.new mp.new gp
        height.new calls.new memory.new stack.new) }
{
    let here = *pc;
    if code.len() <= here {
        return false;
    }
    let b = code[here];
    if 0x80 <= b {
        return long_step(
            code, attributes, memory, stack, pc, fp, mp, gp, height, calls, count, b,
        );
    }
    if b <= 0x70 {
        return false;
    }
    frames::call(
        code,
        attributes,
        memory,
        stack,
        pc,
        fp,
        mp,
        gp,
        *height,
        calls,
        count,
        (b % 16) as u32,
        here + 1,
    )
}
