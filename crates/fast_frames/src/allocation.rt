// Serves ALLOC and FREE.
ghost use Rattle.std.specs.Prelude.{◌≡◌, true, ◌+◌, ◌≤◌, ◌<◌, length};
ghost use Rattle.opcode.specs.declared.instruction.Instruction.TheVariants.{Alloc, Free};
ghost use Rattle.registers.specs.Program.{program};
ghost use Rattle.state.specs.Fits.{bounded};
ghost use Rattle.fast.specs.Fast.{Completes};
ghost use Rattle.fast_frames.specs.Frames.{framed};
ghost use Rattle.fast.specs.Fast.{Decodes};

use registers::Attributes;

// Serves ALLOC, where memory has room.
pub fn alloc(
    code: &[u8],
    attributes: Attributes,
    memory: &[u32],
    stack: &mut [u32],
    pc: &mut usize,
    fp: usize,
    mp: &mut usize,
    gp: usize,
    height: usize,
    calls: usize,
    next: usize,
) -> bool
    requires code_len_bound { length code.now ≤ 4096 }
    requires next_in_bounds { next < length code.now }
    requires decodes { Decodes code.now pc.old Alloc next }
    requires stack_value { bounded attributes (framed pc.old fp mp.old gp height calls memory.now stack.old) ≡ true }
    ensures { Completes result (program code.now attributes)
        (framed pc.old fp mp.old gp
        height calls memory.now stack.old)
        (framed pc.new fp mp.new gp
        height calls memory.now stack.new) }
{
    if height < 1 {
        return false;
    }
    let old = *mp;
    let top = old + (stack[height - 1] as usize);
    if memory.len() < top {
        return false;
    }
    stack[height - 1] = old as u32;
    *pc = next;
    *mp = top;
    true
}

// Serves FREE, down to FP at most.
pub fn free(
    code: &[u8],
    attributes: Attributes,
    memory: &[u32],
    stack: &[u32],
    pc: &mut usize,
    fp: usize,
    mp: &mut usize,
    gp: usize,
    height: &mut usize,
    calls: usize,
    next: usize,
) -> bool
    requires code_len_bound { length code.now ≤ 4096 }
    requires next_in_bounds { next < length code.now }
    requires decodes { Decodes code.now pc.old Free next }
    requires stack_value { bounded attributes (framed pc.old fp mp.old gp height.old calls memory.now stack.now) ≡ true }
    ensures { Completes result (program code.now attributes)
        (framed pc.old fp mp.old gp
        height.old calls memory.now stack.now)
        (framed pc.new fp mp.new gp
        height.new calls memory.now stack.now) }
{
    let h = *height;
    if h < 1 {
        return false;
    }
    let old = *mp;
    let size = stack[h - 1] as usize;
    if old < fp + size {
        return false;
    }
    *pc = next;
    *mp = old - size;
    *height = h - 1;
    true
}
