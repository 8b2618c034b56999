// Completes steps one after the other, as many as it can do at once: the fast loop.
#![tactic(auto)]

ghost use Rattle.std.specs.Prelude.{◌≡◌, true, ◌+◌, ◌≤◌, ◌<◌, length};
ghost use Rattle.registers.specs.Modules.{modules_in};
ghost use Rattle.registers.specs.Program.{program};
ghost use Rattle.registers.specs.State.{state};
ghost use Rattle.state.specs.Fits.{bounded};
ghost use Rattle.step.specs.Ready.{Ready};
ghost use Rattle.fast.specs.Fast.{spot, state_at, Did, Ahead};
ghost use Rattle.fast_frames.specs.Frames.{registers_at};

use registers::{Attributes, Registers};

// Completes a step that changes no frame. Behind the short forms one jump table serves all such codes: a chain
// of matches, through the crates.
fn data_step(
    code: &[u8],
    attributes: Attributes,
    q: Registers,
    memory: &mut [u32],
    stack: &mut [u32],
    pc: &mut usize,
    height: &mut usize,
) -> bool
    requires code_len_bound { length code.now ≤ 4096 }
    requires pc_in_bounds { pc.old + 1 < length code.now }
    requires stack_value { bounded attributes (state_at q (spot pc.old height.old memory.old stack.old)) ≡ true }
    ensures { Did result (program code.now attributes) q
        (spot pc.old height.old memory.old stack.old)
        (spot pc.new height.new memory.new stack.new) }
{
    let here = *pc;
    let b = code[here];
    if b < 0x70 {
        return fast_data::short::short_step(code, attributes, q, memory, stack, pc, height, b);
    }
    fast_data::long::long_step(code, attributes, q, memory, stack, pc, height, b)
}

// Completes such steps short of the code's last byte; answers how many of the budget are left.
// `table` and `copy` are not read: they stand for the set of modules that the promise speaks of.
fn data_steps(
    table: &[u32],
    copy: &[u8],
    code: &[u8],
    attributes: Attributes,
    q: Registers,
    memory: &mut [u32],
    stack: &mut [u32],
    pc: &mut usize,
    height: &mut usize,
    budget: usize,
) -> usize
    requires code_len_bound { length code.now ≤ 4096 }
    requires pc_bound { pc.old < 0x1_0000_0000 }
    requires ready { Ready (program code.now attributes (modules_in table.now copy.now))
        (state_at q (spot pc.old height.old memory.old stack.old)) }
    ensures { (pc.new < 0x1_0000_0000)
        × Ahead (program code.now attributes (modules_in table.now copy.now))
        (state_at q (spot pc.old height.old memory.old stack.old)) budget result
        (state_at q (spot pc.new height.new memory.new stack.new)) }
{
    let limit = code.len().saturating_sub(1);
    let mut rest = budget;
    while rest != 0 && *pc < limit && data_step(code, attributes, q, memory, stack, pc, height) {
        rest -= 1;
    }
    rest
}

// Holds what is left of the budget, and the registers that were reached.
#[derive(Clone, Copy)]
pub struct Reached {
    pub left: u32,
    pub registers: Registers,
}

fn reached_at(
    left: usize,
    pc: usize,
    fp: usize,
    mp: usize,
    gp: usize,
    height: usize,
    calls: usize,
) -> Reached
    requires left_bound { left < 0x1_0000_0000 }
    requires pc_bound { pc < 0x1_0000_0000 }
    requires fp_bound { fp < 0x1_0000_0000 }
    requires mp_bound { mp < 0x1_0000_0000 }
    requires gp_bound { gp < 0x1_0000_0000 }
    requires height_bound { height < 0x1_0000_0000 }
    requires calls_bound { calls < 0x1_0000_0000 }
    ensures { (result.left ≡ left) × (result.registers ≡ registers_at pc fp mp gp height calls) }
{
    let registers = Registers {
        pc: pc as u32,
        fp: fp as u32,
        mp: mp as u32,
        gp: gp as u32,
        height: height as u32,
        calls: calls as u32,
    };
    Reached {
        left: left as u32,
        registers,
    }
}

// Completes steps from a state, at most so many. `table` and `copy` are as in data_steps.
pub fn fast_steps(
    table: &[u32],
    copy: &[u8],
    code: &[u8],
    attributes: Attributes,
    q: Registers,
    memory: &mut [u32],
    stack: &mut [u32],
    budget: u32,
) -> Reached
    requires code_len_bound { length code.now ≤ 4096 }
    requires ready { Ready (program code.now attributes (modules_in table.now copy.now)) (state q memory.old stack.old) }
    ensures { Ahead (program code.now attributes (modules_in table.now copy.now))
        (state q memory.old stack.old) budget
        result.left (state result.registers memory.new stack.new) }
{
    let mut pc = q.pc as usize;
    let mut fp = q.fp as usize;
    let mut mp = q.mp as usize;
    let gp = q.gp as usize;
    let mut height = q.height as usize;
    let mut calls = q.calls as usize;
    let mut left = budget as usize;
    let count = entries::entry_count(code);
    while left != 0 {
        let here = reached_at(left, pc, fp, mp, gp, height, calls);
        left = data_steps(
            table,
            copy,
            code,
            attributes,
            here.registers,
            memory,
            stack,
            &mut pc,
            &mut height,
            left,
        );
        if left == 0
            || !fast_frames::frame_step(
                code,
                attributes,
                memory,
                stack,
                &mut pc,
                &mut fp,
                &mut mp,
                gp,
                &mut height,
                &mut calls,
                count,
            )
        {
            break;
        }
        left -= 1;
    }
    reached_at(left, pc, fp, mp, gp, height, calls)
}
