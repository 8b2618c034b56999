// Serves short forms.
ghost use Rattle.std.specs.Prelude.{◌≡◌, true, ◌+◌, ◌<◌, length};
ghost use Rattle.words.specs.Bytes.{byte_at};
ghost use Rattle.registers.specs.Program.{program};
ghost use Rattle.state.specs.Fits.{bounded};
ghost use Rattle.fast.specs.Fast.{spot, state_at, Did};

use fast::leaf;
use registers::{Attributes, Registers};

// Serves codes 00 to 6F: the operand is the last digit.
pub fn short_step(
    code: &[u8],
    attributes: Attributes,
    q: Registers,
    memory: &mut [u32],
    stack: &mut [u32],
    pc: &mut usize,
    height: &mut usize,
    b: u8,
) -> bool
    requires pc_in_bounds { pc.old + 1 < length code.now }
    requires b_value { b ≡ byte_at code.now pc.old }
    requires b_bound { b < 0x70 }
    requires stack_value { bounded attributes (state_at q (spot pc.old height.old memory.old stack.old)) ≡ true }
    ensures { Did result (program code.now attributes) q
        (spot pc.old height.old memory.old stack.old)
        (spot pc.new height.new memory.new stack.new) }
{
    let next = *pc + 1;
    let n = (b % 16) as usize;
    match b / 16 {
        0 => leaf::push(stack, pc, height, next, n as u32),
        1 => leaf::load(
            memory,
            stack,
            pc,
            height,
            next,
            q.mp as usize,
            (q.fp as usize) + n,
        ),
        2 => leaf::load(
            memory,
            stack,
            pc,
            height,
            next,
            q.mp as usize,
            (q.gp as usize) + n,
        ),
        3 => leaf::load_popped(memory, stack, pc, height, next, q.mp as usize, n),
        4 => leaf::store(
            attributes,
            memory,
            stack,
            pc,
            height,
            next,
            q.fp as usize,
            q.mp as usize,
            (q.fp as usize) + n,
        ),
        5 => leaf::store(
            attributes,
            memory,
            stack,
            pc,
            height,
            next,
            q.fp as usize,
            q.mp as usize,
            (q.gp as usize) + n,
        ),
        6 => leaf::store_popped(attributes, q, memory, stack, pc, height, next, n),
        _ => false,
    }
}
