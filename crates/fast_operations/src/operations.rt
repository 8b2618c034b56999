// Serves operations on words.
ghost use Rattle.std.specs.Prelude.{◌≡◌, Bool, not, List, ℕ, ◌+◌, ◌-◌, ◌≤◌, ◌<◌, length, eqb, Ok};
ghost use Rattle.operate.specs.Value.{Value, truth_of, inverted_value};
ghost use Rattle.operate.specs.Arithmetic.{signed_value, unsigned_value, negated_value};
ghost use Rattle.operate.specs.Compare.{signed_test, unsigned_test};
ghost use Rattle.operate.specs.Sets.{set_word};
ghost use Rattle.registers.specs.Memory.{read};
ghost use Rattle.fast.specs.Fast.{spot};
ghost use Rattle.fast.specs.Leaves.{PutsOne, PutsTwo};
ghost use Rattle.fast_operations.specs.Operations.{DoesByte};

use fast::leaf;
use numbers::Trap;
use opcode::instruction::{Arithmetic, Order, SetOperation};
use operate::{arithmetic, compare, operation, sets};

// Puts what an operation gives, where it is a word, in the place of the two top words. It reads them itself: fewer instructions
// than reading them before the match.
fn on_two<F: Fn(u32, u32) -> Result<u32, Trap>>(
    stack: &mut [u32],
    pc: &mut usize,
    height: &mut usize,
    operation: F,
) -> bool
    requires height_in_bounds { height.old ≤ length stack.old }
    requires pc_bound { pc.old + 1 < 0x1_0000_0000_0000_0000 }
    requires callable { F.IsAlwaysCallable operation }
    ensures { (v : Value)
        × (2 ≤ height.old → F.post operation (read stack.old (height.old - 2)) (read stack.old (height.old - 1)) v)
        × ((m : List ℕ) → PutsTwo result (pc.old + 1) v
        (spot pc.old height.old m stack.old) (spot pc.new height.new m stack.new)) }
{
    let h = *height;
    if h < 2 {
        return false;
    }
    let Ok(x) = operation(stack[h - 2], stack[h - 1]) else {
        return false;
    };
    stack[h - 2] = x;
    *pc += 1;
    *height = h - 1;
    true
}

// Puts what an operation gives in the place of the top word.
fn on_one<F: Fn(u32) -> Result<u32, Trap>>(
    stack: &mut [u32],
    pc: &mut usize,
    height: &mut usize,
    operation: F,
) -> bool
    requires height_in_bounds { height.old ≤ length stack.old }
    requires pc_bound { pc.old + 1 < 0x1_0000_0000_0000_0000 }
    requires callable { F.IsAlwaysCallable operation }
    ensures { (v : Value)
        × (1 ≤ height.old → F.post operation (read stack.old (height.old - 1)) v)
        × ((m : List ℕ) → PutsOne result (pc.old + 1) v
        (spot pc.old height.old m stack.old) (spot pc.new height.new m stack.new)) }
{
    let h = *height;
    if h < 1 {
        return false;
    }
    let Ok(x) = operation(stack[h - 1]) else {
        return false;
    };
    stack[h - 1] = x;
    *pc += 1;
    true
}

fn signed_two(stack: &mut [u32], pc: &mut usize, height: &mut usize, op: Arithmetic) -> bool
    requires height_in_bounds { height.old ≤ length stack.old }
    requires pc_bound { pc.old + 1 < 0x1_0000_0000_0000_0000 }
    ensures { (m : List ℕ) → PutsTwo result (pc.old + 1) (signed_value op
        (read stack.old (height.old - 2)) (read stack.old (height.old - 1)))
        (spot pc.old height.old m stack.old)
        (spot pc.new height.new m stack.new) }
{
    on_two(stack, pc, height, |x, y| arithmetic::signed_value(op, x, y))
}

// Wraps unsigned results or not, by the issue of the module.
pub fn unsigned_two(
    stack: &mut [u32],
    pc: &mut usize,
    height: &mut usize,
    wraps: bool,
    op: Arithmetic,
) -> bool
    requires height_in_bounds { height.old ≤ length stack.old }
    requires pc_bound { pc.old + 1 < 0x1_0000_0000_0000_0000 }
    ensures { (m : List ℕ) → PutsTwo result (pc.old + 1) (unsigned_value wraps op
        (read stack.old (height.old - 2)) (read stack.old (height.old - 1)))
        (spot pc.old height.old m stack.old)
        (spot pc.new height.new m stack.new) }
{
    on_two(
        stack,
        pc,
        height,
        |x, y| arithmetic::unsigned_value(wraps, op, x, y),
    )
}

fn set_two(stack: &mut [u32], pc: &mut usize, height: &mut usize, op: SetOperation) -> bool
    requires height_in_bounds { height.old ≤ length stack.old }
    requires pc_bound { pc.old + 1 < 0x1_0000_0000_0000_0000 }
    ensures { (m : List ℕ) → PutsTwo result (pc.old + 1) (Ok (set_word op
        (read stack.old (height.old - 2)) (read stack.old (height.old - 1))))
        (spot pc.old height.old m stack.old)
        (spot pc.new height.new m stack.new) }
{
    on_two(stack, pc, height, |x, y| Ok(sets::set_word(op, x, y)))
}

fn signed_order(stack: &mut [u32], pc: &mut usize, height: &mut usize, order: Order) -> bool
    requires height_in_bounds { height.old ≤ length stack.old }
    requires pc_bound { pc.old + 1 < 0x1_0000_0000_0000_0000 }
    ensures { (m : List ℕ) → PutsTwo result (pc.old + 1) (Ok (truth_of (signed_test order
        (read stack.old (height.old - 2)) (read stack.old (height.old - 1)))))
        (spot pc.old height.old m stack.old)
        (spot pc.new height.new m stack.new) }
{
    on_two(
        stack,
        pc,
        height,
        |x, y| Ok(operate::truth(compare::signed_test(order, x, y))),
    )
}

fn unsigned_order(stack: &mut [u32], pc: &mut usize, height: &mut usize, order: Order) -> bool
    requires height_in_bounds { height.old ≤ length stack.old }
    requires pc_bound { pc.old + 1 < 0x1_0000_0000_0000_0000 }
    ensures { (m : List ℕ) → PutsTwo result (pc.old + 1) (Ok (truth_of (unsigned_test order
        (read stack.old (height.old - 2)) (read stack.old (height.old - 1)))))
        (spot pc.old height.old m stack.old)
        (spot pc.new height.new m stack.new) }
{
    on_two(
        stack,
        pc,
        height,
        |x, y| Ok(operate::truth(compare::unsigned_test(order, x, y))),
    )
}

// Serves NEG_I, NEG and NOP.
fn one_step(stack: &mut [u32], pc: &mut usize, height: &mut usize, b: u8) -> bool
    requires height_in_bounds { height.old ≤ length stack.old }
    requires pc_bound { pc.old + 1 < 0x1_0000_0000_0000_0000 }
    ensures { (m : List ℕ) → DoesByte result b
        (spot pc.old height.old m stack.old)
        (spot pc.new height.new m stack.new) }
{
    match b {
        0xA6 => on_one(stack, pc, height, |x| arithmetic::negated_value(x)),
        0xD7 => on_one(stack, pc, height, |x| operation::inverted_value(x)),
        0xFF => leaf::drop(pc, height, *pc + 1, 0),
        _ => false,
    }
}

// Serves sets, EQU and NEQ, and what one_step has.
fn set_step(stack: &mut [u32], pc: &mut usize, height: &mut usize, b: u8) -> bool
    requires height_in_bounds { height.old ≤ length stack.old }
    requires pc_bound { pc.old + 1 < 0x1_0000_0000_0000_0000 }
    ensures { (m : List ℕ) → DoesByte result b
        (spot pc.old height.old m stack.old)
        (spot pc.new height.new m stack.new) }
{
    match b {
        0xB8 => set_two(stack, pc, height, SetOperation::Union),
        0xB9 => set_two(stack, pc, height, SetOperation::Difference),
        0xBA => set_two(stack, pc, height, SetOperation::Intersection),
        0xBE => on_two(stack, pc, height, |x, y| Ok(operate::truth(x == y))),
        0xBF => on_two(stack, pc, height, |x, y| Ok(operate::truth(x != y))),
        0xD0 => set_two(stack, pc, height, SetOperation::Subset),
        0xD1 => set_two(stack, pc, height, SetOperation::Superset),
        0xD2 => set_two(stack, pc, height, SetOperation::Member),
        _ => one_step(stack, pc, height, b),
    }
}

// Serves orders, C0 to C7, and what set_step has.
fn compare_step(stack: &mut [u32], pc: &mut usize, height: &mut usize, b: u8) -> bool
    requires height_in_bounds { height.old ≤ length stack.old }
    requires pc_bound { pc.old + 1 < 0x1_0000_0000_0000_0000 }
    ensures { (m : List ℕ) → DoesByte result b
        (spot pc.old height.old m stack.old)
        (spot pc.new height.new m stack.new) }
{
    match b {
        0xC0 => signed_order(stack, pc, height, Order::Less),
        0xC1 => signed_order(stack, pc, height, Order::Greater),
        0xC2 => signed_order(stack, pc, height, Order::LessEqual),
        0xC3 => signed_order(stack, pc, height, Order::GreaterEqual),
        0xC4 => unsigned_order(stack, pc, height, Order::Less),
        0xC5 => unsigned_order(stack, pc, height, Order::Greater),
        0xC6 => unsigned_order(stack, pc, height, Order::LessEqual),
        0xC7 => unsigned_order(stack, pc, height, Order::GreaterEqual),
        _ => set_step(stack, pc, height, b),
    }
}

// Serves signed arithmetic, and what compare_step has. Nothing stands between this match and those
// of the defaults: they make one jump.
pub fn operation_step(stack: &mut [u32], pc: &mut usize, height: &mut usize, b: u8) -> bool
    requires height_in_bounds { height.old ≤ length stack.old }
    requires pc_bound { pc.old + 1 < 0x1_0000_0000_0000_0000 }
    ensures { (m : List ℕ) → DoesByte result b
        (spot pc.old height.old m stack.old)
        (spot pc.new height.new m stack.new) }
{
    match b {
        0xA0 => signed_two(stack, pc, height, Arithmetic::Add),
        0xA1 => signed_two(stack, pc, height, Arithmetic::Subtract),
        0xA2 => signed_two(stack, pc, height, Arithmetic::Multiply),
        0xA3 => signed_two(stack, pc, height, Arithmetic::Divide),
        0xA5 => signed_two(stack, pc, height, Arithmetic::Modulus),
        _ => compare_step(stack, pc, height, b),
    }
}
