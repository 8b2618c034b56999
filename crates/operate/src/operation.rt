// What an operation gives for the words that it finds.
ghost use Rattle.std.specs.Prelude.{◌≡◌};
ghost use Rattle.operate.specs.Value.{inverted_value};
ghost use Rattle.operate.specs.Operation.{operation_value};

use crate::{arithmetic, compare, sets};
use numbers::Trap;
use opcode::instruction::Operation;

// NEG.
#[tactic(auto, unfolding(crate::specs::Value::inverted_value))]
pub fn inverted_value(b: u32) -> Result<u32, Trap>
    ensures { result ≡ inverted_value b }
{
    if 1 < b {
        return Err(Trap::NotBoolean);
    }
    Ok(1 - b)
}

// One that finds one word looks at `x` alone; only an unsigned result asks whether it wraps.
#[tactic(auto, unfolding(crate::specs::Operation::operation_value))]
pub fn operation_value(wraps: bool, op: Operation, x: u32, y: u32) -> Result<u32, Trap>
    ensures { result ≡ operation_value wraps op x y }
{
    match op {
        Operation::Signed(op) => arithmetic::signed_value(op, x, y),
        Operation::Unsigned(op) => arithmetic::unsigned_value(wraps, op, x, y),
        Operation::Negate => arithmetic::negated_value(x),
        Operation::Equal => Ok(crate::truth(x == y)),
        Operation::NotEqual => Ok(crate::truth(x != y)),
        Operation::CompareSigned(order) => { Ok(crate::truth(compare::signed_test(order, x, y))) }
        Operation::CompareUnsigned(order) => {
            Ok(crate::truth(compare::unsigned_test(order, x, y)))
        }
        Operation::Set(op) => Ok(sets::set_word(op, x, y)),
        Operation::Not => inverted_value(x),
    }
}
