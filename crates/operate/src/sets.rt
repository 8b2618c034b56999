// One-word sets.
ghost use Rattle.std.specs.Prelude.{◌≡◌};
ghost use Rattle.operate.specs.Sets.{set_word, difference};

use opcode::instruction::SetOperation;

// x and not y.
fn difference(x: u32, y: u32) -> u32
    ensures { result ≡ difference x y }
{
    x & !y
}

#[tactic(auto, unfolding(crate::specs::Sets::set_word))]
pub fn set_word(op: SetOperation, x: u32, y: u32) -> u32
    ensures { result ≡ set_word op x y }
{
    match op {
        SetOperation::Union => x | y,
        SetOperation::Difference => difference(x, y),
        SetOperation::Intersection => x & y,
        SetOperation::Subset => crate::truth(difference(x, y) == 0),
        SetOperation::Superset => crate::truth(difference(y, x) == 0),
        SetOperation::Member => {
            if x < 32 {
                return (y >> x) % 2;
            }
            0
        }
    }
}
