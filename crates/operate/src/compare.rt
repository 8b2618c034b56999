// Order tests on words.
ghost use Rattle.std.specs.Prelude.{◌≡◌};
ghost use Rattle.operate.specs.Compare.{signed_test, unsigned_test};

use opcode::instruction::Order;

pub fn signed_test(order: Order, x: u32, y: u32) -> bool
    ensures { result ≡ signed_test order x y }
{
    match order {
        Order::Less => integer::below(x, y),
        Order::Greater => integer::below(y, x),
        Order::LessEqual => integer::at_most(x, y),
        Order::GreaterEqual => integer::at_most(y, x),
    }
}

pub fn unsigned_test(order: Order, x: u32, y: u32) -> bool
    ensures { result ≡ unsigned_test order x y }
{
    match order {
        Order::Less => x < y,
        Order::Greater => y < x,
        Order::LessEqual => x <= y,
        Order::GreaterEqual => y <= x,
    }
}
