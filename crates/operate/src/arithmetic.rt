// Signed and unsigned arithmetic on words: x and then y were pushed.
ghost use Rattle.std.specs.Prelude.{◌≡◌, pos, ◌-ℤ◌};
ghost use Rattle.operate.specs.Arithmetic.{signed_value, unsigned_value, negated_value};
ghost use Rattle.operate.specs.Value.{unsigned_word};

use numbers::Trap;
use opcode::instruction::Arithmetic;

// Gives the word of a number, or the word that it wraps to, or trap 31.
// Kept: this and the next have the rule each for itself, since a function for both costs the fast loop registers; no `checked_mul`,
// which divides.
fn unsigned_word(wraps: bool, n: u64) -> Result<u32, Trap>
    ensures { result ≡ unsigned_word wraps (pos n) }
{
    if n < 0x1_0000_0000 {
        return Ok(n as u32);
    }
    if wraps {
        return Ok((n % 0x1_0000_0000) as u32);
    }
    Err(Trap::OutOfRange)
}

fn unsigned_difference(wraps: bool, x: u32, y: u32) -> Result<u32, Trap>
    ensures { result ≡ unsigned_word wraps (pos x -ℤ pos y) }
{
    if x < y {
        if wraps {
            return Ok(x.wrapping_sub(y));
        }
        return Err(Trap::OutOfRange);
    }
    Ok(x - y)
}

// Ada's mod of two signed words, y not 0.
fn modulus(x: u32, y: u32) -> Result<u32, Trap>
    requires { y ≡ 0 → ⊥ }
    ensures { result ≡ signed_value Arithmetic.Modulus x y }
{
    let divisor = integer::signed(y);
    let rest = integer::signed(x) % divisor;
    if rest == 0 {
        return crate::signed_word(rest);
    }
    if rest < 0 {
        if divisor < 0 {
            return crate::signed_word(rest);
        }
        return crate::signed_word(rest + divisor);
    }
    if divisor < 0 {
        return crate::signed_word(rest + divisor);
    }
    crate::signed_word(rest)
}

pub fn signed_value(op: Arithmetic, x: u32, y: u32) -> Result<u32, Trap>
    ensures { result ≡ signed_value op x y }
{
    match op {
        Arithmetic::Add => crate::signed_word(integer::signed(x) + integer::signed(y)),
        Arithmetic::Subtract => crate::signed_word(integer::signed(x) - integer::signed(y)),
        Arithmetic::Multiply => crate::signed_word(integer::signed(x) * integer::signed(y)),
        Arithmetic::Divide => {
            if y == 0 {
                return Err(Trap::ZeroDivisor);
            }
            crate::signed_word(integer::signed(x) / integer::signed(y))
        }
        Arithmetic::Modulus => {
            if y == 0 {
                return Err(Trap::ZeroDivisor);
            }
            modulus(x, y)
        }
    }
}

pub fn unsigned_value(wraps: bool, op: Arithmetic, x: u32, y: u32) -> Result<u32, Trap>
    ensures { result ≡ unsigned_value wraps op x y }
{
    match op {
        Arithmetic::Add => unsigned_word(wraps, (x as u64) + (y as u64)),
        Arithmetic::Subtract => unsigned_difference(wraps, x, y),
        Arithmetic::Multiply => unsigned_word(wraps, (x as u64) * (y as u64)),
        Arithmetic::Divide => {
            if y == 0 {
                return Err(Trap::ZeroDivisor);
            }
            Ok(x / y)
        }
        Arithmetic::Modulus => {
            if y == 0 {
                return Err(Trap::ZeroDivisor);
            }
            Ok(x % y)
        }
    }
}

pub fn negated_value(x: u32) -> Result<u32, Trap>
    ensures { result ≡ negated_value x }
{
    crate::signed_word(0 - integer::signed(x))
}
