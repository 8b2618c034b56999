// Which addresses are live, and which are protected.
ghost use Rattle.std.specs.Prelude.{◌≡◌, true, List, ℕ, ◌≤◌, length};
ghost use Rattle.registers.specs.Memory.{read, live, above_zero, negated, link_words, is_link, chained, protects};
ghost use Rattle.registers.specs.Modules.{modules_in};

use crate::{Registers, table};

// The word at a place; 0 past the end.
pub fn word_at(s: &[u32], i: usize) -> u32
    ensures { result ≡ read s.now i }
{
    s.get(i).copied().unwrap_or(0)
}

// Whether `n` words from `a` on are live.
pub fn is_live(q: Registers, a: usize, n: usize) -> bool
    ensures { result ≡ live q a n }
{
    let mp = q.mp as usize;
    n <= mp && a <= mp - n
}

// Whether a word as a signed number is above 0.
pub fn is_above_zero(x: u32) -> bool
    ensures { result ≡ above_zero x }
{
    0 < x.cast_signed()
}

// A word as a signed number, negated.
pub fn negated(x: u32) -> u32
    ensures { result ≡ negated x }
{
    x.wrapping_neg()
}

// How many link words the call of the frame at `fp` has.
#[tactic(auto, unfolding(crate::specs::Memory::link_words))]
pub fn link_words(m: &[u32], fp: usize) -> usize
    requires { 1 ≤ fp }
    ensures { result ≡ link_words m.now fp }
{
    if is_above_zero(word_at(m, fp - 1)) {
        2
    } else {
        3
    }
}

// Whether `a` is a link word of an active call. The frames lie one below the other.
fn is_link(m: &[u32], start: usize, fp: u32, calls: u32, a: usize) -> bool
    requires { chained m.now start fp calls ≡ true }
    ensures { result ≡ is_link m.now fp calls a }
{
    let mut frame = fp as usize;
    for _ in 0..calls {
        if frame <= a {
            return false;
        }
        if frame - a <= link_words(m, frame) {
            return true;
        }
        frame = word_at(m, frame - 2) as usize;
    }
    false
}

// Whether a store to `a` is refused.
#[tactic(auto, unfolding(crate::specs::Memory::protects))]
pub fn is_protected(table: &[u32], frames: u32, q: Registers, m: &[u32], a: usize) -> bool
    requires table_len_bound { length table.now ≤ 80 }
    requires calls_value { chained m.now frames q.fp q.calls ≡ true }
    ensures { (copy : List ℕ) → result ≡ protects (modules_in table.now copy) q m.now a }
{
    table::is_fixed(table, a) || is_link(m, frames as usize, q.fp, q.calls, a)
}
