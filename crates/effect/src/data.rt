// Loads, stores and the operations on stack words, as effects.
ghost use Rattle.std.specs.Prelude.{◌≡◌, true, List, ℕ, ◌≤◌, ◌<◌, length};
ghost use Rattle.effect.specs.Data.{base_of, no_base, load_effect, load_address_effect, store_effect};
ghost use Rattle.effect.specs.Data.{loaded, protects_any, stored, push_effect, operate_effect, alloc_effect, free_effect};
ghost use Rattle.registers.specs.Memory.{chained};
ghost use Rattle.registers.specs.Modules.{modules_in};

use crate::effect::{Effect, Push, Write};
use numbers::Trap;
use opcode::instruction::{Base, Mode, Operation};
use registers::{Registers, access, table};

// Whether a base is a library that is not there.
fn is_no_base(table: &[u32], base: Base) -> bool
    ensures { (copy : List ℕ) → result ≡ no_base (modules_in table.now copy) base }
{
    match base {
        Base::Local | Base::Global | Base::Constant | Base::Popped => false,
        Base::External(l) => table::is_no_library(table, l),
    }
}

// What an offset is counted from; `popped` is the word that the stack gives for an address.
fn base_of(table: &[u32], q: Registers, m: &[u32], popped: u32, base: Base) -> usize
    requires { length table.now ≤ 80 }
    ensures { ((copy : List ℕ) → result ≡ base_of (modules_in table.now copy) q m.now popped base)
        × (result < 0x40_0000_0000) }
{
    match base {
        Base::Local => q.fp as usize,
        Base::Global => q.gp as usize,
        Base::Constant => access::word_at(m, q.gp.saturating_sub(1) as usize) as usize,
        Base::Popped => popped as usize,
        Base::External(l) => table::globals_start(table, l),
    }
}

// LOAD_L, _G, _T, _F, _E; `popped` is LOAD_F's address word.
pub fn load_effect(
    table: &[u32],
    q: Registers,
    m: &[u32],
    next: u32,
    base: Base,
    mode: Mode,
    offset: u32,
    popped: u32,
) -> Effect
    requires { length table.now ≤ 80 }
    ensures { (copy : List ℕ)
        → result ≡ load_effect (modules_in table.now copy) q m.now next base mode offset popped }
{
    if is_no_base(table, base) {
        return Effect::Trap(Trap::Uncallable);
    }
    let a = base_of(table, q, m, popped, base) + (offset as usize);
    if !access::is_live(q, a, shape::words_in(mode) as usize) {
        return Effect::Trap(Trap::NotLive);
    }
    Effect::Go(
        shape::popped_words(base),
        loaded(m, a, mode),
        Write::NoWrite,
        q.moved(next),
    )
}

// One word of memory, or two.
fn loaded(m: &[u32], a: usize, mode: Mode) -> Push
    requires { a ≤ 0xFFFF_FFFF }
    ensures { result ≡ loaded m.now a mode }
{
    match mode {
        Mode::Normal => Push::PushOne(access::word_at(m, a)),
        Mode::Double => Push::PushTwo(access::word_at(m, a), access::word_at(m, a + 1)),
    }
}

// LOAD_A_L, _G, _T, _F, _E; `popped` is LOAD_A_F's address word.
pub fn load_address_effect(
    table: &[u32],
    q: Registers,
    m: &[u32],
    next: u32,
    base: Base,
    offset: u32,
    popped: u32,
) -> Effect
    requires { length table.now ≤ 80 }
    ensures { (copy : List ℕ)
        → result ≡ load_address_effect (modules_in table.now copy) q m.now next base offset popped }
{
    if is_no_base(table, base) {
        return Effect::Trap(Trap::Uncallable);
    }
    let a = base_of(table, q, m, popped, base) + (offset as usize);
    if a < 0x1_0000_0000 {
        return push_effect(q, next, shape::popped_words(base), a as u32);
    }
    Effect::Trap(Trap::OutOfRange)
}

// STOR_L, _G, _F, _E, of one word or two; `popped` is STOR_F's address word.
pub fn store_effect(
    table: &[u32],
    frames: u32,
    q: Registers,
    m: &[u32],
    next: u32,
    base: Base,
    mode: Mode,
    offset: u32,
    popped: u32,
    x: u32,
    y: u32,
) -> Effect
    requires table_len_bound { length table.now ≤ 80 }
    requires calls_value { chained m.now frames q.fp q.calls ≡ true }
    ensures { (copy : List ℕ)
        → result ≡ store_effect (modules_in table.now copy) q m.now next base mode offset popped x y }
{
    if is_no_base(table, base) {
        return Effect::Trap(Trap::Uncallable);
    }
    let a = base_of(table, q, m, popped, base) + (offset as usize);
    let pops = shape::popped_words(base) + shape::words_in(mode);
    if !access::is_live(q, a, shape::words_in(mode) as usize) {
        return Effect::Trap(Trap::NotLive);
    }
    if is_any_protected(table, frames, q, m, a, mode) {
        return Effect::Trap(Trap::Protected);
    }
    Effect::Go(
        pops,
        Push::NoPush,
        stored(a as u32, mode, x, y),
        q.moved(next),
    )
}

// Whether a store of one word or two to `a` on is refused.
fn is_any_protected(
    table: &[u32],
    frames: u32,
    q: Registers,
    m: &[u32],
    a: usize,
    mode: Mode,
) -> bool
    requires table_len_bound { length table.now ≤ 80 }
    requires calls_value { chained m.now frames q.fp q.calls ≡ true }
    requires a_bound { a ≤ 0xFFFF_FFFF }
    ensures { (copy : List ℕ) → result ≡ protects_any (modules_in table.now copy) q m.now a mode }
{
    match mode {
        Mode::Normal => access::is_protected(table, frames, q, m, a),
        Mode::Double => {
            access::is_protected(table, frames, q, m, a)
                || access::is_protected(table, frames, q, m, a + 1)
        }
    }
}

fn stored(a: u32, mode: Mode, x: u32, y: u32) -> Write
    ensures { result ≡ stored a mode x y }
{
    match mode {
        Mode::Normal => Write::WriteOne(a, x),
        Mode::Double => Write::WriteTwo(a, x, y),
    }
}

// One word in the place of those that go.
pub fn push_effect(q: Registers, next: u32, pops: u32, x: u32) -> Effect
    ensures { result ≡ push_effect q next pops x }
{
    Effect::Go(pops, Push::PushOne(x), Write::NoWrite, q.moved(next))
}

// An operation on words.
pub fn operate_effect(wraps: bool, q: Registers, next: u32, op: Operation, x: u32, y: u32) -> Effect
    ensures { result ≡ operate_effect wraps q next op x y }
{
    match operate::operation::operation_value(wraps, op, x, y) {
        Ok(x) => push_effect(q, next, shape::operand_words(op), x),
        Err(trap) => Effect::Trap(trap),
    }
}

// ALLOC.
#[tactic(auto, unfolding(crate::specs::Data::alloc_effect))]
pub fn alloc_effect(q: Registers, m: &[u32], next: u32, size: u32) -> Effect
    requires { length m.now ≤ 16384 }
    ensures { result ≡ alloc_effect q m.now next size }
{
    let mp = (q.mp as usize) + (size as usize);
    if m.len() < mp {
        return Effect::Trap(Trap::MemoryFull);
    }
    Effect::Go(
        1,
        Push::PushOne(q.mp),
        Write::NoWrite,
        q.sized(next, mp as u32),
    )
}

// FREE.
pub fn free_effect(q: Registers, next: u32, size: u32) -> Effect
    ensures { result ≡ free_effect q next size }
{
    if (q.mp as usize) < (q.fp as usize) + (size as usize) {
        return Effect::Trap(Trap::BelowFrame);
    }
    Effect::Go(1, Push::NoPush, Write::NoWrite, q.sized(next, q.mp - size))
}
