// Jumps, loops, switches and calls, as effects.
#![tactic(auto)]

ghost use Rattle.std.specs.Prelude.{◌≡◌, true, List, ℕ, ◌≤◌, length};
ghost use Rattle.std.specs.Int.{w32};
ghost use Rattle.std.proofs.Common.{to_z};
ghost use Rattle.control.specs.Control.{jump_effect, jump_c_effect, jump_tf_effect, beyond, iter_effect, round_effect, sum_effect, next_sum};
ghost use Rattle.control.specs.Control.{next_effect, switch_distance, switch_effect, call_effect, call_external_effect, enter_effect, rtn_effect};
ghost use Rattle.registers.specs.Memory.{chained};
ghost use Rattle.registers.specs.Modules.{modules_in, frames_start};
ghost use Rattle.registers.specs.Changes.{moved};

use effect::effect::{Effect, Push, Write};
use numbers::Trap;
use opcode::instruction::Arithmetic;
use registers::{Registers, access, table};
use shape::Table;

// So many words go, and the place is another.
pub fn jump_to(q: Registers, pops: u32, place: u32) -> Effect
    ensures { result ≡ Effect.Go pops Push.NoPush Write.NoWrite (moved q place) }
{
    Effect::Go(pops, Push::NoPush, Write::NoWrite, q.moved(place))
}

pub fn jump_effect(q: Registers, distance: u32) -> Effect
    ensures { result ≡ jump_effect q distance }
{
    jump_to(q, 0, operand::place_at(q.pc, distance))
}

// JUMP_C.
pub fn jump_c_effect(q: Registers, next: u32, distance: u32, b: u32) -> Effect
    ensures { result ≡ jump_c_effect q next distance b }
{
    if 1 < b {
        return Effect::Trap(Trap::NotBoolean);
    }
    if b == 0 {
        return jump_to(q, 1, operand::place_at(q.pc, distance));
    }
    jump_to(q, 1, next)
}

// JUMP_T and JUMP_F: the boolean stays where it is `truth`.
pub fn jump_tf_effect(q: Registers, next: u32, truth: u32, distance: u32, b: u32) -> Effect
    ensures { result ≡ jump_tf_effect q next truth distance b }
{
    if 1 < b {
        return Effect::Trap(Trap::NotBoolean);
    }
    if b == truth {
        return jump_to(q, 0, operand::place_at(q.pc, distance));
    }
    jump_to(q, 1, next)
}

// Whether a loop value is past the last one, by the sign of the step.
pub fn is_beyond(step: u32, x: u32, last: u32) -> bool
    ensures { result ≡ beyond (to_z w32 step) (to_z w32 x) (to_z w32 last) }
{
    if integer::below(0, step) {
        return integer::below(last, x);
    }
    if integer::below(step, 0) {
        return integer::below(x, last);
    }
    false
}

// ITER.
#[tactic(auto, unfolding(crate::specs::Control::iter_effect))]
pub fn iter_effect(
    table: &[u32],
    frames: u32,
    q: Registers,
    m: &[u32],
    next: u32,
    distance: u32,
    a: u32,
    first: u32,
    last: u32,
    step: u32,
) -> Effect
    requires table_len_bound { length table.now ≤ 80 }
    requires calls_value { chained m.now frames q.fp q.calls ≡ true }
    ensures { (copy : List ℕ)
        → result ≡ iter_effect (modules_in table.now copy) q m.now next distance a first last step }
{
    if is_beyond(step, first, last) {
        return jump_to(q, 4, operand::place_at(q.pc, distance));
    }
    if !access::is_live(q, a as usize, 1) {
        return Effect::Trap(Trap::NotLive);
    }
    if access::is_protected(table, frames, q, m, a as usize) {
        return Effect::Trap(Trap::Protected);
    }
    Effect::Go(
        0,
        Push::PushOne(next),
        Write::WriteOne(a, first),
        q.moved(next),
    )
}

// NEXT with a sum in the range: it is stored, and then the loop is left or goes round.
fn round_effect(q: Registers, next: u32, a: u32, last: u32, step: u32, label: u32, x: u32) -> Effect
    ensures { result ≡ round_effect q next a last step label x }
{
    if is_beyond(step, x, last) {
        return Effect::Go(5, Push::NoPush, Write::WriteOne(a, x), q.moved(next));
    }
    Effect::Go(0, Push::NoPush, Write::WriteOne(a, x), q.moved(label))
}

// NEXT with its sum: one outside the signed range leaves the loop, and the variable keeps its value.
fn sum_effect(
    q: Registers,
    next: u32,
    a: u32,
    last: u32,
    step: u32,
    label: u32,
    sum: Result<u32, Trap>,
) -> Effect
    ensures { result ≡ sum_effect q next a last step label sum }
{
    match sum {
        Ok(x) => round_effect(q, next, a, last, step, label, x),
        Err(_) => jump_to(q, 5, next),
    }
}

// NEXT.
pub fn next_effect(
    table: &[u32],
    frames: u32,
    q: Registers,
    m: &[u32],
    next: u32,
    a: u32,
    last: u32,
    step: u32,
    label: u32,
) -> Effect
    requires table_len_bound { length table.now ≤ 80 }
    requires calls_value { chained m.now frames q.fp q.calls ≡ true }
    ensures { (copy : List ℕ)
        → result ≡ next_effect (modules_in table.now copy) q m.now next a last step label }
{
    if !access::is_live(q, a as usize, 1) {
        return Effect::Trap(Trap::NotLive);
    }
    if access::is_protected(table, frames, q, m, a as usize) {
        return Effect::Trap(Trap::Protected);
    }
    sum_effect(q, next, a, last, step, label, next_sum(m, a, step))
}

// The loop variable with the step added.
#[tactic(auto, unfolding(crate::specs::Control::next_sum))]
fn next_sum(m: &[u32], a: u32, step: u32) -> Result<u32, Trap>
    ensures { result ≡ next_sum m.now a step }
{
    operate::arithmetic::signed_value(Arithmetic::Add, access::word_at(m, a as usize), step)
}

// The distance that a selector takes in a switch's table, or that of the ELSE part.
fn switch_distance(code: &[u8], at: usize, table: Table, n: u32, x: u32) -> u16
    ensures { result ≡ switch_distance code.now at table n x }
{
    match table {
        Table::Branches => {
            if x <= n {
                return switch_table::branch_distance(code, at, x);
            }
            switch_table::else_distance(code, at)
        }
        Table::Ranges => {
            let distance = switch_table::search_distance(code, at, n, x);
            if distance == 0 {
                return switch_table::else_distance(code, at);
            }
            distance
        }
    }
}

// SWITCH and SWITCH_X.
pub fn switch_effect(code: &[u8], q: Registers, table: Table, n: u32, x: u32) -> Effect
    ensures { result ≡ switch_effect code.now q table n x }
{
    let distance = switch_distance(code, q.pc as usize, table, n, x) as u32;
    Effect::Go(
        1,
        Push::PushOne(switch_table::exit_label(code, q.pc)),
        Write::NoWrite,
        q.moved(operand::place_at(q.pc, distance)),
    )
}

// CALL.
#[tactic(auto, unfolding(crate::specs::Control::call_effect))]
pub fn call_effect(code: &[u8], q: Registers, m: &[u32], next: u32, p: u32) -> Effect
    requires { length m.now ≤ 16384 }
    ensures { result ≡ call_effect code.now q m.now next p }
{
    if entries::is_no_callee(code, p) {
        return Effect::Trap(Trap::Uncallable);
    }
    if 64 <= q.calls {
        return Effect::Trap(Trap::CallsFull);
    }
    if m.len() < (q.mp as usize) + 2 {
        return Effect::Trap(Trap::MemoryFull);
    }
    let entry = entries::entry_at(code, p) as u32;
    Effect::Go(
        0,
        Push::NoPush,
        Write::WriteTwo(q.mp, q.fp, next),
        q.called(2, q.gp, entry),
    )
}

// CALL_E.
pub fn call_external_effect(
    table: &[u32],
    copy: &[u8],
    q: Registers,
    m: &[u32],
    next: u32,
    l: u32,
    p: u32,
) -> Effect
    requires table_len_bound { length table.now ≤ 80 }
    requires copy_bound { frames_start (modules_in table.now copy.now) ≤ 16384 }
    requires m_len_bound { length m.now ≤ 16384 }
    ensures { result ≡ call_external_effect (modules_in table.now copy.now) q m.now next l p }
{
    if table::is_no_library(table, l) {
        return Effect::Trap(Trap::Uncallable);
    }
    let k = l as usize;
    let code = words::part(
        copy,
        table::row_word(table, k, 0),
        table::row_word(table, k, 1),
    );
    if entries::is_no_callee(code, p) {
        return Effect::Trap(Trap::Uncallable);
    }
    if 64 <= q.calls {
        return Effect::Trap(Trap::CallsFull);
    }
    if m.len() < (q.mp as usize) + 3 {
        return Effect::Trap(Trap::MemoryFull);
    }
    let entry = entries::entry_at(code, p) as u32;
    let gp = table::globals_start(table, l) as u32;
    Effect::Go(
        0,
        Push::NoPush,
        Write::WriteThree(q.mp, q.gp, q.fp, access::negated(next)),
        q.called(3, gp, entry),
    )
}

// ENTER.
#[tactic(auto, unfolding(crate::specs::Control::enter_effect))]
pub fn enter_effect(q: Registers, m: &[u32], next: u32, parameters: u32, locals: u32) -> Effect
    requires { length m.now ≤ 16384 }
    ensures { result ≡ enter_effect q m.now next parameters locals }
{
    let mp = (q.mp as usize) + (parameters as usize) + (locals as usize);
    if m.len() < mp {
        return Effect::Trap(Trap::MemoryFull);
    }
    Effect::Go(
        parameters,
        Push::NoPush,
        Write::WritePopped(q.mp),
        q.sized(next, mp as u32),
    )
}

// RTN.
pub fn rtn_effect(frames: u32, q: Registers, m: &[u32]) -> Effect
    requires { chained m.now frames q.fp q.calls ≡ true }
    ensures { result ≡ rtn_effect q m.now }
{
    if q.calls == 0 {
        return Effect::Finish;
    }
    Effect::Go(0, Push::NoPush, Write::NoWrite, q.returned(m))
}
