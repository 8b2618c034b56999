// What an instruction does with the stack words that it finds.
#![tactic(auto)]

ghost use Rattle.std.specs.Prelude.{◌≡◌, true, List, ℕ, ◌≤◌, ◌-◌, length};
ghost use Rattle.shape.specs.Shape.{needed};
ghost use Rattle.registers.specs.Memory.{read, chained};
ghost use Rattle.registers.specs.Modules.{modules_in, frames_start};
ghost use Rattle.registers.specs.Program.{program};
ghost use Rattle.registers.specs.State.{state};
ghost use Rattle.execute.specs.Execute.{executed};

use effect::data;
use effect::effect::{Effect, Push, Write};
use opcode::instruction::{Base, Instruction, Mode};
use registers::{Attributes, Registers, access};
use shape::Table;

// The stack word at a depth, 1 being the top.
fn peek(s: &[u32], q: Registers, depth: u32) -> u32
    ensures { result ≡ read s.now (q.height - depth) }
{
    access::word_at(s, q.height.saturating_sub(depth) as usize)
}

// STOR: the address, if it is popped, lies below the words.
fn execute_store(
    table: &[u32],
    attributes: Attributes,
    q: Registers,
    m: &[u32],
    s: &[u32],
    next: u32,
    base: Base,
    mode: Mode,
    offset: u32,
) -> Effect
    requires table_len_bound { length table.now ≤ 80 }
    requires calls_value { chained m.now attributes.frames q.fp q.calls ≡ true }
    requires offset_bound { needed (Instruction.Store base mode offset) ≤ q.height }
    ensures { (code copy : List ℕ) → result
        ≡ executed (program code attributes (modules_in table.now copy)) (state q m.now s.now) next (Instruction.Store base mode offset) }
{
    let words = shape::words_in(mode);
    let popped = peek(s, q, shape::popped_words(base) + words);
    let x = peek(s, q, words);
    let y = peek(s, q, words - 1);
    data::store_effect(
        table,
        attributes.frames,
        q,
        m,
        next,
        base,
        mode,
        offset,
        popped,
        x,
        y,
    )
}

// ITER: four words.
fn execute_iter(
    table: &[u32],
    attributes: Attributes,
    q: Registers,
    m: &[u32],
    s: &[u32],
    next: u32,
    distance: u32,
) -> Effect
    requires table_len_bound { length table.now ≤ 80 }
    requires calls_value { chained m.now attributes.frames q.fp q.calls ≡ true }
    requires le_height { 4 ≤ q.height }
    ensures { (code copy : List ℕ) → result
        ≡ executed (program code attributes (modules_in table.now copy)) (state q m.now s.now) next (Instruction.Iter distance) }
{
    let a = peek(s, q, 4);
    let first = peek(s, q, 3);
    let last = peek(s, q, 2);
    let step = peek(s, q, 1);
    control::iter_effect(
        table,
        attributes.frames,
        q,
        m,
        next,
        distance,
        a,
        first,
        last,
        step,
    )
}

// NEXT: four words, and the label above them.
fn execute_next(
    table: &[u32],
    attributes: Attributes,
    q: Registers,
    m: &[u32],
    s: &[u32],
    next: u32,
) -> Effect
    requires table_len_bound { length table.now ≤ 80 }
    requires calls_value { chained m.now attributes.frames q.fp q.calls ≡ true }
    requires le_height { 5 ≤ q.height }
    ensures { (code copy : List ℕ) → result
        ≡ executed (program code attributes (modules_in table.now copy)) (state q m.now s.now) next Instruction.Next }
{
    let a = peek(s, q, 5);
    let last = peek(s, q, 3);
    let step = peek(s, q, 2);
    let label = peek(s, q, 1);
    control::next_effect(table, attributes.frames, q, m, next, a, last, step, label)
}

// The effect of an instruction whose stack words are there.
pub fn execute(
    table: &[u32],
    copy: &[u8],
    code: &[u8],
    attributes: Attributes,
    q: Registers,
    m: &[u32],
    s: &[u32],
    next: u32,
    i: Instruction,
) -> Effect
    requires table_len_bound { length table.now ≤ 80 }
    requires calls_value { chained m.now attributes.frames q.fp q.calls ≡ true }
    requires copy_bound { frames_start (modules_in table.now copy.now) ≤ 16384 }
    requires m_len_bound { length m.now ≤ 16384 }
    requires i_bound { needed i ≤ q.height }
    ensures { result
        ≡ executed (program code.now attributes (modules_in table.now copy.now))
        (state q m.now s.now) next i }
{
    match i {
        Instruction::LoadConstant(n) => data::push_effect(q, next, 0, n),
        Instruction::Load(base, mode, offset) => {
            data::load_effect(table, q, m, next, base, mode, offset, peek(s, q, 1))
        }
        Instruction::LoadAddress(base, offset) => {
            data::load_address_effect(table, q, m, next, base, offset, peek(s, q, 1))
        }
        Instruction::Store(base, mode, offset) => {
            execute_store(table, attributes, q, m, s, next, base, mode, offset)
        }
        Instruction::Pop(n) => control::jump_to(q, n, next),
        Instruction::Swap => Effect::Go(
            2,
            Push::PushTwo(peek(s, q, 1), peek(s, q, 2)),
            Write::NoWrite,
            q.moved(next),
        ),
        Instruction::Nop => control::jump_to(q, 0, next),
        Instruction::Operate(op) => {
            let x = peek(s, q, shape::operand_words(op));
            data::operate_effect(attributes.wraps, q, next, op, x, peek(s, q, 1))
        }
        Instruction::Alloc => data::alloc_effect(q, m, next, peek(s, q, 1)),
        Instruction::Free => data::free_effect(q, next, peek(s, q, 1)),
        Instruction::Jump(distance) => control::jump_effect(q, distance),
        Instruction::JumpC(distance) => { control::jump_c_effect(q, next, distance, peek(s, q, 1)) }
        Instruction::JumpT(distance) => {
            control::jump_tf_effect(q, next, 1, distance, peek(s, q, 1))
        }
        Instruction::JumpF(distance) => {
            control::jump_tf_effect(q, next, 0, distance, peek(s, q, 1))
        }
        Instruction::Iter(distance) => execute_iter(table, attributes, q, m, s, next, distance),
        Instruction::Next => execute_next(table, attributes, q, m, s, next),
        Instruction::Switch(n) => {
            control::switch_effect(code, q, Table::Branches, n, peek(s, q, 1))
        }
        Instruction::SwitchX(n) => {
            control::switch_effect(code, q, Table::Ranges, n, peek(s, q, 1))
        }
        Instruction::Leave => control::jump_to(q, 1, peek(s, q, 1)),
        Instruction::Call(p) => control::call_effect(code, q, m, next, p),
        Instruction::CallExternal(l, p) => {
            control::call_external_effect(table, copy, q, m, next, l, p)
        }
        Instruction::Enter(parameters, words) => {
            control::enter_effect(q, m, next, parameters, words)
        }
        Instruction::Rtn => control::rtn_effect(attributes.frames, q, m),
    }
}
