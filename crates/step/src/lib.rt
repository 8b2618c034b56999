// A step: decode, find the stack words, work out the effect, and carry it out.
#![tactic(auto)]

ghost use Rattle.std.specs.Prelude.{◌≡◌, true, ◌≤◌, ◌<◌, ◌-◌, length, take, drop};
ghost use Rattle.std.proofs.lemmas.List.Edits.{sets};
ghost use Rattle.effect.specs.Data.{pushes};
ghost use Rattle.registers.specs.Modules.{modules_in, frames_start};
ghost use Rattle.registers.specs.Program.{program};
ghost use Rattle.registers.specs.State.{state};
ghost use Rattle.state.specs.Fits.{bounded};
ghost use Rattle.step.specs.Step.{left, trapping, pushed, written, code_after, apply, step_of};

use effect::effect::{Effect, Push, Write};
use numbers::Trap;
use opcode::format::FormatSheet;
use registers::{Attributes, Registers, table};

// The words of `src` copied to the front of `dst`, as many as it has room for.
// Kept: a loop, since `copy_from_slice` takes memmove, and the library for C takes memset alone (include/icode.h).
fn copy_words(dst: &mut [u32], src: &[u32])
    ensures { dst.new ≡ sets dst.old 0 src.now }
{
    for i in 0..src.len() {
        words::set_word(dst, i, src[i]);
    }
}

// `n` words of the stack from `low` on, moved into memory from `a` on.
fn move_words(memory: &mut [u32], a: u32, stack: &[u32], low: usize, n: u32)
    ensures { memory.new ≡ sets memory.old a (take n (drop low stack.now)) }
{
    let from = a as usize;
    if from <= memory.len() && low <= stack.len() {
        let words = &stack[low..];
        copy_words(&mut memory[from..], &words[..words.len().min(n as usize)]);
    }
}

fn write_words(memory: &mut [u32], stack: &[u32], low: usize, pops: u32, write: Write)
    ensures { memory.new ≡ written memory.old (take pops (drop low stack.now)) write }
{
    match write {
        Write::NoWrite => {}
        Write::WriteOne(a, x) => {
            words::set_word(memory, a as usize, x);
        }
        Write::WriteTwo(a, x, y) => {
            words::set_word(memory, a as usize, x);
            words::set_word(memory, (a as usize) + 1, y);
        }
        Write::WriteThree(a, x, y, z) => {
            words::set_word(memory, a as usize, x);
            words::set_word(memory, (a as usize) + 1, y);
            words::set_word(memory, (a as usize) + 2, z);
        }
        Write::WritePopped(a) => {
            move_words(memory, a, stack, low, pops);
        }
    }
}

fn push_words(stack: &mut [u32], low: usize, push: Push)
    ensures { stack.new ≡ sets stack.old low (pushed push) }
{
    match push {
        Push::NoPush => {}
        Push::PushOne(x) => {
            words::set_word(stack, low, x);
        }
        Push::PushTwo(x, y) => {
            words::set_word(stack, low, x);
            if low < stack.len() {
                words::set_word(stack, low + 1, y);
            }
        }
    }
}

// The place of the lowest of the words that go.
fn low_word(height: u32, pops: u32) -> usize
    ensures { (result ≡ height - pops) × (result < 0x1_0000_0000) }
{
    height.saturating_sub(pops) as usize
}

fn push_count(push: Push) -> usize
    ensures { result ≡ pushes push }
{
    match push {
        Push::NoPush => 0,
        Push::PushOne(_) => 1,
        Push::PushTwo(_, _) => 2,
    }
}

// How many bytes the code has that is gone to with another GP, or stays.
fn code_size(table: &[u32], copy: &[u8], code: &[u8], attributes: Attributes, gp: u32) -> usize
    requires { length table.now ≤ 80 }
    ensures { result
        ≡ length (code_after (program code.now attributes (modules_in table.now copy.now)) gp) }
{
    if gp == attributes.globals {
        return code.len();
    }
    let k = table::number_at(table, gp as usize);
    if table::count(table) <= k {
        return 0;
    }
    words::part(
        copy,
        table::row_word(table, k, 0),
        table::row_word(table, k, 1),
    )
    .len()
}

// The machine: its registers. A step is a method here, since a method stands in the crate of its type.
#[derive(Clone, Copy)]
pub struct Machine {
    pub registers: Registers,
}

// How a step ended.
#[derive(Clone, Copy)]
pub enum Outcome {
    Went,
    Finished,
    Trapped(Trap),
}

// A step's outcome, and the machine after it.
#[derive(Clone, Copy)]
pub struct Stepped {
    pub outcome: Outcome,
    pub machine: Machine,
}

impl Machine {
    fn trapped(self, trap: Trap) -> Stepped
        ensures { result ≡ trapping self trap }
    {
        Stepped {
            outcome: Outcome::Trapped(trap),
            machine: self,
        }
    }

    // Carries an effect out.
    fn apply(
        self,
        table: &[u32],
        copy: &[u8],
        code: &[u8],
        attributes: Attributes,
        memory: &mut [u32],
        stack: &mut [u32],
        e: Effect,
    ) -> Stepped
        requires table_len_bound { length table.now ≤ 80 }
        requires stack_len_bound { length stack.old ≤ 1024 }
        ensures { left result memory.new stack.new
            ≡ apply (program code.now attributes (modules_in table.now copy.now))
            (state self.registers memory.old stack.old) e }
    {
        match e {
            Effect::Trap(trap) => self.trapped(trap),
            Effect::Finish => Stepped {
                outcome: Outcome::Finished,
                machine: self,
            },
            Effect::Go(pops, push, write, next) => {
                let low = low_word(self.registers.height, pops);
                let height = low + push_count(push);
                if stack.len() < height {
                    return self.trapped(Trap::StackFull);
                }
                if code_size(table, copy, code, attributes, next.gp) <= (next.pc as usize) {
                    return self.trapped(Trap::Outside);
                }
                write_words(memory, stack, low, pops, write);
                push_words(stack, low, push);
                Stepped {
                    outcome: Outcome::Went,
                    machine: Machine {
                        registers: next.raised(height as u32),
                    },
                }
            }
        }
    }

    // One step; a trap leaves registers, memory and stack as they were.
    pub fn step(
        self,
        formats: FormatSheet<'_>,
        table: &[u32],
        copy: &[u8],
        code: &[u8],
        attributes: Attributes,
        memory: &mut [u32],
        stack: &mut [u32],
    ) -> Stepped
        requires code_len_bound { length code.now ≤ 4096 }
        requires table_len_bound { length table.now ≤ 80 }
        requires copy_bound { frames_start (modules_in table.now copy.now) ≤ 16384 }
        requires stack_value { bounded attributes (state self.registers memory.old stack.old) ≡ true }
        ensures { left result memory.new stack.new
            ≡ step_of (program code.now attributes (modules_in table.now copy.now))
            (state self.registers memory.old stack.old) }
    {
        let q = self.registers;
        match opcode::decode(formats, code, code.len(), q.pc as usize) {
            Err(error) => self.trapped(Trap::from(error)),
            Ok((i, next)) => {
                if q.height < shape::needed_words(i) {
                    return self.trapped(Trap::TooFewWords);
                }
                let e = execute::execute(
                    table,
                    copy,
                    code,
                    attributes,
                    q,
                    memory,
                    stack,
                    next as u32,
                    i,
                );
                self.apply(table, copy, code, attributes, memory, stack, e)
            }
        }
    }
}
