// Run, of a set of modules and of a record by itself: the numbers of a set and 24, or steps up to the budget.
#![tactic(auto)]

ghost use Rattle.std.specs.Prelude.{◌≡◌, cond, List, ℕ, ◌/◌, ◌≤◌, ◌<◌, length};
ghost use Rattle.module_set.specs.Members.{members_of};
ghost use Rattle.registers.specs.Modules.{modules_in, frames_start};
ghost use Rattle.registers.specs.Program.{program_at};
ghost use Rattle.registers.specs.State.{state};
ghost use Rattle.state.specs.Fits.{fits};
ghost use Rattle.step.specs.Ready.{Short};
ghost use Rattle.numbers.specs.Number.{numbered};
ghost use Rattle.run.specs.Run.{ran, refused, answer_number, run_from, set_run_number, set_run, run_number, run_of};

pub mod steps;

use numbers::Refusal;
use registers::{Registers, table};
use run::Ended;
use step::Machine;

// Runs from a state of module `member`, or gives 24 where it does not fit.
fn run_rows(
    table: &[u32],
    copy: &[u8],
    at_once: u32,
    budget: u32,
    member: u32,
    q: Registers,
    memory: &mut [u32],
    stack: &mut [u32],
) -> Result<Ended, Refusal>
    requires table_len_bound { length table.now ≤ 80 }
    requires member_in_bounds { member < length table.now / 5 }
    requires by_index { (copy : List ℕ) → frames_start (modules_in table.now copy) ≤ 65536 }
    requires short { Short (modules_in table.now copy.now) }
    ensures { let Ms = modules_in table.now copy.now in
        let T = state q memory.old stack.old in
        ran q (numbered result) memory.new stack.new
        ≡ cond (fits (program_at Ms member) T) (run_from Ms budget 0 T) (refused 24 T) }
{
    let attributes = table::attributes_at(table, member as usize);
    if !state::state_fits(table, attributes, q, memory, stack) {
        return Err(Refusal::State);
    }
    let start = Machine { registers: q };
    Ok(steps::run_steps(table, copy, at_once, budget, start, memory, stack))
}

// Gives the numbers of a set and 24, or runs from a state of module `member`; refused, it changes nothing. At most `at_once` steps are
// done by the fast loop before each that the general step does; with 0 that does all. The answer is the same for each.
pub fn run_set_by(
    at_once: u32,
    records: &[u8],
    directory: &[u32],
    copy: &[u8],
    budget: u32,
    member: u32,
    q: Registers,
    memory: &mut [u32],
    stack: &mut [u32],
) -> Result<Ended, Refusal>
    ensures { (lists : List ℕ) →
        let S = members_of records.now lists directory.now in
        let T = state q memory.old stack.old in
        (ran q (numbered result) memory.new stack.new ≡ set_run S copy.now budget member T)
        × (answer_number (numbered result) ≡ set_run_number S copy.now member T) }
{
    relocation::number::set_number(records, directory)?;
    if !relocation::copy::is_copy(records, directory, copy) {
        return Err(Refusal::State);
    }
    let n = module_set::count(directory);
    if n <= (member as usize) {
        return Err(Refusal::State);
    }
    let mut rows = [0u32; 80];
    load::table::fill_table(records, directory, &mut rows);
    run_rows(
        &rows[..5 * n],
        copy,
        at_once,
        budget,
        member,
        q,
        memory,
        stack,
    )
}

// Does the same with as many steps at once as can be.
pub fn run_set(
    records: &[u8],
    directory: &[u32],
    copy: &[u8],
    budget: u32,
    member: u32,
    q: Registers,
    memory: &mut [u32],
    stack: &mut [u32],
) -> Result<Ended, Refusal>
    ensures { (lists : List ℕ) →
        let S = members_of records.now lists directory.now in
        let T = state q memory.old stack.old in
        (ran q (numbered result) memory.new stack.new ≡ set_run S copy.now budget member T)
        × (answer_number (numbered result) ≡ set_run_number S copy.now member T) }
{
    run_set_by(
        0xFFFF_FFFF,
        records,
        directory,
        copy,
        budget,
        member,
        q,
        memory,
        stack,
    )
}

// The same two of a record by itself, whose code is its copy.
pub fn run_by(
    at_once: u32,
    r: &[u8],
    budget: u32,
    q: Registers,
    memory: &mut [u32],
    stack: &mut [u32],
) -> Result<Ended, Refusal>
    ensures { (ran q (numbered result) memory.new stack.new
        ≡ run_of r.now budget (state q memory.old stack.old))
        × (answer_number (numbered result) ≡ run_number r.now (state q memory.old stack.old)) }
{
    relocation::number::single_number(r)?;
    let mut row = [0u32; 5];
    load::table::single_row(r, &mut row);
    run_rows(
        &row,
        header::code_of(r),
        at_once,
        budget,
        0,
        q,
        memory,
        stack,
    )
}

pub fn run(
    r: &[u8],
    budget: u32,
    q: Registers,
    memory: &mut [u32],
    stack: &mut [u32],
) -> Result<Ended, Refusal>
    ensures { (ran q (numbered result) memory.new stack.new
        ≡ run_of r.now budget (state q memory.old stack.old))
        × (answer_number (numbered result) ≡ run_number r.now (state q memory.old stack.old)) }
{
    run_by(0xFFFF_FFFF, r, budget, q, memory, stack)
}
