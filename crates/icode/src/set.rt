// Check, load and run of sets of modules: records and results lists one after another, and a directory of four words a module.
ghost use Rattle.std.specs.Prelude.{true, List, [], ◌∷◌, ◌≡◌, ℕ};
ghost use Rattle.words.specs.Refusal.{◌when◌};
ghost use Rattle.module_set.specs.Members.{members_of};
ghost use Rattle.relocation.specs.Relocation.{after_set};
ghost use Rattle.workspace.specs.Checking.{checking};
ghost use Rattle.verifier.specs.Check.{set_check};
ghost use Rattle.numbers.specs.Number.{number_of};
ghost use Rattle.icode.specs.Bench.{set_state, loaded_as, bench_load, ran_as, bench_set_run};

use crate::state_words;
use numbers::Refusal;

#[unsafe(no_mangle)]
pub extern "C" fn icode_set_check(
    records: &[u8],
    results: &[u8],
    directory: &[u32],
    own: u32,
    workspace: &mut [u16],
) -> u32
    ensures { checking result workspace.new
        ≡ set_check (members_of records.now results.now directory.now) own workspace.old }
{
    let checked = verifier::check::check_set(records, results, directory, own as usize, workspace);
    numbers::number(checked)
}

// The set's refusal, or another where it has none. Where all lengths are taken, load and run answer it.
fn refusal_or(records: &[u8], directory: &[u32], other: Refusal) -> Refusal
    ensures { (lists : List ℕ) →
        number_of result ≡ after_set (members_of records.now lists directory.now) (number_of other when true ∷ []) }
{
    match relocation::number::set_number(records, directory) {
        Ok(()) => other,
        Err(refusal) => refusal,
    }
}

// The results lists count for nothing.
#[unsafe(no_mangle)]
pub extern "C" fn icode_bench_set_load(
    records: &[u8],
    directory: &[u32],
    parameters: &[u32],
    copy: &mut [u8],
    memory: &mut [u32],
    stack: &[u32],
    state: &mut [u32],
) -> u32
    ensures { (lists : List ℕ) → loaded_as result copy.new memory.new state.new
        ≡ bench_load set_state (members_of records.now lists directory.now) parameters.now
        copy.old memory.old stack.now state.old }
{
    if state.len() != 7 {
        return refusal_or(records, directory, Refusal::Room).number();
    }
    match load::load_set(records, directory, parameters, copy, memory, stack) {
        Ok(q) => {
            state_words::write_set_state(state, q, 0);
            0
        }
        Err(refused) => refused.number(),
    }
}

// Runs with at most so many steps at once (machine's `run_set_by`), and writes the outcome and the state.
fn bench_set_run(
    at_once: u32,
    records: &[u8],
    directory: &[u32],
    budget: u32,
    copy: &[u8],
    memory: &mut [u32],
    stack: &mut [u32],
    state: &mut [u32],
    outcome: &mut [u32],
) -> u32
    ensures { (lists : List ℕ) →
        ran_as result memory.new stack.new state.new outcome.new
        ≡ bench_set_run (members_of records.now lists directory.now) copy.now budget
        memory.old stack.old state.old outcome.old }
{
    if state.len() != 7 {
        return refusal_or(records, directory, Refusal::State).number();
    }
    if outcome.len() < 4 {
        return refusal_or(records, directory, Refusal::State).number();
    }
    let q = state_words::read_state(state);
    let member = state[6];
    let answer = machine::run_set_by(
        at_once, records, directory, copy, budget, member, q, memory, stack,
    );
    match answer {
        Ok(e) => {
            state_words::write_set_outcome(outcome, e);
            state_words::write_set_state(state, e.registers, e.member);
            0
        }
        Err(refusal) => refusal.number(),
    }
}

#[unsafe(no_mangle)]
pub extern "C" fn icode_bench_set_run(
    records: &[u8],
    directory: &[u32],
    budget: u32,
    copy: &[u8],
    memory: &mut [u32],
    stack: &mut [u32],
    state: &mut [u32],
    outcome: &mut [u32],
) -> u32
    ensures { (lists : List ℕ) →
        ran_as result memory.new stack.new state.new outcome.new
        ≡ bench_set_run (members_of records.now lists directory.now) copy.now budget
        memory.old stack.old state.old outcome.old }
{
    icode_bench_set_run_by(
        0xFFFF_FFFF,
        records,
        directory,
        budget,
        copy,
        memory,
        stack,
        state,
        outcome,
    )
}

#[unsafe(no_mangle)]
pub extern "C" fn icode_bench_set_run_by(
    at_once: u32,
    records: &[u8],
    directory: &[u32],
    budget: u32,
    copy: &[u8],
    memory: &mut [u32],
    stack: &mut [u32],
    state: &mut [u32],
    outcome: &mut [u32],
) -> u32
    ensures { (lists : List ℕ) →
        ran_as result memory.new stack.new state.new outcome.new
        ≡ bench_set_run (members_of records.now lists directory.now) copy.now budget
        memory.old stack.old state.old outcome.old }
{
    bench_set_run(
        at_once, records, directory, budget, copy, memory, stack, state, outcome,
    )
}
