// Load and run of a record for the bench: code that was not checked may be loaded and run.
ghost use Rattle.std.specs.Prelude.{true, [], ◌∷◌, ◌≡◌};
ghost use Rattle.words.specs.Refusal.{◌when◌};
ghost use Rattle.module_set.specs.Members.{single};
ghost use Rattle.relocation.specs.Relocation.{after_set};
ghost use Rattle.numbers.specs.Number.{number_of};
ghost use Rattle.icode.specs.Bench.{record_load, ran_as, record_run};

use crate::state_words;
use numbers::Refusal;

// The record's refusal, or another where it has none. Where all lengths are taken, load and run answer it.
fn refusal_or(bytes: &[u8], other: Refusal) -> Refusal
    ensures { number_of result ≡ after_set (single bytes.now []) (number_of other when true ∷ []) }
{
    match relocation::number::single_number(bytes) {
        Ok(()) => other,
        Err(refusal) => refusal,
    }
}

#[unsafe(no_mangle)]
pub extern "C" fn icode_bench_load(
    bytes: &[u8],
    parameters: &[u32],
    memory: &mut [u32],
    stack: &[u32],
    state: &mut [u32],
) -> u32
    ensures { let L =
        record_load bytes.now parameters.now memory.old stack.now state.old in
        (result ≡ L.answer) × (memory.new ≡ L.memory) × (state.new ≡ L.state) }
{
    if state.len() != 6 {
        return refusal_or(bytes, Refusal::Room).number();
    }
    match load::load(bytes, parameters, memory, stack) {
        Ok(q) => {
            state_words::write_state(state, q);
            0
        }
        Err(refused) => refused.number(),
    }
}

// Runs with at most so many steps at once (machine's `run_by`), and writes the outcome and the state.
fn bench_run(
    at_once: u32,
    bytes: &[u8],
    budget: u32,
    memory: &mut [u32],
    stack: &mut [u32],
    state: &mut [u32],
    outcome: &mut [u32],
) -> u32
    ensures { ran_as result memory.new stack.new state.new outcome.new
        ≡ record_run bytes.now budget memory.old stack.old
        state.old outcome.old }
{
    if state.len() != 6 {
        return refusal_or(bytes, Refusal::State).number();
    }
    if outcome.len() != 3 {
        return refusal_or(bytes, Refusal::State).number();
    }
    let q = state_words::read_state(state);
    match machine::run_by(at_once, bytes, budget, q, memory, stack) {
        Ok(e) => {
            state_words::write_outcome(outcome, e);
            state_words::write_state(state, e.registers);
            0
        }
        Err(refusal) => refusal.number(),
    }
}

#[unsafe(no_mangle)]
pub extern "C" fn icode_bench_run(
    bytes: &[u8],
    budget: u32,
    memory: &mut [u32],
    stack: &mut [u32],
    state: &mut [u32],
    outcome: &mut [u32],
) -> u32
    ensures { ran_as result memory.new stack.new state.new outcome.new
        ≡ record_run bytes.now budget memory.old stack.old
        state.old outcome.old }
{
    bench_run(0xFFFF_FFFF, bytes, budget, memory, stack, state, outcome)
}

#[unsafe(no_mangle)]
pub extern "C" fn icode_bench_run_by(
    at_once: u32,
    bytes: &[u8],
    budget: u32,
    memory: &mut [u32],
    stack: &mut [u32],
    state: &mut [u32],
    outcome: &mut [u32],
) -> u32
    ensures { ran_as result memory.new stack.new state.new outcome.new
        ≡ record_run bytes.now budget memory.old stack.old
        state.old outcome.old }
{
    bench_run(at_once, bytes, budget, memory, stack, state, outcome)
}
