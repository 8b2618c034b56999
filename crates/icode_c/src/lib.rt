// The archive for C and C++, as include/icode.h declares it: each function is the one of that name in crate icode, with its promise.
#![tactic(auto)]

ghost use Rattle.std.specs.Prelude.{◌≡◌, ◌≤◌, length, List, ℕ};
ghost use Rattle.record.specs.Number.{record_number, line_span};
ghost use Rattle.opcode.specs.Decode.{decode_at};
ghost use Rattle.verifier.specs.Check.{check_of, set_check};
ghost use Rattle.workspace.specs.Checking.{checking};
ghost use Rattle.report.specs.Report.{output, printed, text_of};
ghost use Rattle.icode.specs.Interface.{line_code, span_reply, decode_reply};
ghost use Rattle.icode.specs.Mending.{reply, mend_reply};
ghost use Rattle.module_set.specs.Members.{members_of};
ghost use Rattle.icode.specs.Bench.{record_load, ran_as, record_run, set_state, loaded_as, bench_load, bench_set_run};

#[unsafe(no_mangle)]
pub extern "C" fn icode_record_number(bytes: &[u8]) -> u32
    ensures { result ≡ record_number bytes.now }
{
    icode::icode_record_number(bytes)
}

#[unsafe(no_mangle)]
pub extern "C" fn icode_line(bytes: &[u8], offset: u32) -> u64
    ensures { result ≡ line_code (line_span bytes.now offset) }
{
    icode::icode_line(bytes, offset)
}

#[unsafe(no_mangle)]
pub extern "C" fn icode_line_span(bytes: &[u8], offset: u32, span: &mut [u32]) -> u32
    ensures { output result span.new ≡ span_reply (line_span bytes.now offset) span.old }
{
    icode::icode_line_span(bytes, offset, span)
}

#[unsafe(no_mangle)]
pub extern "C" fn icode_check(bytes: &[u8], results: &[u8], workspace: &mut [u16]) -> u32
    ensures { checking result workspace.new ≡ check_of bytes.now results.now workspace.old }
{
    icode::icode_check(bytes, results, workspace)
}

// Run-and-report with memory and stack of its own. A buffer of 32,768 bytes never comes back empty.
#[unsafe(no_mangle)]
pub extern "C" fn icode_report(file: &[u8], out: &mut [u8]) -> usize
    ensures out_after { output result out.new ≡ printed (text_of file.now) out.old }
    ensures lower_bound { 32768 ≤ length out.old → 1 ≤ result }
{
    icode::icode_report(file, out)
}

// For the tests: the instruction at a place of the code, within a limit.
#[unsafe(no_mangle)]
pub extern "C" fn icode_bench_decode(code: &[u8], limit: usize, at: usize, out: &mut [u32]) -> u32
    ensures { output result out.new ≡ decode_reply (decode_at code.now limit at) at out.old }
{
    icode::icode_bench_decode(code, limit, at, out)
}

#[unsafe(no_mangle)]
pub extern "C" fn icode_mend(
    bytes: &[u8],
    out: &mut [u8],
    places: &mut [u32],
    counts: &mut [u32],
) -> u32
    ensures { reply result out.new places.new counts.new
        ≡ mend_reply bytes.now out.old places.old counts.old }
{
    icode::mending::icode_mend(bytes, out, places, counts)
}

#[unsafe(no_mangle)]
pub extern "C" fn icode_bench_load(
    bytes: &[u8],
    parameters: &[u32],
    memory: &mut [u32],
    stack: &[u32],
    state: &mut [u32],
) -> u32
    ensures { let L =
        record_load bytes.now parameters.now memory.old stack.now state.old in
        (result ≡ L.answer) × (memory.new ≡ L.memory) × (state.new ≡ L.state) }
{
    icode::bench::icode_bench_load(bytes, parameters, memory, stack, state)
}

#[unsafe(no_mangle)]
pub extern "C" fn icode_bench_run(
    bytes: &[u8],
    budget: u32,
    memory: &mut [u32],
    stack: &mut [u32],
    state: &mut [u32],
    outcome: &mut [u32],
) -> u32
    ensures { ran_as result memory.new stack.new state.new outcome.new
        ≡ record_run bytes.now budget memory.old stack.old
        state.old outcome.old }
{
    icode::bench::icode_bench_run(bytes, budget, memory, stack, state, outcome)
}

#[unsafe(no_mangle)]
pub extern "C" fn icode_bench_run_by(
    at_once: u32,
    bytes: &[u8],
    budget: u32,
    memory: &mut [u32],
    stack: &mut [u32],
    state: &mut [u32],
    outcome: &mut [u32],
) -> u32
    ensures { ran_as result memory.new stack.new state.new outcome.new
        ≡ record_run bytes.now budget memory.old stack.old
        state.old outcome.old }
{
    icode::bench::icode_bench_run_by(at_once, bytes, budget, memory, stack, state, outcome)
}

#[unsafe(no_mangle)]
pub extern "C" fn icode_set_check(
    records: &[u8],
    results: &[u8],
    directory: &[u32],
    own: u32,
    workspace: &mut [u16],
) -> u32
    ensures { checking result workspace.new
        ≡ set_check (members_of records.now results.now directory.now) own workspace.old }
{
    icode::set::icode_set_check(records, results, directory, own, workspace)
}

// The results lists count for nothing.
#[unsafe(no_mangle)]
pub extern "C" fn icode_bench_set_load(
    records: &[u8],
    directory: &[u32],
    parameters: &[u32],
    copy: &mut [u8],
    memory: &mut [u32],
    stack: &[u32],
    state: &mut [u32],
) -> u32
    ensures { (lists : List ℕ) → loaded_as result copy.new memory.new state.new
        ≡ bench_load set_state (members_of records.now lists directory.now) parameters.now
        copy.old memory.old stack.now state.old }
{
    icode::set::icode_bench_set_load(records, directory, parameters, copy, memory, stack, state)
}

#[unsafe(no_mangle)]
pub extern "C" fn icode_bench_set_run(
    records: &[u8],
    directory: &[u32],
    budget: u32,
    copy: &[u8],
    memory: &mut [u32],
    stack: &mut [u32],
    state: &mut [u32],
    outcome: &mut [u32],
) -> u32
    ensures { (lists : List ℕ) →
        ran_as result memory.new stack.new state.new outcome.new
        ≡ bench_set_run (members_of records.now lists directory.now) copy.now budget
        memory.old stack.old state.old outcome.old }
{
    icode::set::icode_bench_set_run(
        records, directory, budget, copy, memory, stack, state, outcome,
    )
}

#[unsafe(no_mangle)]
pub extern "C" fn icode_bench_set_run_by(
    at_once: u32,
    records: &[u8],
    directory: &[u32],
    budget: u32,
    copy: &[u8],
    memory: &mut [u32],
    stack: &mut [u32],
    state: &mut [u32],
    outcome: &mut [u32],
) -> u32
    ensures { (lists : List ℕ) →
        ran_as result memory.new stack.new state.new outcome.new
        ≡ bench_set_run (members_of records.now lists directory.now) copy.now budget
        memory.old stack.old state.old outcome.old }
{
    icode::set::icode_bench_set_run_by(
        at_once, records, directory, budget, copy, memory, stack, state, outcome,
    )
}
