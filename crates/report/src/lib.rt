// Run-and-report: a run file is checked, loaded and run, and its page is written into a lent buffer.
#![tactic(auto)]

ghost use Rattle.std.specs.Prelude.{◌≡◌, ◌≤◌, ◌<◌, length, take, drop};
ghost use Rattle.source.specs.Source.{line_at};
ghost use Rattle.text.specs.Text.{check_line, Wrote};
ghost use Rattle.run_file.specs.RunFile.{memory_words, stack_words};
ghost use Rattle.numbers.specs.Number.{number, number_of, numbered};
ghost use Rattle.report.specs.Report.{ended_text, answer_text, output, printed};
ghost use Rattle.report.specs.Buffers.{or_eight, ran_page, part_page, leaving, delivered, report_of};

use header::Header;
use numbers::Refusal;
use run::Ended;

// The source line of an offset, 0 outside the code.
fn line_at(r: &[u8], h: Header, offset: u32) -> u32
    ensures { result ≡ line_at r.now h offset }
{
    let Some(span) = source::lookup_at(r, h, offset) else {
        return 0;
    };
    span.line
}

// The page of a run that ended.
fn put_ended(out: &mut [u8], r: &[u8], e: Ended, memory: &[u32], stack: &[u32]) -> usize
    requires memory_len_bound { length memory.now ≤ 65536 }
    requires stack_len_bound { length stack.now ≤ 65536 }
    ensures { Wrote out.old 0 (ended_text r.now e memory.now stack.now) result out.new }
{
    let h = header::header_of(r);
    let registers = e.registers;
    let how = e.ending;
    let ending = run::end_number(how);
    let line = line_at(r, h, registers.pc);
    let end_at = text::put_check(out, 0, 0);
    let stack_at = text::put_end(out, end_at, ending, registers.pc, line, e.steps);
    let globals_at = text::put_list(
        out,
        stack_at,
        115,
        words::part(stack, 0, registers.height as usize),
    );
    text::put_list(
        out,
        globals_at,
        103,
        words::part(memory, 3, h.globals as usize),
    )
}

// The text is measured on an empty buffer first: one that is too short stays as it was.
fn print_check(out: &mut [u8], n: u32) -> usize
    ensures { output result out.new ≡ printed (check_line n) out.old }
{
    let length = text::put_check(&mut out[..0], 0, n);
    if out.len() < length {
        return 0;
    }
    text::put_check(out, 0, n)
}

fn print_ended(out: &mut [u8], r: &[u8], e: Ended, memory: &[u32], stack: &[u32]) -> usize
    requires memory_len_bound { length memory.now ≤ 65536 }
    requires stack_len_bound { length stack.now ≤ 65536 }
    ensures { output result out.new ≡ printed (ended_text r.now e memory.now stack.now) out.old }
{
    let length = put_ended(&mut out[..0], r, e, memory, stack);
    if out.len() < length {
        return 0;
    }
    put_ended(out, r, e, memory, stack)
}

fn print_answer(
    out: &mut [u8],
    r: &[u8],
    answer: Result<Ended, Refusal>,
    memory: &[u32],
    stack: &[u32],
) -> usize
    requires memory_len_bound { length memory.now ≤ 65536 }
    requires stack_len_bound { length stack.now ≤ 65536 }
    ensures { output result out.new ≡ printed (answer_text r.now (numbered answer) memory.now stack.now) out.old }
{
    match answer {
        Ok(e) => print_ended(out, r, e, memory, stack),
        Err(refusal) => print_check(out, refusal.number()),
    }
}

// The refusal that there is, or that of a stack that load doesn't take.
fn or_room(checked: Result<(), Refusal>) -> Refusal
    ensures { number_of result ≡ or_eight (number checked) }
{
    match checked {
        Ok(()) => Refusal::Room,
        Err(refusal) => refusal,
    }
}

// A run file with just the memory and the stack that it asks for.
fn run_and_print(
    f: &[u8],
    workspace: &mut [u16],
    parameters: &[u32],
    memory: &mut [u32],
    stack: &mut [u32],
    out: &mut [u8],
) -> usize
    requires memory_len_bound { length memory.old ≤ 65536 }
    requires stack_len_bound { length stack.old ≤ 65536 }
    ensures { leaving result out.new workspace.new memory.new stack.new ≡ delivered (ran_page f.now workspace.old parameters.now memory.old stack.old) out.old }
{
    let r = run_file::record_of(f);
    let results = run_file::results_of(f);
    let budget = run_file::budget_of(f);
    let answer = joined::check_load_run(r, results, workspace, parameters, budget, memory, stack);
    print_answer(out, r, answer, memory, stack)
}

// A well-formed run file; the rest of memory and stack stays.
fn run_page(
    f: &[u8],
    workspace: &mut [u16],
    memory: &mut [u32],
    stack: &mut [u32],
    out: &mut [u8],
) -> usize
    requires f_bound { memory_words f.now ≤ 4096 }
    requires f_bound_2 { stack_words f.now ≤ 1024 }
    requires memory_len { length memory.old ≡ 4096 }
    requires stack_len { length stack.old ≡ 1024 }
    ensures { leaving result out.new workspace.new memory.new stack.new ≡ delivered (part_page f.now workspace.old memory.old stack.old) out.old }
{
    let mut parameters = [0u32; 255];
    run_file::read_parameters(f, &mut parameters);
    let count = run_file::parameters_count(f);
    let words = run_file::memory_words(f) as usize;
    let depth = run_file::stack_words(f) as usize;
    run_and_print(
        f,
        workspace,
        &parameters[..count],
        &mut memory[..words],
        &mut stack[..depth],
        out,
    )
}

// Answers the bytes written, or 0 for a buffer too short.
pub fn report(
    f: &[u8],
    workspace: &mut [u16],
    memory: &mut [u32],
    stack: &mut [u32],
    out: &mut [u8],
) -> usize
    requires memory_len { length memory.old ≡ 4096 }
    requires stack_len { length stack.old ≡ 1024 }
    ensures { leaving result out.new workspace.new memory.new stack.new ≡ report_of f.now workspace.old memory.old stack.old out.old }
{
    if !run_file::well_formed(f) {
        return print_check(out, Refusal::RunFile.number());
    }
    if run_file::stack_words(f) <= 1024 {
        return run_page(f, workspace, memory, stack, out);
    }
    let r = run_file::record_of(f);
    let results = run_file::results_of(f);
    let checked = verifier::check::check(r, results, workspace);
    print_check(out, or_room(checked).number())
}
