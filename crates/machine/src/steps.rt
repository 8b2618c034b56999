// Steps of a set's modules up to a budget, counted as they are completed.
ghost use Rattle.std.specs.Prelude.{◌≡◌, true, List, ℕ, ◌-◌, ◌≤◌, length};
ghost use Rattle.registers.specs.Modules.{modules_in, frames_start, number_at, is_base};
ghost use Rattle.registers.specs.Program.{program, running};
ghost use Rattle.registers.specs.State.{state};
ghost use Rattle.step.specs.Step.{left, step_of};
ghost use Rattle.step.specs.Ready.{Ready};
ghost use Rattle.fast_external.specs.External.{Passed};
ghost use Rattle.run.specs.Run.{ran, ended_at, run_from};

use opcode::format::FormatSheet;
use registers::{Attributes, Registers, table};
use run::{End, Ended};
use step::{Machine, Outcome, Stepped};

// The end of a run, with its place: PC in the module whose globals GP points at.
fn ended_at(table: &[u32], machine: Machine, ending: End, steps: u32) -> Ended
    requires { length table.now ≤ 80 }
    ensures { (copy : List ℕ) → result
        ≡ ended_at ending steps (number_at (modules_in table.now copy) machine.registers.gp) machine.registers }
{
    let registers = machine.registers;
    let member = table::number_at(table, registers.gp as usize) as u32;
    Ended {
        ending,
        steps,
        member,
        registers,
    }
}

// Takes the lesser of two numbers of steps.
fn lesser(a: u32, b: u32) -> u32
    ensures { (result ≤ a) × (result ≤ b) }
{
    if a < b { a } else { b }
}

// The code of the module that GP points at.
fn code_in<'a>(table: &[u32], copy: &'a [u8], gp: u32) -> &'a [u8]
    requires table_len_bound { length table.now ≤ 80 }
    requires gp_value { is_base (modules_in table.now copy.now) gp ≡ true }
    ensures { result.now ≡ (running (modules_in table.now copy.now) gp).code }
{
    let k = table::number_at(table, gp as usize);
    words::part(
        copy,
        table::row_word(table, k, 0),
        table::row_word(table, k, 1),
    )
}

// Its attributes.
fn attributes_in(table: &[u32], copy: &[u8], gp: u32) -> Attributes
    requires table_len_bound { length table.now ≤ 80 }
    requires gp_value { is_base (modules_in table.now copy.now) gp ≡ true }
    requires copy_bound { frames_start (modules_in table.now copy.now) ≤ 16384 }
    ensures { result ≡ (running (modules_in table.now copy.now) gp).attributes }
{
    table::attributes_at(table, table::number_at(table, gp as usize))
}

// The number of the module that GP points at, where GP has changed.
fn number_after(table: &[u32], was: u32, gp: u32) -> usize
    requires { length table.now ≤ 80 }
    ensures { (copy : List ℕ) → (gp ≡ was → ⊥) → result ≡ number_at (modules_in table.now copy) gp }
{
    if gp == was {
        return 0;
    }
    let base = gp as usize;
    table::number_at(table, base)
}

// The code, where that of another GP is at hand; `member` is the module's number.
fn code_after<'a>(
    table: &[u32],
    copy: &'a [u8],
    code: &'a [u8],
    was: u32,
    gp: u32,
    member: usize,
) -> &'a [u8]
    requires table_len_bound { length table.now ≤ 80 }
    requires gp_value { is_base (modules_in table.now copy.now) gp ≡ true }
    requires code_value { code.now ≡ (running (modules_in table.now copy.now) was).code }
    requires member_value { (gp ≡ was → ⊥) → member ≡ number_at (modules_in table.now copy.now) gp }
    ensures { result.now ≡ (running (modules_in table.now copy.now) gp).code }
{
    if gp == was {
        return code;
    }
    words::part(
        copy,
        table::row_word(table, member, 0),
        table::row_word(table, member, 1),
    )
}

// The attributes, where those of another GP are: the frames of calls begin at the same place, and GP is the first global.
fn attributes_after(
    table: &[u32],
    copy: &[u8],
    attributes: Attributes,
    was: u32,
    gp: u32,
    member: usize,
) -> Attributes
    requires table_len_bound { length table.now ≤ 80 }
    requires gp_value { is_base (modules_in table.now copy.now) gp ≡ true }
    requires copy_bound { frames_start (modules_in table.now copy.now) ≤ 16384 }
    requires attributes_value { attributes ≡ (running (modules_in table.now copy.now) was).attributes }
    requires member_value { (gp ≡ was → ⊥) → member ≡ number_at (modules_in table.now copy.now) gp }
    ensures { result ≡ (running (modules_in table.now copy.now) gp).attributes }
{
    if gp == was {
        return attributes;
    }
    let constants = (gp as usize) + table::row_word(table, member, 2);
    Attributes {
        globals: gp,
        constants: constants as u32,
        frames: attributes.frames,
        wraps: table::row_word(table, member, 4) == 1,
    }
}

// Completes a step that looks at other modules, where it can and `at_once` is not 0.
fn external_on(
    table: &[u32],
    copy: &[u8],
    code: &[u8],
    attributes: Attributes,
    q: Registers,
    memory: &mut [u32],
    stack: &mut [u32],
    at_once: u32,
) -> Option<Registers>
    requires code_len_bound { length code.now ≤ 4096 }
    requires table_len_bound { length table.now ≤ 80 }
    requires ready { Ready (program code.now attributes (modules_in table.now copy.now)) (state q memory.old stack.old) }
    ensures { Passed result (program code.now attributes (modules_in table.now copy.now))
        (state q memory.old stack.old) memory.new stack.new }
{
    if at_once == 0 {
        return None;
    }
    fast_external::external_step(table, copy, code, attributes, q, memory, stack)
}

// Makes one step: directly, or by the general step.
fn step_on(
    machine: Machine,
    formats: FormatSheet<'_>,
    table: &[u32],
    copy: &[u8],
    code: &[u8],
    attributes: Attributes,
    memory: &mut [u32],
    stack: &mut [u32],
    at_once: u32,
) -> Stepped
    requires code_len_bound { length code.now ≤ 4096 }
    requires table_len_bound { length table.now ≤ 80 }
    requires ready { Ready (program code.now attributes (modules_in table.now copy.now))
        (state machine.registers memory.old stack.old) }
    ensures { left result memory.new stack.new
        ≡ step_of (program code.now attributes (modules_in table.now copy.now))
        (state machine.registers memory.old stack.old) }
{
    let tried = external_on(
        table,
        copy,
        code,
        attributes,
        machine.registers,
        memory,
        stack,
        at_once,
    );
    match tried {
        Some(registers) => Stepped {
            outcome: Outcome::Went,
            machine: Machine { registers },
        },
        None => machine.step(formats, table, copy, code, attributes, memory, stack),
    }
}

// Goes on after so many steps: a step by itself, and then again what can be done at once. The code is taken anew where the module
// changes.
fn run_on(
    table: &[u32],
    copy: &[u8],
    at_once: u32,
    budget: u32,
    done: u32,
    start: Machine,
    memory: &mut [u32],
    stack: &mut [u32],
) -> Ended
    requires table_len_bound { length table.now ≤ 80 }
    requires done_le_budget { done ≤ budget }
    requires ready { Ready (running (modules_in table.now copy.now) start.registers.gp)
        (state start.registers memory.old stack.old) }
    ensures { ran start.registers (Ok result) memory.new stack.new
        ≡ run_from (modules_in table.now copy.now) (budget - done) done
        (state start.registers memory.old stack.old) }
{
    let entries = opcode::format::formats();
    let formats = FormatSheet { entries: &entries };
    let mut machine = start;
    let mut steps = done;
    let mut gp = start.registers.gp;
    let mut code = code_in(table, copy, gp);
    let mut attributes = attributes_in(table, copy, gp);
    while steps < budget {
        let stepped = step_on(
            machine, formats, table, copy, code, attributes, memory, stack, at_once,
        );
        machine = stepped.machine;
        match stepped.outcome {
            Outcome::Went => {
                let now = machine.registers.gp;
                let member = number_after(table, gp, now);
                let part = code_after(table, copy, code, gp, now, member);
                code = part;
                attributes = attributes_after(table, copy, attributes, gp, now, member);
                gp = now;
                let rest = budget - (steps + 1);
                let most = lesser(at_once, rest);
                let reached = fast_loop::fast_steps(
                    table,
                    copy,
                    code,
                    attributes,
                    machine.registers,
                    memory,
                    stack,
                    most,
                );
                machine = Machine {
                    registers: reached.registers,
                };
                steps = budget - (rest - (most - reached.left));
            }
            Outcome::Finished => {
                return ended_at(table, machine, End::Finished, steps + 1);
            }
            Outcome::Trapped(trap) => {
                return ended_at(table, machine, End::Trapped(trap), steps);
            }
        }
    }
    ended_at(table, machine, End::Spent, steps)
}

// Begins with what can be done at once. Called from two places, the fast loop stays a function of its own, which takes fewer
// instructions a step.
pub fn run_steps(
    table: &[u32],
    copy: &[u8],
    at_once: u32,
    budget: u32,
    start: Machine,
    memory: &mut [u32],
    stack: &mut [u32],
) -> Ended
    requires table_len_bound { length table.now ≤ 80 }
    requires ready { Ready (running (modules_in table.now copy.now) start.registers.gp)
        (state start.registers memory.old stack.old) }
    ensures { ran start.registers (Ok result) memory.new stack.new
        ≡ run_from (modules_in table.now copy.now) budget 0
        (state start.registers memory.old stack.old) }
{
    let most = lesser(at_once, budget);
    let gp = start.registers.gp;
    let code = code_in(table, copy, gp);
    let attributes = attributes_in(table, copy, gp);
    let reached = fast_loop::fast_steps(
        table,
        copy,
        code,
        attributes,
        start.registers,
        memory,
        stack,
        most,
    );
    let registers = reached.registers;
    let machine = Machine { registers };
    let done = most - reached.left;
    run_on(table, copy, at_once, budget, done, machine, memory, stack)
}
