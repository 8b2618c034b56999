// States and outcomes as words.
ghost use Rattle.std.specs.Prelude.{[], ◌∷◌, ◌++◌, ◌≡◌, ◌≤◌, length};
ghost use Rattle.registers.specs.State.{state_words, registers_in};
ghost use Rattle.run.specs.Run.{outcome_words};
ghost use Rattle.icode.specs.Interface.{laid};

use registers::Registers;
use run::Ended;

pub fn write_state(state: &mut [u32], q: Registers)
    requires { 6 ≤ length state.old }
    ensures { state.new ≡ laid (state_words q) state.old }
{
    state[0] = q.pc;
    state[1] = q.fp;
    state[2] = q.mp;
    state[3] = q.gp;
    state[4] = q.height;
    state[5] = q.calls;
}

pub fn read_state(state: &[u32]) -> Registers
    ensures { result ≡ registers_in state.now }
{
    Registers {
        pc: registers::access::word_at(state, 0),
        fp: registers::access::word_at(state, 1),
        mp: registers::access::word_at(state, 2),
        gp: registers::access::word_at(state, 3),
        height: registers::access::word_at(state, 4),
        calls: registers::access::word_at(state, 5),
    }
}

pub fn write_outcome(outcome: &mut [u32], e: Ended)
    requires { 3 ≤ length outcome.old }
    ensures { outcome.new ≡ laid (outcome_words e) outcome.old }
{
    outcome[0] = run::end_number(e.ending);
    outcome[1] = e.registers.pc;
    outcome[2] = e.steps;
}

// With the module behind the registers.
pub fn write_set_state(state: &mut [u32], q: Registers, member: u32)
    requires { 7 ≤ length state.old }
    ensures { state.new ≡ laid (state_words q ++ (member ∷ [])) state.old }
{
    write_state(state, q);
    state[6] = member;
}

pub fn write_set_outcome(outcome: &mut [u32], e: Ended)
    requires { 4 ≤ length outcome.old }
    ensures { outcome.new ≡ laid (outcome_words e ++ (e.member ∷ [])) outcome.old }
{
    write_outcome(outcome, e);
    outcome[3] = e.member;
}
