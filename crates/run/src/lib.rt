// How runs end, and what they answer.
#![tactic(auto)]

ghost use Rattle.std.specs.Prelude.{◌≡◌};
ghost use Rattle.run.specs.Run.{end_number};

use numbers::Trap;
use registers::Registers;

// How a run ended.
#[derive(Clone, Copy)]
pub enum End {
    Finished,
    Spent,
    Trapped(Trap),
}

// The end, the completed steps, and the registers then: the place is PC in this member of the set.
#[derive(Clone, Copy)]
pub struct Ended {
    pub ending: End,
    pub steps: u32,
    pub member: u32,
    pub registers: Registers,
}

// The number of an end: 0 finished, 1 spent, or the trap.
pub fn end_number(e: End) -> u32
    ensures { result ≡ end_number e }
{
    match e {
        End::Finished => 0,
        End::Spent => 1,
        End::Trapped(trap) => trap.number(),
    }
}
