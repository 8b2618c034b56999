// Check, load and run, with the letter's demands as the promise: specs/Demands.antt is the page to read beside the letter.
#![tactic(auto)]

ghost use Rattle.std.specs.Prelude.{◌≡◌};
ghost use Rattle.joined.specs.Joined.{joined, joined_of};
ghost use Rattle.numbers.specs.Number.{numbered};
ghost use Rattle.demands.specs.Demands.{Demands};

use numbers::Refusal;
use run::Ended;

// Gives the check's number or the load's, or how the run ended.
pub fn check_load_run(
    r: &[u8],
    results: &[u8],
    workspace: &mut [u16],
    parameters: &[u32],
    budget: u32,
    memory: &mut [u32],
    stack: &mut [u32],
) -> Result<Ended, Refusal>
    ensures { (joined (numbered result) workspace.new memory.new stack.new
        ≡ joined_of r.now results.now workspace.old parameters.now budget
        memory.old stack.old) × Demands }
{
    joined::check_load_run(r, results, workspace, parameters, budget, memory, stack)
}
