// Check, load and run of a record in one call: accepted code never ends in a code trap. safety/specs/Demand3 has the whole of demand 3.
#![tactic(auto)]

ghost use Rattle.std.specs.Prelude.{◌≡◌};
ghost use Rattle.numbers.specs.Number.{numbered};
ghost use Rattle.joined.specs.Joined.{joined, joined_of, ProperAnswer};

use numbers::Refusal;
use run::Ended;

// The check's number or the load's, or how the run ended.
pub fn check_load_run(
    r: &[u8],
    results: &[u8],
    workspace: &mut [u16],
    parameters: &[u32],
    budget: u32,
    memory: &mut [u32],
    stack: &mut [u32],
) -> Result<Ended, Refusal>
    ensures { (joined (numbered result) workspace.new memory.new stack.new
        ≡ joined_of r.now results.now workspace.old parameters.now budget
        memory.old stack.old)
        × ProperAnswer (numbered result) }
{
    verifier::check::check(r, results, workspace)?;
    // Kept: a match, in whose arm the edit refused_load_is_8 stands.
    match load::load(r, parameters, memory, stack) {
        Ok(q) => machine::run(r, budget, q, memory, stack),
        Err(refusal) => Err(refusal),
    }
}
