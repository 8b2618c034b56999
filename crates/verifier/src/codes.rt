// The numbers 10 to 14 over a set: every module's code is cut and looked at, in a workspace that is not lent.
ghost use Rattle.std.specs.Prelude.{◌≡◌, true, ◌≤◌, ◌<◌, length};
ghost use Rattle.numbers.specs.Number.{number};
ghost use Rattle.entries.specs.Entries.{entries_sound};
ghost use Rattle.entries.specs.Listed.{listed};
ghost use Rattle.module_set.specs.Members.{member_at};
ghost use Rattle.module_set.specs.Linked.{lowest_of};
ghost use Rattle.workspace.specs.Checking.{checking};
ghost use Rattle.layout.specs.Cut.{cut_of};
ghost use Rattle.layout.specs.Workspace.{mark_all};
ghost use Rattle.verifier.specs.Check.{fault_number, cut_number, codes_number, fault_in};
ghost use Rattle.verifier.specs.Examine.{unmarked};
ghost use Rattle.verifier.specs.Lent.{members};

use crate::linked::LinkedSet;
use crate::{examine, libraries};
use entries::Libraries;
use layout::marks;
use numbers::Refusal;
use opcode::format::FormatSheet;

// Four for each byte of the longest code.
const HALFWORDS: usize = 16384;

// A code is cut in a workspace that was used before.
fn mark_code(formats: FormatSheet<'_>, code: &[u8], w: &mut [u16]) -> Result<(), Refusal>
    requires { length code.now ≤ 65535 }
    ensures { checking (number result) w.new
        ≡ mark_all code.now (unmarked 0 (length code.now) w.old) }
{
    examine::clear_marks(w, code.len());
    marks::cut_all(formats, code, w)
}

// 10 or 11 by the first module with a bad instruction.
#[tactic(auto, unfolding(crate::specs::Check::cut_number))]
fn cut_number(
    formats: FormatSheet<'_>,
    set: LinkedSet<'_>,
    w: &mut [u16; HALFWORDS],
) -> Result<(), Refusal>
    ensures { number result ≡ cut_number (members set.entry) }
{
    for k in 0..set.count() {
        mark_code(formats, set.code(k), w)?;
    }
    Ok(())
}

// The lowest of 12 to 14 of a code; none where it cannot be cut.
fn code_fault(
    formats: FormatSheet<'_>,
    code: &[u8],
    libraries: Libraries<'_>,
    w: &mut [u16; HALFWORDS],
) -> Result<(), Refusal>
    requires sound { entries_sound code.now ≡ true }
    requires small { length code.now ≤ 4096 }
    ensures { number result ≡ fault_number code.now (listed libraries.entry) (cut_of code.now) }
{
    match mark_code(formats, code, w) {
        Ok(()) => faults::code_number(formats, code, libraries, w),
        Err(_) => Ok(()),
    }
}

// The same of module `k`.
fn module_fault(
    formats: FormatSheet<'_>,
    set: LinkedSet<'_>,
    k: usize,
    w: &mut [u16; HALFWORDS],
) -> Result<(), Refusal>
    requires { k < length (members set) }
    ensures { number result ≡ fault_in (members set.entry) (member_at (members set.entry) k) }
{
    let mut table = [0; 64];
    let size = libraries::fill_libraries(set, k, &mut table);
    let libraries = Libraries {
        table: &table[..size],
        records: set.records,
        lists: set.lists,
    };
    code_fault(formats, set.code(k), libraries, w)
}

// The lowest of 12 to 14 over all modules. Kept: no `fold`, since its closure would write the workspace.
fn fault_number(
    formats: FormatSheet<'_>,
    set: LinkedSet<'_>,
    w: &mut [u16; HALFWORDS],
) -> Result<(), Refusal>
    ensures { number result ≡ lowest_of (fault_in (members set.entry)) (members set.entry) }
{
    let mut lowest = Ok(());
    for k in 0..set.count() {
        lowest = numbers::lower(lowest, module_fault(formats, set, k, w));
    }
    lowest
}

// The number of 10 to 14 that refuses the set, if one does.
#[tactic(auto, unfolding(crate::specs::Check::codes_number))]
pub fn codes_number(formats: FormatSheet<'_>, set: LinkedSet<'_>) -> Result<(), Refusal>
    ensures { number result ≡ codes_number (members set.entry) }
{
    let mut w = [0; HALFWORDS];
    cut_number(formats, set, &mut w)?;
    fault_number(formats, set, &mut w)
}
