// The check: its number, and what it leaves of the workspace.
ghost use Rattle.std.specs.Prelude.{◌≡◌, List, ℕ, ◌≤◌, length};
ghost use Rattle.numbers.specs.Number.{number};
ghost use Rattle.module_set.specs.Members.{members_of, single};
ghost use Rattle.workspace.specs.Checking.{checking};
ghost use Rattle.verifier.specs.Check.{list_number, set_check, check_of, lacks_room};
ghost use Rattle.verifier.specs.Lent.{members};
ghost use Rattle.verifier.specs.Tables.{own_examined};

use crate::linked::LinkedSet;
use crate::subject::Subject;
use crate::{codes, examine, libraries, results};
use entries::Libraries;
use numbers::Refusal;
use opcode::format::FormatSheet;
use relocation::number;

// The number of a record by itself up to 9, 17 or 18, if it has one.
#[tactic(auto, unfolding(crate::specs::Check::list_number))]
fn list_number(r: &[u8], results: &[u8], room: usize) -> Result<(), Refusal>
    ensures { number result ≡ list_number (single r.now results.now) 0 room }
{
    number::single_number(r)?;
    let code = header::code_of(r);
    if room / 4 < code.len() {
        return Err(Refusal::Room);
    }
    if !results::results_sound(code, results) {
        return Err(Refusal::Results);
    }
    Ok(())
}

// The check of a record by itself, which imports nothing.
pub fn check<'a>(r: &'a [u8], results: &'a [u8], w: &mut [u16]) -> Result<(), Refusal>
    ensures { checking (number result) w.new ≡ check_of r.now results.now w.old }
{
    list_number(r, results, w.len())?;
    let table = [0; 0];
    let libraries = Libraries {
        table: &table,
        records: r,
        lists: results,
    };
    let entries = opcode::format::formats();
    let formats = FormatSheet { entries: &entries };
    let subject = Subject {
        formats,
        code: header::code_of(r),
        results,
        libraries,
    };
    examine::examine_in(subject, w)
}

// 8: no such module, or a workspace too short for it.
fn lacks_room(records: &[u8], directory: &[u32], own: usize, room: usize) -> bool
    requires { length directory.now ≤ 67 }
    ensures { (lists : List ℕ) → result ≡ lacks_room (members_of records.now lists directory.now) own room }
{
    module_set::count(directory) <= own
        || room / 4 < header::code_of(module_set::record_of(records, directory, own)).len()
}

// The number of a set up to 9, 17 or 18, if it has one.
#[tactic(auto, unfolding(crate::specs::Check::list_number))]
fn set_list_number(
    records: &[u8],
    lists: &[u8],
    directory: &[u32],
    own: usize,
    room: usize,
) -> Result<(), Refusal>
    ensures { number result ≡ list_number (members_of records.now lists.now directory.now) own room }
{
    number::set_number(records, directory)?;
    if lacks_room(records, directory, own, room) {
        return Err(Refusal::Room);
    }
    if !results::lists_sound(records, lists, directory) {
        return Err(Refusal::Results);
    }
    Ok(())
}

// The own module is examined, with its libraries.
#[tactic(auto, unfolding(crate::specs::Tables::own_examined))]
fn examine_own(
    formats: FormatSheet<'_>,
    set: LinkedSet<'_>,
    own: usize,
    w: &mut [u16],
) -> Result<(), Refusal>
    requires { list_number (members set) own (length w.old) ≡ 0 }
    ensures { checking (number result) w.new ≡ own_examined (members set.entry) own w.old }
{
    let mut table = [0; 64];
    let size = libraries::fill_libraries(set, own, &mut table);
    let libraries = Libraries {
        table: &table[..size],
        records: set.records,
        lists: set.lists,
    };
    let code = set.code(own);
    let subject = Subject {
        formats,
        code,
        results: set.results(own),
        libraries,
    };
    examine::examine_in(subject, w)
}

// The numbers 10 to 15, where no lower one is given.
fn judge(set: LinkedSet<'_>, own: usize, w: &mut [u16]) -> Result<(), Refusal>
    requires { list_number (members set) own (length w.old) ≡ 0 }
    ensures { checking (number result) w.new ≡ set_check (members set.entry) own w.old }
{
    let entries = opcode::format::formats();
    let formats = FormatSheet { entries: &entries };
    match codes::codes_number(formats, set) {
        Ok(()) => examine_own(formats, set, own, w),
        Err(refusal) => {
            examine::clear_front(w, 4 * set.code(own).len());
            Err(refusal)
        }
    }
}

// The check of module `own` of a set.
pub fn check_set(
    records: &[u8],
    lists: &[u8],
    directory: &[u32],
    own: usize,
    w: &mut [u16],
) -> Result<(), Refusal>
    ensures { checking (number result) w.new
        ≡ set_check (members_of records.now lists.now directory.now) own w.old }
{
    set_list_number(records, lists, directory, own, w.len())?;
    judge(
        LinkedSet {
            records,
            lists,
            directory,
        },
        own,
        w,
    )
}
