// Where library numbers stand, and which places the relocation table names: marks in a byte for each offset.
ghost use Rattle.std.specs.Prelude.{◌≡◌, length};
ghost use Rattle.entries.specs.Entries.{entry_at};
ghost use Rattle.words.specs.Order.{every};
ghost use Rattle.relocation.specs.Places.{is_external, places_from, library_places};
ghost use Rattle.relocation.specs.Relocation.{relocations_of};
ghost use Rattle.relocation.specs.Marks.{marked, is_marked, listed_at, offsets};

use crate::table::Relocations;
use opcode::format::FormatSheet;
use opcode::instruction::{Base, Instruction};

// The library byte stands behind the code of one of these.
fn is_external(i: Instruction) -> bool
    ensures { result ≡ is_external i }
{
    matches!(
        i,
        Instruction::Load(Base::External(_), _, _)
            | Instruction::LoadAddress(Base::External(_), _)
            | Instruction::Store(Base::External(_), _, _)
            | Instruction::CallExternal(_, _)
    )
}

// The library bytes of procedure `p`'s region, up to its first bad instruction.
fn mark_region(formats: FormatSheet<'_>, code: &[u8], p: u32, marks: &mut [u8])
    ensures { marks.new
        ≡ marked marks.old
        (places_from code.now p (length code.now) (entry_at code.now p)) }
{
    let limit = entries::region_end(code, p);
    let mut at = entries::entry_at(code, p) as usize;
    for _ in 0..code.len() {
        if limit <= at {
            return;
        }
        let Ok((i, next)) = opcode::decode(formats, code, limit, at) else {
            return;
        };
        if is_external(i) {
            words::set_byte(marks, at + 1, 1);
        }
        at = next;
    }
}

// Those of every region.
pub fn mark_places(formats: FormatSheet<'_>, code: &[u8], marks: &mut [u8])
    ensures { marks.new ≡ marked marks.old (library_places code.now) }
{
    let count = entries::entry_count(code);
    for p in 1..count {
        mark_region(formats, code, p, marks);
    }
    mark_region(formats, code, 0, marks);
}

// The places that the relocation table names.
pub fn mark_entries(r: &[u8], marks: &mut [u8])
    ensures { marks.new ≡ marked marks.old (relocations_of r.now) }
{
    let mut entries = Relocations::of(r);
    while let Some(named) = entries.take(r) {
        words::set_byte(marks, named, 1);
    }
}

// Every entry of the relocation table is a marked place.
pub fn entries_point(r: &[u8], marks: &[u8]) -> bool
    ensures { result ≡ every (is_marked marks.now) (relocations_of r.now) }
{
    let mut entries = Relocations::of(r);
    while let Some(place) = entries.take(r) {
        if words::byte_at(marks, place) == 0 {
            return false;
        }
    }
    true
}

// A marked place has an entry and a number of the import list.
fn is_listed(code: &[u8], imports: u32, places: &[u8], entries: &[u8], at: usize) -> bool
    ensures { result ≡ listed_at code.now imports places.now entries.now at }
{
    let number = u32::from(words::byte_at(code, at));
    words::byte_at(places, at) == 0
        || (words::byte_at(entries, at) != 0 && 0 < number && number <= imports)
}

pub fn all_listed(code: &[u8], imports: u32, places: &[u8], entries: &[u8]) -> bool
    ensures { result
        ≡ every (listed_at code.now imports places.now entries.now)
        (offsets (length code.now)) }
{
    (0..code.len()).all(|at| is_listed(code, imports, places, entries, at))
}
