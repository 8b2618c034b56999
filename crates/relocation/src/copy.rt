// The copy of the code of a set, in which library numbers are module numbers.
ghost use Rattle.std.specs.Prelude.{◌≡◌, List, [], ◌∷◌, ℕ, ◌≤◌, length};
ghost use Rattle.std.proofs.lemmas.List.Edits.{sets};
ghost use Rattle.words.specs.Bytes.{byte_at};
ghost use Rattle.words.specs.Series.{series};
ghost use Rattle.header.specs.Header.{code_of};
ghost use Rattle.record.specs.Number.{record_number};
ghost use Rattle.module_set.specs.Members.{members_of, resolved};
ghost use Rattle.module_set.specs.Linked.{records_number};
ghost use Rattle.relocation.specs.Relocation.{relocations_of, relocated, copy_of, begins};
ghost use Rattle.words.specs.Lent.{over};
ghost use Rattle.relocation.specs.Marks.{rewritten, marked_byte};

use crate::marks;
use crate::table::Relocations;

// Stores code at the front, as much as there is room for.
// Kept: a loop, since `copy_from_slice` takes memmove, and the library for C takes memset alone (include/icode.h).
fn put_code(code: &[u8], part: &mut [u8])
    ensures { part.new ≡ sets part.old 0 code.now }
{
    for i in 0..code.len() {
        words::set_byte(part, i, code[i]);
    }
}

// The number of the module that the library number at an offset of the code stands for.
fn module_at(r: &[u8], directory: &[u32], code: &[u8], at: usize) -> u8
    requires { length directory.now ≤ 67 }
    ensures { (records lists : List ℕ) →
        result ≡ resolved (members_of records lists directory.now) r.now (byte_at code.now at) }
{
    let library = u32::from(words::byte_at(code, at));
    module_set::resolve(r, directory, library) as u8
}

fn put_module(r: &[u8], directory: &[u32], code: &[u8], at: usize, part: &mut [u8])
    requires directory_len_bound { length directory.now ≤ 67 }
    requires code_value { code.now ≡ code_of r.now }
    ensures { (records lists : List ℕ) → part.new
        ≡ rewritten (members_of records lists directory.now) r.now part.old (at ∷ []) }
{
    if at < code.len() {
        words::set_byte(part, at, module_at(r, directory, code, at));
    }
}

// The bytes that the relocation table names get their new numbers.
fn put_modules(r: &[u8], directory: &[u32], part: &mut [u8])
    requires { length directory.now ≤ 67 }
    ensures { (records lists : List ℕ) → part.new
        ≡ rewritten (members_of records lists directory.now) r.now part.old
        (relocations_of r.now) }
{
    let code = header::code_of(r);
    let mut entries = Relocations::of(r);
    while let Some(place) = entries.take(r) {
        put_module(r, directory, code, place, part);
    }
}

// Writes a record's code with its new numbers to the front of `part`, where that has room.
pub fn relocate(r: &[u8], directory: &[u32], part: &mut [u8])
    requires { length directory.now ≤ 67 }
    ensures { (records lists : List ℕ) → part.new
        ≡ sets part.old 0 (relocated (members_of records lists directory.now) r.now) }
{
    let code = header::code_of(r);
    put_code(code, part);
    put_modules(r, directory, part);
}

// The bytes of the copy. Kept: `sum` has no bound from the sizes of the records, which are known one by one.
pub fn copy_size(records: &[u8], directory: &[u32]) -> usize
    requires directory_len_bound { length directory.now ≤ 67 }
    requires by_index { (lists : List ℕ) → records_number (members_of records.now lists directory.now) ≡ 0 }
    ensures { (lists : List ℕ) → result ≡ length (copy_of (members_of records.now lists directory.now)) }
{
    let mut size = 0;
    for k in 0..module_set::count(directory) {
        let code = header::code_of(module_set::record_of(records, directory, k));
        size += code.len();
    }
    size
}

// Writes the copy.
pub fn write_copy(records: &[u8], directory: &[u32], copy: &mut [u8])
    requires directory_len_bound { length directory.now ≤ 67 }
    requires by_index { (lists : List ℕ) → length (copy_of (members_of records.now lists directory.now)) ≤ length copy.old }
    ensures { (lists : List ℕ) → copy.new
        ≡ over (copy_of (members_of records.now lists directory.now)) copy.old }
{
    let mut at = 0;
    for k in 0..module_set::count(directory) {
        let r = module_set::record_of(records, directory, k);
        let code = header::code_of(r);
        let size = code.len();
        relocate(r, directory, &mut copy[at..]);
        at += size;
    }
}

// The byte at an offset of a record's code, with its new number where the relocation table names it.
fn relocated_byte(r: &[u8], directory: &[u32], code: &[u8], entries: &[u8], at: usize) -> u8
    requires { length directory.now ≤ 67 }
    ensures { (records lists : List ℕ) → result
        ≡ marked_byte (members_of records lists directory.now) r.now code.now
        entries.now at }
{
    if words::byte_at(entries, at) == 0 {
        words::byte_at(code, at)
    } else {
        module_at(r, directory, code, at)
    }
}

// A slice begins with these bytes.
fn agrees(r: &[u8], directory: &[u32], code: &[u8], entries: &[u8], part: &[u8]) -> bool
    requires { length directory.now ≤ 67 }
    ensures { (records lists : List ℕ) → result
        ≡ begins (series
        (marked_byte (members_of records lists directory.now) r.now code.now
        entries.now)
        1 0 (length code.now)) part.now }
{
    code.len() <= part.len()
        && (0..code.len()).all(|at| relocated_byte(r, directory, code, entries, at)
            == words::byte_at(part, at))
}

// A slice begins with a record's code with its new numbers.
fn is_relocated(r: &[u8], directory: &[u32], part: &[u8]) -> bool
    requires directory_len_bound { length directory.now ≤ 67 }
    requires r_value { record_number r.now ≡ 0 }
    ensures { (records lists : List ℕ) → result
        ≡ begins (relocated (members_of records lists directory.now) r.now) part.now }
{
    let code = header::code_of(r);
    let mut entries = [0u8; 4096];
    marks::mark_entries(r, &mut entries);
    agrees(r, directory, code, &entries, part)
}

// A slice begins with the copy.
pub fn is_copy(records: &[u8], directory: &[u32], copy: &[u8]) -> bool
    requires directory_len_bound { length directory.now ≤ 67 }
    requires by_index { (lists : List ℕ) → records_number (members_of records.now lists directory.now) ≡ 0 }
    ensures { (lists : List ℕ) →
        result ≡ begins (copy_of (members_of records.now lists directory.now)) copy.now }
{
    let mut at = 0;
    for k in 0..module_set::count(directory) {
        let r = module_set::record_of(records, directory, k);
        if !is_relocated(r, directory, words::part(copy, at, copy.len())) {
            return false;
        }
        let code = header::code_of(r);
        at += code.len();
    }
    true
}
