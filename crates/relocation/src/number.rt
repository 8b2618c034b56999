// The number 18 of a record, and the number of a set of modules.
ghost use Rattle.std.specs.Prelude.{◌≡◌, List, ℕ, ◌≤◌, length};
ghost use Rattle.numbers.specs.Number.{number};
ghost use Rattle.record.specs.Number.{record_number};
ghost use Rattle.module_set.specs.Members.{members_of, single};
ghost use Rattle.module_set.specs.Linked.{every_member, records_number};
ghost use Rattle.relocation.specs.Relocation.{relocation_sound, set_number};
ghost use Rattle.relocation.specs.Marks.{external_code, has_external_byte};

use crate::marks;
use numbers::Refusal;
use opcode::format::FormatSheet;

fn is_external_code(byte: u8) -> bool
    ensures { result ≡ external_code byte }
{
    matches!(byte, 0x89 | 0x91 | 0x98 | 0xE6)
}

// Code without such a byte has no external instruction, and need not be cut to find that.
fn has_external_byte(code: &[u8]) -> bool
    ensures { result ≡ has_external_byte code.now }
{
    code.iter().any(|byte| is_external_code(*byte))
}

// No number 18: each entry points at a library byte, and each library byte has an entry and a number of the import list.
pub fn is_relocation_sound(formats: FormatSheet<'_>, r: &[u8]) -> bool
    requires r_value { record_number r.now ≡ 0 }
    ensures { result ≡ relocation_sound r.now }
{
    let code = header::code_of(r);
    if !has_external_byte(code) {
        return header::header_of(r).relocation == 0;
    }
    let mut places = [0u8; 4096];
    marks::mark_places(formats, code, &mut places);
    if !marks::entries_point(r, &places) {
        return false;
    }
    let mut entries = [0u8; 4096];
    marks::mark_entries(r, &mut entries);
    let imports = header::header_of(r).imports;
    marks::all_listed(code, imports, &places, &entries)
}

// The same of every record of a set. Kept: `all` would have to carry the callee's requires, of each module, into its closure.
fn all_sound(formats: FormatSheet<'_>, records: &[u8], directory: &[u32]) -> bool
    requires directory_len_bound { length directory.now ≤ 67 }
    requires by_index { (lists : List ℕ) → records_number (members_of records.now lists directory.now) ≡ 0 }
    ensures { (lists : List ℕ) →
        result ≡ every_member (λ M. relocation_sound M.bytes) (members_of records.now lists directory.now) }
{
    for k in 0..module_set::count(directory) {
        let r = module_set::record_of(records, directory, k);
        if !is_relocation_sound(formats, r) {
            return false;
        }
    }
    true
}

// The number that refuses the set, if one does: the lowest of 1 to 7 over its records, 17 or 18.
pub fn set_number(records: &[u8], directory: &[u32]) -> Result<(), Refusal>
    ensures { (lists : List ℕ) → number result ≡ set_number (members_of records.now lists directory.now) }
{
    module_set::records_number(records, directory)?;
    if !module_set::is_linked(records, directory) {
        return Err(Refusal::Linkage);
    }
    let entries = opcode::format::formats();
    if !all_sound(FormatSheet { entries: &entries }, records, directory) {
        return Err(Refusal::Relocation);
    }
    Ok(())
}

// The same of a record by itself, which imports nothing where it has no number.
pub fn single_number(r: &[u8]) -> Result<(), Refusal>
    ensures { (results : List ℕ) → number result ≡ set_number (single r.now results) }
{
    let h = record::read(r)?;
    if h.imports != 0 {
        return Err(Refusal::Linkage);
    }
    let entries = opcode::format::formats();
    if !is_relocation_sound(FormatSheet { entries: &entries }, r) {
        return Err(Refusal::Relocation);
    }
    Ok(())
}
