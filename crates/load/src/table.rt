// The table of the machine: a row of five words for each module.
ghost use Rattle.std.specs.Prelude.{◌≡◌, true, cond, List, [], ℕ, ◌+◌, ◌*◌, ◌≤◌, length, take};
ghost use Rattle.std.proofs.lemmas.List.Edits.{sets};
ghost use Rattle.header.specs.Header.{code_of};
ghost use Rattle.version.specs.Issue.{wraps};
ghost use Rattle.record.specs.Number.{record_number};
ghost use Rattle.module_set.specs.Members.{members_of, single};
ghost use Rattle.relocation.specs.Relocation.{set_number, copy_of, begins};
ghost use Rattle.registers.specs.Modules.{modules_in};
ghost use Rattle.load.specs.Modules.{modules_of, row_of, table_of};

use header::Header;

// 1 where unsigned results wrap.
fn wraps_word(r: &[u8], h: Header) -> u32
    ensures { result ≡ cond (wraps r.now h) 1 0 }
{
    if version::wraps(r, h) { 1 } else { 0 }
}

// The row of a record, whose code begins at `at` in the copy, stored from `place` on.
fn put_row(r: &[u8], at: usize, place: usize, table: &mut [u32])
    requires r_value { record_number r.now ≡ 0 }
    requires at_bound { at ≤ 65536 }
    requires place_in_bounds { place + 5 ≤ length table.old }
    ensures { table.new
        ≡ sets table.old place (row_of r.now at) }
{
    let h = header::header_of(r);
    let code = header::code_of(r);
    let wrapping = wraps_word(r, h);
    table[place] = at as u32;
    table[place + 1] = code.len() as u32;
    table[place + 2] = h.globals;
    table[place + 3] = h.constants;
    table[place + 4] = wrapping;
}

// The rows of all modules, at the front of a table.
pub fn fill_table(records: &[u8], directory: &[u32], table: &mut [u32])
    requires by_index { (lists : List ℕ) → set_number (members_of records.now lists directory.now) ≡ 0 }
    requires by_index_2 { (lists : List ℕ) → 5 * length (members_of records.now lists directory.now) ≤ length table.old }
    ensures { ((lists : List ℕ) → table.new
        ≡ sets table.old 0 (table_of (members_of records.now lists directory.now)))
        × ((lists copy : List ℕ) →
        let S = members_of records.now lists directory.now in
        begins (copy_of S) copy ≡ true → modules_in (take (5 * length S) table.new) copy ≡ modules_of S) }
{
    let mut at = 0;
    for k in 0..module_set::count(directory) {
        let r = module_set::record_of(records, directory, k);
        put_row(r, at, 5 * k, table);
        let code = header::code_of(r);
        at += code.len();
    }
}

// The row of a record by itself, whose code is its copy.
pub fn single_row(r: &[u8], table: &mut [u32])
    requires r_value { set_number (single r.now []) ≡ 0 }
    requires table_len { length table.old ≡ 5 }
    ensures { (table.new ≡ sets table.old 0 (table_of (single r.now [])))
        × (modules_in table.new (code_of r.now) ≡ modules_of (single r.now [])) }
{
    put_row(r, 0, 0, table);
}
