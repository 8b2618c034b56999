// The libraries of a module of a set, in a table of four words for each import.
ghost use Rattle.std.specs.Prelude.{◌≡◌, [], ◌∷◌, ◌*◌, ◌≤◌, ◌<◌, length, take};
ghost use Rattle.std.proofs.lemmas.List.Edits.{sets};
ghost use Rattle.header.specs.Header.{header_of};
ghost use Rattle.entries.specs.Libraries.{libraries_in};
ghost use Rattle.module_set.specs.Members.{member_at};
ghost use Rattle.verifier.specs.Check.{libraries_of};
ghost use Rattle.verifier.specs.Lent.{members};
ghost use Rattle.verifier.specs.Tables.{row_put, library_table};

use crate::linked::LinkedSet;

// Row `j`: where code and results list of module `m` lie.
fn put_library(set: LinkedSet<'_>, m: usize, table: &mut [u32], j: usize)
    requires j_bound { j < 16 }
    requires m_in_bounds { m < length (members set) }
    ensures { table.new ≡ row_put set.entry.records.now set.entry.lists.now set.entry.directory.now m table.old j }
{
    let before = module_set::share_at(set.directory, m, 1);
    let behind = header::code_at(header::header_of(set.record(m)));
    let list = module_set::share_at(set.directory, m, 2);
    words::set_word(table, 4 * j, (before + behind) as u32);
    words::set_word(table, 4 * j + 1, set.code(m).len() as u32);
    words::set_word(table, 4 * j + 2, list as u32);
    words::set_word(table, 4 * j + 3, set.results(m).len() as u32);
}

// The libraries that module `k` imports; their number of words.
pub fn fill_libraries(set: LinkedSet<'_>, k: usize, table: &mut [u32; 64]) -> usize
    requires { k < length (members set) }
    ensures words { result ≡ 4 * (header_of (member_at (members set.entry) k).bytes).imports }
    ensures rows { let r = (member_at (members set.entry) k).bytes in
        table.new ≡ sets table.old 0 (library_table set.entry.records.now set.entry.lists.now set.entry.directory.now r) }
    ensures few { result ≤ 64 }
    ensures held { let S = members set.entry in
        libraries_in (take result table.new) set.entry.records.now set.entry.lists.now ≡ libraries_of S (member_at S k).bytes }
{
    let r = set.record(k);
    let imports = header::header_of(r).imports as usize;
    for j in 0..imports {
        let m = module_set::number_of(set.directory, words::word_at(r, 28 + 4 * j));
        put_library(set, m, table, j);
    }
    4 * imports
}
