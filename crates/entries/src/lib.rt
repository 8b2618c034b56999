// The entry table at the start of the code, the procedures' regions, and the libraries that a module imports.
#![tactic(auto)]

ghost use Rattle.std.specs.Prelude.{◌≡◌, List, ℕ, ◌<◌};
ghost use Rattle.entries.specs.Entries.{entry_at, entry_count, no_callee, count_sound, entries_sound, region_end};
ghost use Rattle.entries.specs.Libraries.{library_in, libraries_in, row_word};
ghost use Rattle.entries.specs.Listed.{listed};

pub fn entry_at(code: &[u8], p: u32) -> u16
    ensures { result ≡ entry_at code.now p }
{
    words::halfword_at(code, 2 * (p as usize))
}

pub fn entry_count(code: &[u8]) -> u32
    ensures { result ≡ entry_count code.now }
{
    if entry_at(code, 0) == 2 {
        return 1;
    }
    (entry_at(code, 1) / 2) as u32
}

// Procedure 0 is never called, and past the count there is none.
pub fn is_no_callee(code: &[u8], callee: u32) -> bool
    ensures { result ≡ no_callee code.now callee }
{
    callee == 0 || entry_count(code) <= callee
}

fn count_sound(code: &[u8]) -> bool
    ensures { result ≡ count_sound code.now }
{
    let first = entry_at(code, 1);
    entry_at(code, 0) == 2 || (first % 2 == 0 && 4 <= first && first <= 512)
}

pub fn entries_sound(code: &[u8]) -> bool
    ensures { result ≡ entries_sound code.now }
{
    if !count_sound(code) {
        return false;
    }
    let mut least = 0;
    // Kept: a loop over the places, since the entries' number stands in their first one and they are no slice of halfwords.
    for p in 1..entry_count(code) {
        let entry = entry_at(code, p) as usize;
        if entry < least || code.len() <= entry {
            return false;
        }
        least = entry + 1;
    }
    let last = entry_at(code, 0) as usize;
    least <= last && last < code.len()
}

// Where the region of procedure `p` ends.
pub fn region_end(code: &[u8], p: u32) -> usize
    ensures { result ≡ region_end code.now p }
{
    if p == 0 {
        return code.len();
    }
    if (p as u64) + 1 < entry_count(code) as u64 {
        return entry_at(code, p + 1) as usize;
    }
    entry_at(code, 0) as usize
}

// Word `j` of a library's row; 0 where there is no such library.
// Kept: no `chunks_exact(4).nth(k)`, which would go through the rows before it.
fn row_word(libraries: &[u32], l: u32, j: usize) -> u32
    requires { j < 4 }
    ensures { result ≡ row_word libraries.now l j }
{
    if l == 0 {
        return 0;
    }
    let k = (l - 1) as usize;
    if libraries.len() / 4 <= k {
        return 0;
    }
    libraries[4 * k + j]
}

// The code of library `l`; nothing where there is no such library.
pub fn library_code<'a>(libraries: &[u32], records: &'a [u8], l: u32) -> &'a [u8]
    ensures { (lists : List ℕ) → result.now ≡ (library_in (libraries_in libraries.now records.now lists) l).code }
{
    let from = row_word(libraries, l, 0) as usize;
    let size = row_word(libraries, l, 1) as usize;
    words::part(records, from, size)
}

// Its results list.
pub fn library_results<'a>(libraries: &[u32], lists: &'a [u8], l: u32) -> &'a [u8]
    ensures { (records : List ℕ) → result.now ≡ (library_in (libraries_in libraries.now records lists.now) l).results }
{
    let from = row_word(libraries, l, 2) as usize;
    let size = row_word(libraries, l, 3) as usize;
    words::part(lists, from, size)
}

/// The libraries that a module under check imports, lent: their table, the records that have their code, and their results lists.
#[derive(Clone, Copy)]
pub struct Libraries<'a> {
    pub table: &'a [u32],
    pub records: &'a [u8],
    pub lists: &'a [u8],
}

impl<'a> Libraries<'a> {
    pub fn code(self, l: u32) -> &'a [u8]
        ensures { result.now ≡ (library_in (listed self.entry) l).code }
    {
        library_code(self.table, self.records, l)
    }

    pub fn results(self, l: u32) -> &'a [u8]
        ensures { result.now ≡ (library_in (listed self.entry) l).results }
    {
        library_results(self.table, self.lists, l)
    }
}
