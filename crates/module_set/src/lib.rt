// Sets of modules: their members, the numbers 1 to 7 over a set, and 17.
#![tactic(auto)]

ghost use Rattle.std.specs.Prelude.{◌≡◌, List, ℕ, ◌<◌, ◌≤◌, ◌-◌, ◌/◌, length};
ghost use Rattle.words.specs.Order.{every};
ghost use Rattle.numbers.specs.Number.{number};
ghost use Rattle.module_set.specs.Members.{members_of, member_at, libraries, imports_of, number_of, resolved};
ghost use Rattle.module_set.specs.Linked.{records_number, has, sids_of, distinct, linked};
ghost use Rattle.module_set.specs.Rows.{row_word, shares_before, sids_in, seek_from};

use numbers::Refusal;

// The number of modules.
pub fn count(directory: &[u32]) -> usize
    ensures { (records lists : List ℕ) → result ≡ length (members_of records lists directory.now) }
{
    directory.len() / 4
}

// Word `j` of row `k`; 0 where there is no such row.
fn row_word(directory: &[u32], k: usize, j: usize) -> u32
    requires { j < 4 }
    ensures { result ≡ row_word directory.now k j }
{
    if k < directory.len() / 4 {
        directory[4 * k + j]
    } else {
        0
    }
}

// Where the share of module `k` begins, its size standing in word `j` of its row. The sum of sixteen words is a small number.
// Kept: `sum` of words as usize has no bound from how many there are.
pub fn share_at(directory: &[u32], k: usize, j: usize) -> usize
    requires k_bound { k ≤ 16 }
    requires j_bound { j < 4 }
    ensures { result ≡ shares_before directory.now j k }
{
    let mut sum = 0;
    for i in 0..k {
        let size = row_word(directory, i, j) as usize;
        sum += size;
    }
    sum
}

// The record of module `k`, nothing where there is no such module.
pub fn record_of<'a>(records: &'a [u8], directory: &[u32], k: usize) -> &'a [u8]
    requires { k ≤ 16 }
    ensures { (lists : List ℕ) → result.now ≡ (member_at (members_of records.now lists directory.now) k).bytes }
{
    let size = row_word(directory, k, 1) as usize;
    words::part(records, share_at(directory, k, 1), size)
}

// Its results list.
pub fn list_of<'a>(lists: &'a [u8], directory: &[u32], k: usize) -> &'a [u8]
    requires { k ≤ 16 }
    ensures { (records : List ℕ) → result.now ≡ (member_at (members_of records lists.now directory.now) k).results }
{
    let size = row_word(directory, k, 2) as usize;
    words::part(lists, share_at(directory, k, 2), size)
}

// Its SID.
pub fn sid_of(directory: &[u32], k: usize) -> u32
    ensures { (records lists : List ℕ) → result ≡ (member_at (members_of records lists directory.now) k).sid }
{
    row_word(directory, k, 0)
}

// The refusal of the lowest of the numbers 1 to 7 that a record of the set has. Past the sixteenth module a sum of sizes has no
// bound, so what is left of the records goes along.
pub fn records_number(records: &[u8], directory: &[u32]) -> Result<(), Refusal>
    ensures { (lists : List ℕ) → number result ≡ records_number (members_of records.now lists directory.now) }
{
    if directory.len() < 4 {
        return Err(Refusal::Short);
    }
    let mut rest = records;
    let mut lowest = Ok(());
    for row in directory.chunks_exact(4) {
        let size = row[1] as usize;
        let answer = record::read(words::part(rest, 0, size)).and(Ok(()));
        lowest = numbers::lower(lowest, answer);
        let passed = size.min(rest.len());
        rest = &rest[passed..];
    }
    lowest
}

// The first module from `first` on that has a SID; 0 where none has it.
fn number_from(directory: &[u32], first: usize, sid: u32) -> usize
    ensures { result
        ≡ seek_from first (sids_in directory.now first (length directory.now / 4 - first)) sid }
{
    (first..directory.len() / 4)
        .find(|k| row_word(directory, *k, 0) == sid)
        .unwrap_or(0)
}

// The number of the library of a SID; 0 where no library has it.
pub fn number_of(directory: &[u32], sid: u32) -> usize
    ensures { (records lists : List ℕ) → result ≡ number_of (members_of records lists directory.now) sid }
{
    number_from(directory, 1, sid)
}

// The number of the module that a record's library number stands for; 0 where it is none.
pub fn resolve(r: &[u8], directory: &[u32], l: u32) -> usize
    ensures { (records lists : List ℕ) → result ≡ resolved (members_of records lists directory.now) r.now l }
{
    if l == 0 || header::header_of(r).imports < l {
        return 0;
    }
    number_of(directory, words::word_at(r, 24 + 4 * (l as usize)))
}

// No two libraries have one SID.
fn sids_differ(directory: &[u32]) -> bool
    ensures { (records lists : List ℕ) → result ≡ distinct (sids_of (libraries (members_of records lists directory.now))) }
{
    (1..directory.len() / 4).all(|k| number_from(directory, k + 1, row_word(directory, k, 0)) == 0)
}

// Every import of a record is a library of the set.
fn imports_found(r: &[u8], directory: &[u32]) -> bool
    ensures { (records lists : List ℕ) →
        result ≡ every (has (sids_of (libraries (members_of records lists directory.now)))) (imports_of r.now) }
{
    (0..header::header_of(r).imports).all(|j| number_of(
        directory,
        words::word_at(r, 28 + 4 * (j as usize)),
    ) != 0)
}

// No number 17: at most sixteen modules, no two libraries of one SID, and every import among them.
pub fn is_linked(records: &[u8], directory: &[u32]) -> bool
    ensures { (lists : List ℕ) → result ≡ linked (members_of records.now lists directory.now) }
{
    let modules = count(directory);
    modules <= 16
        && sids_differ(directory)
        && (0..modules).all(|k| imports_found(record_of(records, directory, k), directory))
}
