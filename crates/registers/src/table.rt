// The modules of a set, as a table of rows.
ghost use Rattle.std.specs.Prelude.{◌≡◌, List, ℕ, ◌+◌, ◌*◌, ◌/◌, ◌≤◌, ◌<◌, length, get_or};
ghost use Rattle.registers.specs.Modules.{modules_in, data_start, globals_start, frames_start, is_fixed, between, number_at, no_library};
ghost use Rattle.registers.specs.Program.{attributes_at};

use crate::{Attributes, access};

// How many modules there are.
pub fn count(table: &[u32]) -> usize
    ensures { (copy : List ℕ) → result ≡ length (modules_in table.now copy) }
{
    table.len() / 5
}

// Word `i` of row `k`.
pub fn row_word(table: &[u32], k: usize, i: usize) -> usize
    requires k_bound { k ≤ 16 }
    requires i_bound { i < 5 }
    ensures { (result ≡ get_or table.now (5 * k + i) 0) × (result < 0x1_0000_0000) }
{
    access::word_at(table, 5 * k + i) as usize
}

fn is_between(low: usize, high: usize, a: usize) -> bool
    ensures { result ≡ between low high a }
{
    low <= a && a < high
}

// Whether `a` is a header word or a constant of one of the modules.
// Kept: this and the loops below count rows, since over `chunks_exact(5)` the invariant speaks of the iterator's own state.
pub fn is_fixed(table: &[u32], a: usize) -> bool
    requires { length table.now ≤ 80 }
    ensures { (copy : List ℕ) → result ≡ is_fixed 0 (modules_in table.now copy) a }
{
    let mut start = 0;
    let n = table.len() / 5;
    for k in 0..n {
        let globals = start + 3;
        if is_between(start, globals, a) {
            return true;
        }
        let constants = globals + row_word(table, k, 2);
        let end = constants + row_word(table, k, 3);
        if is_between(constants, end, a) {
            return true;
        }
        start = end;
    }
    false
}

// Where the data frame of module `k` begins.
fn data_start(table: &[u32], k: usize) -> usize
    requires k_bound { k ≤ 16 }
    requires k_in_bounds { k ≤ length table.now / 5 }
    ensures { ((copy : List ℕ) → result ≡ data_start 0 (modules_in table.now copy) k) × (result < 0x20_0010_0000) }
{
    let mut start = 0;
    for i in 0..k {
        start = start + 3 + row_word(table, i, 2) + row_word(table, i, 3);
    }
    start
}

// The first global of module `k`.
pub fn globals_start(table: &[u32], k: u32) -> usize
    requires { length table.now ≤ 80 }
    ensures { ((copy : List ℕ) → result ≡ globals_start (modules_in table.now copy) k) × (result < 0x40_0000_0000) }
{
    let n = table.len() / 5;
    if (k as usize) < n {
        return data_start(table, k as usize) + 3;
    }
    data_start(table, n) + 3
}

// Whether there is no such library.
pub fn is_no_library(table: &[u32], l: u32) -> bool
    ensures { (copy : List ℕ) → result ≡ no_library (modules_in table.now copy) l }
{
    l == 0 || count(table) <= l as usize
}

// The number of the module whose globals begin at `a`; as many as there are where none do.
pub fn number_at(table: &[u32], a: usize) -> usize
    requires { length table.now ≤ 80 }
    ensures { (copy : List ℕ) → result ≡ number_at (modules_in table.now copy) a }
{
    let mut start = 0;
    let n = table.len() / 5;
    for k in 0..n {
        if a == start + 3 {
            return k;
        }
        start = start + 3 + row_word(table, k, 2) + row_word(table, k, 3);
    }
    n
}

// The attributes of module `k`.
pub fn attributes_at(table: &[u32], k: usize) -> Attributes
    requires table_len_bound { length table.now ≤ 80 }
    requires k_in_bounds { k < length table.now / 5 }
    requires by_index { (copy : List ℕ) → frames_start (modules_in table.now copy) ≤ 65536 }
    ensures { (copy : List ℕ) → result ≡ attributes_at (modules_in table.now copy) k }
{
    let globals = data_start(table, k) + 3;
    let constants = globals + row_word(table, k, 2);
    let frames = data_start(table, table.len() / 5);
    Attributes {
        globals: globals as u32,
        constants: constants as u32,
        frames: frames as u32,
        wraps: row_word(table, k, 4) == 1,
    }
}
