// Which states a run takes.
#![tactic(auto)]

ghost use Rattle.std.specs.Prelude.{◌≡◌, true, List, ℕ, ◌≤◌, length};
ghost use Rattle.state.specs.Fits.{sizes_taken, header_kept, headers_kept, registers_fit, ordered, bounded, fits};
ghost use Rattle.registers.specs.Modules.{modules_in, is_base};
ghost use Rattle.registers.specs.Program.{program};
ghost use Rattle.registers.specs.State.{state};
ghost use Rattle.registers.specs.Memory.{link_words, chained, link_based, links_based};

use registers::{Attributes, Registers, access, table};

// Whether memory and stack have sizes that load takes.
#[tactic(auto, unfolding(crate::specs::Fits::sizes_taken))]
pub fn sizes_taken(frames: usize, memory: &[u32], stack: &[u32]) -> bool
    ensures { result ≡ sizes_taken frames memory.now stack.now }
{
    frames <= memory.len() && memory.len() <= 16384 && stack.len() <= 1024
}

// Whether following the saved FP so many times, each at least its link words lower, ends at `start`.
fn is_chained(memory: &[u32], start: usize, fp: u32, calls: u32) -> bool
    ensures { result ≡ chained memory.now start fp calls }
{
    let mut frame = fp as usize;
    for _ in 0..calls {
        if frame < 2 {
            return false;
        }
        let saved = access::word_at(memory, frame - 2) as usize;
        if frame < saved + access::link_words(memory, frame) {
            return false;
        }
        frame = saved;
    }
    frame == start
}

// Whether an address is some module's first global.
fn is_base(table: &[u32], a: usize) -> bool
    requires { length table.now ≤ 80 }
    ensures { (copy : List ℕ) → result ≡ is_base (modules_in table.now copy) a }
{
    table::number_at(table, a) < table::count(table)
}

// Whether the link of a frame is local, or its global link some module's first global.
fn link_based(table: &[u32], memory: &[u32], frame: usize) -> bool
    requires table_len_bound { length table.now ≤ 80 }
    requires frame_bound { link_words memory.now frame ≤ frame }
    ensures { (copy : List ℕ)
        → result ≡ link_based (modules_in table.now copy) memory.now frame }
{
    access::link_words(memory, frame) == 2
        || is_base(table, access::word_at(memory, frame - 3) as usize)
}

// Whether this is so of each active call.
fn links_based(table: &[u32], memory: &[u32], start: usize, fp: u32, calls: u32) -> bool
    requires table_len_bound { length table.now ≤ 80 }
    requires calls_value { chained memory.now start fp calls ≡ true }
    ensures { (copy : List ℕ)
        → result ≡ links_based (modules_in table.now copy) memory.now fp calls }
{
    let mut frame = fp as usize;
    for _ in 0..calls {
        if !link_based(table, memory, frame) {
            return false;
        }
        frame = access::word_at(memory, frame - 2) as usize;
    }
    true
}

// Whether the header words of module `k`, whose data frame begins at `start` with so many globals, are as load writes them.
#[tactic(auto, unfolding(crate::specs::Fits::header_kept))]
fn header_kept(memory: &[u32], k: usize, start: usize, globals: usize) -> bool
    requires start_bound { start ≤ 0x40_0000_0000 }
    requires globals_bound { globals ≤ 0x40_0000_0000 }
    ensures { result ≡ header_kept memory.now k start globals }
{
    access::word_at(memory, start) == 0
        && access::word_at(memory, start + 1) as usize == k
        && access::word_at(memory, start + 2) as usize == start + 3 + globals
}

// Whether the header words of all modules are.
// Kept: rows by number, as in registers' table.
fn headers_kept(table: &[u32], memory: &[u32]) -> bool
    requires { length table.now ≤ 80 }
    ensures { (copy : List ℕ) → result ≡ headers_kept 0 0 (modules_in table.now copy) memory.now }
{
    let mut start = 0;
    let n = table.len() / 5;
    for k in 0..n {
        let globals = table::row_word(table, k, 2);
        if !header_kept(memory, k, start, globals) {
            return false;
        }
        start = start + 3 + globals + table::row_word(table, k, 3);
    }
    true
}

// Whether the registers stay within memory and stack.
#[tactic(auto, unfolding(crate::specs::Fits::registers_fit))]
fn registers_fit(attributes: Attributes, q: Registers, memory: &[u32], stack: &[u32]) -> bool
    ensures { result ≡ registers_fit attributes q memory.now stack.now }
{
    q.gp == attributes.globals
        && q.fp <= q.mp
        && q.mp as usize <= memory.len()
        && q.height as usize <= stack.len()
        && q.calls <= 64
}

// Whether globals, constants and frames follow each other.
#[tactic(auto, unfolding(crate::specs::Fits::ordered))]
fn is_ordered(attributes: Attributes) -> bool
    ensures { result ≡ ordered attributes }
{
    attributes.globals <= attributes.constants && attributes.constants <= attributes.frames
}

// Whether the steps of the running module find their bounds.
#[tactic(auto, unfolding(crate::specs::Fits::bounded))]
fn is_bounded(attributes: Attributes, q: Registers, memory: &[u32], stack: &[u32]) -> bool
    ensures { result ≡ bounded attributes (state q memory.now stack.now) }
{
    is_ordered(attributes)
        && sizes_taken(attributes.frames as usize, memory, stack)
        && registers_fit(attributes, q, memory, stack)
        && is_chained(memory, attributes.frames as usize, q.fp, q.calls)
}

#[tactic(auto, unfolding(crate::specs::Fits::fits))]
pub fn state_fits(
    table: &[u32],
    attributes: Attributes,
    q: Registers,
    memory: &[u32],
    stack: &[u32],
) -> bool
    requires { length table.now ≤ 80 }
    ensures { (code copy : List ℕ) → result
        ≡ fits (program code attributes (modules_in table.now copy)) (state q memory.now stack.now) }
{
    is_bounded(attributes, q, memory, stack)
        && headers_kept(table, memory)
        && links_based(table, memory, attributes.frames as usize, q.fp, q.calls)
}
