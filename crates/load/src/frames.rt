// Data frames: header words, parameters, the other globals, constants.
ghost use Rattle.std.specs.Prelude.{◌≡◌, List, [], ℕ, ◌+◌, ◌≤◌, ◌<◌, length, replicate};
ghost use Rattle.header.specs.Header.{header_of};
ghost use Rattle.module_set.specs.Members.{members_of, single};
ghost use Rattle.relocation.specs.Relocation.{set_number};
ghost use Rattle.registers.specs.Memory.{read};
ghost use Rattle.registers.specs.Modules.{module_at, frames_start};
ghost use Rattle.load.specs.Modules.{modules_of};
ghost use Rattle.load.specs.Load.{frame_words, loaded_memory};

use header::Header;

// The words of the data frame of a module.
pub fn frame_size(h: Header) -> usize
    ensures { result ≡ 3 + h.globals + h.constants }
{
    3 + (h.globals as usize) + (h.constants as usize)
}

// Behind all data frames.
pub fn frames_start(records: &[u8], directory: &[u32]) -> usize
    requires { (lists : List ℕ) → set_number (members_of records.now lists directory.now) ≡ 0 }
    ensures { (lists : List ℕ) → result ≡ frames_start (modules_of (members_of records.now lists directory.now)) }
{
    let mut size = 0;
    for k in 0..module_set::count(directory) {
        let h = header::header_of(module_set::record_of(records, directory, k));
        size += frame_size(h);
    }
    size
}

// Word `i` of the data frame of module `k`, which begins at `start`.
fn frame_word(r: &[u8], h: Header, k: u32, start: u32, parameters: &[u32], i: usize) -> u32
    requires h_value { h ≡ header_of r.now }
    requires globals_bound { h.globals ≤ 1024 }
    requires start_bound { start ≤ 16384 }
    requires parameters_len_bound { length parameters.now ≤ h.globals }
    ensures { result ≡ read (frame_words k start parameters.now r.now) i }
{
    if i == 0 {
        return 0;
    }
    if i == 1 {
        return k;
    }
    if i == 2 {
        return start + 3 + h.globals;
    }
    let j = i - 3;
    if j < parameters.len() {
        return parameters[j];
    }
    let globals = h.globals as usize;
    if j < globals {
        return 0;
    }
    let n = j - globals;
    if n < (h.constants as usize) {
        return words::word_at(r, header::constants_at(h) + 4 * n);
    }
    0
}

fn fill_frame(r: &[u8], h: Header, k: usize, start: usize, parameters: &[u32], frame: &mut [u32])
    requires h_value { h ≡ header_of r.now }
    requires globals_bound { h.globals ≤ 1024 }
    requires k_bound { k ≤ 16 }
    requires start_bound { start ≤ 16384 }
    requires parameters_len_bound { length parameters.now ≤ h.globals }
    requires frame_len { length frame.old ≡ 3 + h.globals + h.constants }
    ensures { frame.new ≡ frame_words k start parameters.now r.now }
{
    let number = k as u32;
    let first = start as u32;
    for i in 0..frame.len() {
        frame[i] = frame_word(r, h, number, first, parameters, i);
    }
}

// Memory as load leaves it. The parameters go to the main module.
pub fn fill(records: &[u8], directory: &[u32], parameters: &[u32], memory: &mut [u32])
    requires by_index { (lists : List ℕ) → set_number (members_of records.now lists directory.now) ≡ 0 }
    requires by_index_2 { (lists : List ℕ) → length parameters.now
        ≤ (module_at (modules_of (members_of records.now lists directory.now)) 0).globals }
    requires by_index_3 { (lists : List ℕ) → frames_start (modules_of (members_of records.now lists directory.now))
        ≤ length memory.old }
    requires memory_len_bound { length memory.old ≤ 16384 }
    ensures { (lists : List ℕ) → memory.new
        ≡ loaded_memory (members_of records.now lists directory.now) parameters.now
        (length memory.old) }
{
    memory.fill(0);
    let mut given = parameters;
    let mut start = 0;
    for k in 0..module_set::count(directory) {
        let r = module_set::record_of(records, directory, k);
        let h = header::header_of(r);
        let next = start + frame_size(h);
        fill_frame(r, h, k, start, given, &mut memory[start..next]);
        given = &parameters[..0];
        start = next;
    }
}

// That of a record by itself.
pub fn fill_single(r: &[u8], parameters: &[u32], memory: &mut [u32])
    requires r_value { set_number (single r.now []) ≡ 0 }
    requires parameters_len_bound { length parameters.now ≤ (header_of r.now).globals }
    requires r_in_bounds { 3 + (header_of r.now).globals + (header_of r.now).constants ≤ length memory.old }
    ensures { memory.new
        ≡ loaded_memory (single r.now []) parameters.now (length memory.old) }
{
    memory.fill(0);
    let h = header::header_of(r);
    let size = frame_size(h);
    fill_frame(r, h, 0, 0, parameters, &mut memory[..size]);
}
