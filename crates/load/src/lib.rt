// Load: the copy of the code, memory with the data frames of the modules, and the registers at the start.
#![tactic(auto)]

ghost use Rattle.std.specs.Prelude.{◌≡◌, true, ◌&&◌, List, ℕ, ◌≤◌, leb, length};
ghost use Rattle.module_set.specs.Members.{members_of};
ghost use Rattle.relocation.specs.Relocation.{set_number, copy_of, begins};
ghost use Rattle.registers.specs.Modules.{module_at, frames_start};
ghost use Rattle.registers.specs.Program.{Program, program_at};
ghost use Rattle.state.specs.Fits.{sizes_taken};
ghost use Rattle.numbers.specs.Number.{numbered};
ghost use Rattle.load.specs.Modules.{modules_of};
ghost use Rattle.load.specs.Load.{start_of, set_load_number, set_load, loading, loaded_number, load_number, load_of};

use numbers::Refusal;
use registers::Registers;

pub mod frames;
pub mod table;

// The registers at the start of a program that has its globals at 3.
fn start_of(code: &[u8], frames: usize) -> Registers
    requires { frames ≤ 16384 }
    ensures { (P : Program) → P.code ≡ code.now → P.attributes.globals ≡ 3 →
        P.attributes.frames ≡ frames → result ≡ start_of P }
{
    let first = frames as u32;
    Registers {
        pc: entries::entry_at(code, 0) as u32,
        fp: first,
        mp: first,
        gp: 3,
        height: 0,
        calls: 0,
    }
}

// No number 8: the main module takes the parameters, and the copy, memory and stack have sizes that load takes.
fn is_taken(
    records: &[u8],
    directory: &[u32],
    parameters: &[u32],
    copy: &[u8],
    memory: &[u32],
    stack: &[u32],
) -> bool
    requires { (lists : List ℕ) → set_number (members_of records.now lists directory.now) ≡ 0 }
    ensures { (lists : List ℕ) →
        let S = members_of records.now lists directory.now in
        result ≡ (leb (length parameters.now) (module_at (modules_of S) 0).globals
        && (leb (length (copy_of S)) (length copy.now)
        && sizes_taken (frames_start (modules_of S)) memory.now stack.now)) }
{
    let main = header::header_of(module_set::record_of(records, directory, 0));
    if (main.globals as usize) < parameters.len() {
        return false;
    }
    if copy.len() < relocation::copy::copy_size(records, directory) {
        return false;
    }
    state::sizes_taken(frames::frames_start(records, directory), memory, stack)
}

// The registers at the start of a set, its copy being written.
fn set_start(records: &[u8], directory: &[u32], copy: &[u8]) -> Registers
    requires by_index { (lists : List ℕ) → set_number (members_of records.now lists directory.now) ≡ 0 }
    requires by_index_2 { (lists : List ℕ) → frames_start (modules_of (members_of records.now lists directory.now)) ≤ 16384 }
    requires by_index_3 { (lists : List ℕ) → begins (copy_of (members_of records.now lists directory.now)) copy.now ≡ true }
    ensures { (lists : List ℕ) →
        result ≡ start_of (program_at (modules_of (members_of records.now lists directory.now)) 0) }
{
    let start = frames::frames_start(records, directory);
    let code = header::code_of(module_set::record_of(records, directory, 0));
    let size = code.len();
    start_of(words::part(copy, 0, size), start)
}

// The numbers of a set, or 8, or copy and memory are written and the registers are at the start. The stack is not written.
pub fn load_set(
    records: &[u8],
    directory: &[u32],
    parameters: &[u32],
    copy: &mut [u8],
    memory: &mut [u32],
    stack: &[u32],
) -> Result<Registers, Refusal>
    ensures { (lists : List ℕ) →
        let S = members_of records.now lists directory.now in
        (loading (numbered result) copy.new memory.new
        ≡ set_load S parameters.now copy.old memory.old stack.now)
        × (loaded_number (numbered result)
        ≡ set_load_number S parameters.now copy.old memory.old stack.now) }
{
    relocation::number::set_number(records, directory)?;
    if !is_taken(records, directory, parameters, copy, memory, stack) {
        return Err(Refusal::Room);
    }
    relocation::copy::write_copy(records, directory, copy);
    frames::fill(records, directory, parameters, memory);
    Ok(set_start(records, directory, copy))
}

// The same of a record by itself, whose code is its copy.
pub fn load(
    r: &[u8],
    parameters: &[u32],
    memory: &mut [u32],
    stack: &[u32],
) -> Result<Registers, Refusal>
    ensures { (numbered result ≡ (load_of r.now parameters.now memory.old stack.now).answer)
        × (memory.new
        ≡ (load_of r.now parameters.now memory.old stack.now).memory)
        × (loaded_number (numbered result) ≡ load_number r.now parameters.now memory.old stack.now) }
{
    relocation::number::single_number(r)?;
    let h = header::header_of(r);
    if (h.globals as usize) < parameters.len() {
        return Err(Refusal::Room);
    }
    let size = frames::frame_size(h);
    if !state::sizes_taken(size, memory, stack) {
        return Err(Refusal::Room);
    }
    frames::fill_single(r, parameters, memory);
    Ok(start_of(header::code_of(r), size))
}
