// Completes steps that look at other modules, and gives the registers after; or writes nothing.
#![tactic(auto)]

ghost use Rattle.std.specs.Prelude.{◌≡◌, ◌≤◌, ◌<◌, length};
ghost use Rattle.words.specs.Bytes.{byte_at};
ghost use Rattle.opcode.specs.declared.instruction.Instruction.TheVariants.{Load, LoadAddress, Store, CallExternal, Rtn};
ghost use Rattle.opcode.specs.declared.instruction.Base.TheVariants.{External};
ghost use Rattle.opcode.specs.declared.instruction.Mode.TheVariants.{Normal};
ghost use Rattle.registers.specs.Modules.{modules_in};
ghost use Rattle.registers.specs.Program.{program};
ghost use Rattle.registers.specs.State.{state};
ghost use Rattle.step.specs.Ready.{Ready};
ghost use Rattle.fast.specs.Fast.{Decodes};
ghost use Rattle.fast_external.specs.External.{Passed};

use registers::{Attributes, Registers, access, table};

// Serves CALL_E, where library, callee, depth, link words and entry are in order.
fn call_external(
    table: &[u32],
    copy: &[u8],
    code: &[u8],
    attributes: Attributes,
    q: Registers,
    memory: &mut [u32],
    stack: &[u32],
    l: u32,
    p: u32,
    next: u32,
) -> Option<Registers>
    requires table_len_bound { length table.now ≤ 80 }
    requires decodes { Decodes code.now q.pc (CallExternal l p) next }
    requires ready { Ready (program code.now attributes (modules_in table.now copy.now)) (state q memory.old stack.now) }
    ensures { Passed result (program code.now attributes (modules_in table.now copy.now))
        (state q memory.old stack.now) memory.new stack.now }
{
    if table::is_no_library(table, l) {
        return None;
    }
    let k = l as usize;
    let part = words::part(
        copy,
        table::row_word(table, k, 0),
        table::row_word(table, k, 1),
    );
    if entries::is_no_callee(part, p) {
        return None;
    }
    if 64 <= q.calls {
        return None;
    }
    let old = q.mp as usize;
    if memory.len() < old + 3 {
        return None;
    }
    let entry = entries::entry_at(part, p);
    if part.len() <= (entry as usize) {
        return None;
    }
    let gp = table::globals_start(table, l) as u32;
    memory[old] = q.gp;
    memory[old + 1] = q.fp;
    memory[old + 2] = access::negated(next);
    Some(q.called(3, gp, entry as u32))
}

// Serves RTN, where a call is active and the return word is a place in the module that is gone back to.
fn return_external(
    table: &[u32],
    copy: &[u8],
    code: &[u8],
    attributes: Attributes,
    q: Registers,
    memory: &[u32],
    stack: &[u32],
    next: u32,
) -> Option<Registers>
    requires table_len_bound { length table.now ≤ 80 }
    requires decodes { Decodes code.now q.pc Rtn next }
    requires ready { Ready (program code.now attributes (modules_in table.now copy.now)) (state q memory.now stack.now) }
    ensures { Passed result (program code.now attributes (modules_in table.now copy.now))
        (state q memory.now stack.now) memory.now stack.now }
{
    if q.calls == 0 {
        return None;
    }
    let registers = q.returned(memory);
    let k = table::number_at(table, registers.gp as usize);
    let part = words::part(
        copy,
        table::row_word(table, k, 0),
        table::row_word(table, k, 1),
    );
    if part.len() <= (registers.pc as usize) {
        return None;
    }
    Some(registers)
}

// Serves LOAD_E, where the library's word is live and the stack has room.
fn load_external(
    table: &[u32],
    copy: &[u8],
    code: &[u8],
    attributes: Attributes,
    q: Registers,
    memory: &[u32],
    stack: &mut [u32],
    l: u32,
    n: u32,
    next: u32,
) -> Option<Registers>
    requires table_len_bound { length table.now ≤ 80 }
    requires decodes { Decodes code.now q.pc (Load (External l) Normal n) next }
    requires ready { Ready (program code.now attributes (modules_in table.now copy.now)) (state q memory.now stack.old) }
    ensures { Passed result (program code.now attributes (modules_in table.now copy.now))
        (state q memory.now stack.old) memory.now stack.new }
{
    if table::is_no_library(table, l) {
        return None;
    }
    let a = table::globals_start(table, l) + (n as usize);
    if (q.mp as usize) <= a {
        return None;
    }
    let height = q.height as usize;
    if stack.len() <= height {
        return None;
    }
    if code.len() <= (next as usize) {
        return None;
    }
    stack[height] = memory[a];
    Some(q.moved(next).raised((height + 1) as u32))
}

// Serves LOAD_A_E, where the stack has room.
fn address_external(
    table: &[u32],
    copy: &[u8],
    code: &[u8],
    attributes: Attributes,
    q: Registers,
    memory: &[u32],
    stack: &mut [u32],
    l: u32,
    n: u32,
    next: u32,
) -> Option<Registers>
    requires table_len_bound { length table.now ≤ 80 }
    requires n_bound { n < 256 }
    requires decodes { Decodes code.now q.pc (LoadAddress (External l) n) next }
    requires ready { Ready (program code.now attributes (modules_in table.now copy.now)) (state q memory.now stack.old) }
    ensures { Passed result (program code.now attributes (modules_in table.now copy.now))
        (state q memory.now stack.old) memory.now stack.new }
{
    if table::is_no_library(table, l) {
        return None;
    }
    let height = q.height as usize;
    if stack.len() <= height {
        return None;
    }
    if code.len() <= (next as usize) {
        return None;
    }
    let address = table::globals_start(table, l) + (n as usize);
    stack[height] = address as u32;
    Some(q.moved(next).raised((height + 1) as u32))
}

// Serves STOR_E into one of the library's globals, which are never protected.
fn store_external(
    table: &[u32],
    copy: &[u8],
    code: &[u8],
    attributes: Attributes,
    q: Registers,
    memory: &mut [u32],
    stack: &[u32],
    l: u32,
    n: u32,
    next: u32,
) -> Option<Registers>
    requires table_len_bound { length table.now ≤ 80 }
    requires decodes { Decodes code.now q.pc (Store (External l) Normal n) next }
    requires ready { Ready (program code.now attributes (modules_in table.now copy.now)) (state q memory.old stack.now) }
    ensures { Passed result (program code.now attributes (modules_in table.now copy.now))
        (state q memory.old stack.now) memory.new stack.now }
{
    if table::is_no_library(table, l) {
        return None;
    }
    if table::row_word(table, l as usize, 2) <= (n as usize) {
        return None;
    }
    let height = q.height as usize;
    if height == 0 {
        return None;
    }
    if code.len() <= (next as usize) {
        return None;
    }
    let a = table::globals_start(table, l) + (n as usize);
    memory[a] = stack[height - 1];
    Some(q.moved(next).raised((height - 1) as u32))
}

// Reads an operand byte.
fn byte(code: &[u8], at: usize) -> u32
    requires { at < length code.now }
    ensures { (result ≡ byte_at code.now at) × (result < 256) }
{
    code[at] as u32
}

// Completes one step of those, where it can.
pub fn external_step(
    table: &[u32],
    copy: &[u8],
    code: &[u8],
    attributes: Attributes,
    q: Registers,
    memory: &mut [u32],
    stack: &mut [u32],
) -> Option<Registers>
    requires code_len_bound { length code.now ≤ 4096 }
    requires table_len_bound { length table.now ≤ 80 }
    requires ready { Ready (program code.now attributes (modules_in table.now copy.now)) (state q memory.old stack.old) }
    ensures { Passed result (program code.now attributes (modules_in table.now copy.now))
        (state q memory.old stack.old) memory.new stack.new }
{
    let pc = q.pc as usize;
    let b = *code.get(pc)?;
    if b == 0xE9 {
        return return_external(
            table,
            copy,
            code,
            attributes,
            q,
            memory,
            stack,
            (pc + 1) as u32,
        );
    }
    if code.len() < pc + 3 {
        return None;
    }
    let l = byte(code, pc + 1);
    let n = byte(code, pc + 2);
    let next = (pc + 3) as u32;
    match b {
        0xE6 => call_external(table, copy, code, attributes, q, memory, stack, l, n, next),
        0x89 => load_external(table, copy, code, attributes, q, memory, stack, l, n, next),
        0x98 => store_external(table, copy, code, attributes, q, memory, stack, l, n, next),
        0x91 => address_external(table, copy, code, attributes, q, memory, stack, l, n, next),
        _ => None,
    }
}
