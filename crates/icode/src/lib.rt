// The C interface, as include/icode.h declares it.
#![tactic(auto)]

ghost use Rattle.std.specs.Prelude.{◌∷◌, ◌≡◌, ◌≤◌, length, drop};
ghost use Rattle.record.specs.Number.{record_number, line_span};
ghost use Rattle.source.specs.Span.{lookup_line};
ghost use Rattle.opcode.specs.Decode.{decode_at};
ghost use Rattle.verifier.specs.Check.{check_of};
ghost use Rattle.workspace.specs.Checking.{checking};
ghost use Rattle.report.specs.Report.{output, printed, text_of};
ghost use Rattle.numbers.specs.Number.{number};
ghost use Rattle.icode.specs.Interface.{line_code, span_reply, decode_reply};

pub mod bench;
pub mod mending;
pub mod set;
pub mod state_words;

use numbers::Refusal;
use opcode::format::FormatSheet;
use source::Span;

#[unsafe(no_mangle)]
pub extern "C" fn icode_record_number(bytes: &[u8]) -> u32
    ensures { result ≡ record_number bytes.now }
{
    numbers::number(record::read(bytes))
}

// The line of a lookup, 0 outside the code.
fn line_in(lookup: Option<Span>) -> u32
    ensures { result ≡ lookup_line lookup }
{
    match lookup {
        Some(span) => span.line,
        None => 0,
    }
}

#[unsafe(no_mangle)]
pub extern "C" fn icode_line(bytes: &[u8], offset: u32) -> u64
    ensures { result ≡ line_code (line_span bytes.now offset) }
{
    match record::line_span(bytes, offset) {
        Ok(lookup) => line_in(lookup) as u64,
        Err(refusal) => (refusal.number() as u64) * 0x1_0000_0000,
    }
}

fn write_span(out: &mut [u32], outside: u32, first: u32, last: u32, line: u32)
    requires { 4 ≤ length out.old }
    ensures { out.new ≡ outside ∷ first ∷ last ∷ line ∷ drop 4 out.old }
{
    out[0] = outside;
    out[1] = first;
    out[2] = last;
    out[3] = line;
}

fn write_lookup(out: &mut [u32], lookup: Option<Span>) -> Result<(), Refusal>
    ensures { output (number result) out.new ≡ span_reply (Ok lookup) out.old }
{
    if out.len() < 4 {
        return Err(Refusal::Room);
    }
    match lookup {
        Some(span) => write_span(out, 0, span.first, span.last, span.line),
        None => write_span(out, 1, 0, 0, 0),
    }
    Ok(())
}

#[unsafe(no_mangle)]
pub extern "C" fn icode_line_span(bytes: &[u8], offset: u32, span: &mut [u32]) -> u32
    ensures { output result span.new ≡ span_reply (line_span bytes.now offset) span.old }
{
    match record::line_span(bytes, offset) {
        Ok(lookup) => numbers::number(write_lookup(span, lookup)),
        Err(refusal) => refusal.number(),
    }
}

#[unsafe(no_mangle)]
pub extern "C" fn icode_check(bytes: &[u8], results: &[u8], workspace: &mut [u16]) -> u32
    ensures { checking result workspace.new ≡ check_of bytes.now results.now workspace.old }
{
    numbers::number(verifier::check::check(bytes, results, workspace))
}

// Run-and-report with memory and stack of its own. A buffer of 32,768 bytes never comes back empty.
#[unsafe(no_mangle)]
pub extern "C" fn icode_report(file: &[u8], out: &mut [u8]) -> usize
    ensures out_after { output result out.new ≡ printed (text_of file.now) out.old }
    ensures lower_bound { 32768 ≤ length out.old → 1 ≤ result }
{
    let mut workspace = [0u16; 16384];
    let mut memory = [0u32; 4096];
    let mut stack = [0u32; 1024];
    report::report(file, &mut workspace, &mut memory, &mut stack, out)
}

// For the tests: the instruction at a place of the code, within a limit.
#[unsafe(no_mangle)]
pub extern "C" fn icode_bench_decode(code: &[u8], limit: usize, at: usize, out: &mut [u32]) -> u32
    ensures { output result out.new ≡ decode_reply (decode_at code.now limit at) at out.old }
{
    if out.len() != 5 {
        return 8;
    }
    let entries = opcode::format::formats();
    let formats = FormatSheet { entries: &entries };
    match opcode::decode(formats, code, limit, at) {
        Err(e) => Refusal::from(e).number(),
        Ok((i, next)) => {
            let parts = mnemonic::parts_of(i);
            out[0] = parts.number;
            out[1] = parts.mode;
            out[2] = parts.operand;
            out[3] = parts.second;
            out[4] = (next - at) as u32;
            0
        }
    }
}
