// The page printer: a run file on standard input, its page on standard output.
#![tactic(auto)]

ghost use Rattle.std.specs.Prelude.{◌≡◌, ◌≤◌, length, IfOk};
ghost use Rattle.report.specs.Report.{output, printed, text_of};

use std::io;
use std::io::Read;

// Reads until the buffer is full or the input ends; tells how many bytes stand at its start then. A read that a signal interrupts
// before a byte has come counts as one that failed.
fn read_input<R: Read>(reader: &mut R, buf: &mut [u8]) -> io::Result<usize>
    ensures { IfOk result (λ n. n ≤ length buf.old) }
{
    let mut done = 0;
    while done < buf.len() {
        let more = reader.read(&mut buf[done..])?;
        if more == 0 {
            break;
        }
        done += more;
    }
    Ok(done)
}

// Writes the page of a run file, with workspace, memory and stack of the printer's own. A buffer of 32,768 bytes never stays
// empty.
fn page_of(file: &[u8], page: &mut [u8]) -> usize
    ensures page_after { output result page.new ≡ printed (text_of file.now) page.old }
    ensures lower_bound { 32768 ≤ length page.old → 1 ≤ result }
{
    let mut workspace = [0u16; 16384];
    let mut memory = [0u32; 4096];
    let mut stack = [0u32; 1024];
    report::report(file, &mut workspace, &mut memory, &mut stack, page)
}

fn main(rt: HostRuntime) {
    // One byte more than a run file may have: a longer input fills it, and is 16.
    let mut input = [0u8; 8193];
    let Ok(length) = read_input(&mut rt.stdin(), &mut input) else {
        let _ = eprintln!(rt; "printer: the input could not be read");
        return;
    };
    let mut page = [0u8; 32768];
    let written = page_of(&input[..length], &mut page);
    if rt.write_all(&page[..written]).is_err() {
        let _ = eprintln!(rt; "printer: the page could not be written");
    }
}
