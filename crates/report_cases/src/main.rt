// Reads run files on standard input, each behind its length in two bytes, and prints their pages one after the other.
#![tactic(auto)]

use std::io;
use std::io::Read;

fn print_page(rt: &impl Print, f: &[u8]) -> io::Result<()> {
    let mut workspace = [0u16; 16384];
    let mut memory = [0u32; 4096];
    let mut stack = [0u32; 1024];
    let mut page = [0u8; 32768];
    let written = report::report(f, &mut workspace, &mut memory, &mut stack, &mut page);
    rt.write_all(&page[..written])
}

fn print_pages(rt: &impl Print, cases: &[u8]) -> io::Result<()> {
    let mut at = 0;
    while at < cases.len() {
        let length = words::halfword_at(cases, at) as usize;
        print_page(rt, words::part(cases, at + 2, length))?;
        at += 2 + length;
    }
    Ok(())
}

// At most 65,536 bytes are read.
fn main(rt: HostRuntime) -> io::Result<()> {
    let mut input = Vec::new(rt.alloc());
    rt.stdin().take(65536).read_to_end(&mut input)?;
    print_pages(&rt, &input)
}
