// Reads cases on standard input and prints, a line each, the number that refuses the record and the span and line of the offset. A case is
// the record's length in two bytes, the record, and an offset in four.
#![tactic(auto)]

use source::Span;
use std::io;
use std::io::Read;

fn print_lookup(rt: &impl Print, lookup: Option<Span>) -> io::Result<()> {
    let Some(Span { first, last, line }) = lookup else {
        return print!(rt; "outside");
    };
    print!(rt; "{first} {last} {line}")
}

fn print_case(rt: &impl Print, r: &[u8], offset: u32) -> io::Result<()> {
    let number = numbers::number(record::read(r));
    print!(rt; "{number} ")?;
    match record::line_span(r, offset) {
        Ok(lookup) => print_lookup(rt, lookup)?,
        Err(_) => print!(rt; "-")?,
    }
    println!(rt; "")
}

fn print_cases(rt: &impl Print, cases: &[u8]) -> io::Result<()> {
    let mut at = 0;
    while at < cases.len() {
        let length = words::halfword_at(cases, at) as usize;
        print_case(
            rt,
            words::part(cases, at + 2, length),
            words::word_at(cases, at + 2 + length),
        )?;
        at += 6 + length;
    }
    Ok(())
}

// At most 65,536 bytes are read.
fn main(rt: HostRuntime) -> io::Result<()> {
    let mut input = Vec::new(rt.alloc());
    rt.stdin().take(65536).read_to_end(&mut input)?;
    print_cases(&rt, &input)
}
