// The record of 5.1: which number refuses it, and which source line an offset belongs to.
#![tactic(auto)]

ghost use Rattle.std.specs.Prelude.{◌≡◌, IfOk};
ghost use Rattle.header.specs.Header.{header_of};
ghost use Rattle.numbers.specs.Number.{number, numbered};
ghost use Rattle.record.specs.Number.{size_number, record_number, reading_of, reading_number, line_span, line_number};

use header::Header;
use numbers::Refusal;
use source::Span;

// The header of a record that has the sizes that it says, or the lowest of the numbers 1 to 3.
pub fn sized(r: &[u8]) -> Result<Header, Refusal>
    ensures number { number result ≡ size_number r.now }
    ensures header { IfOk result (λ h. h ≡ header_of r.now) }
{
    if r.len() < 28 {
        return Err(Refusal::Short);
    }
    let h = header::header_of(r);
    if !header::sizes_fit(h) {
        return Err(Refusal::Oversized);
    }
    if r.len() != header::record_length(h) {
        return Err(Refusal::Length);
    }
    Ok(h)
}

// The header, or the lowest of the numbers 1 to 7 that refuses the record; 4 is withdrawn.
pub fn read(r: &[u8]) -> Result<Header, Refusal>
    ensures answer { numbered result ≡ reading_of r.now }
    ensures reading { reading_number (numbered result) ≡ record_number r.now }
    ensures number { number result ≡ record_number r.now }
    ensures header { IfOk result (λ h. h ≡ header_of r.now) }
{
    let h = sized(r)?;
    if !version::version_sound(r, h) {
        return Err(Refusal::Version);
    }
    if !source::source_sound(r, h) {
        return Err(Refusal::Sources);
    }
    if !entries::entries_sound(header::code_of(r)) {
        return Err(Refusal::Entries);
    }
    Ok(h)
}

// The line lookup: the span of the source line that an offset of the code belongs to; none past the code.
pub fn line_span(r: &[u8], offset: u32) -> Result<Option<Span>, Refusal>
    ensures answer { numbered result ≡ line_span r.now offset }
    ensures line { line_number (numbered result) ≡ record_number r.now }
    ensures number { number result ≡ record_number r.now }
{
    let h = read(r)?;
    Ok(source::lookup_at(r, h, offset))
}
