// The source table: pairs of an offset and a line; the span of a line.
#![tactic(auto)]

ghost use Rattle.std.specs.Prelude.{◌≡◌};
ghost use Rattle.source.specs.Source.{source_offsets, source_sound, covering, pair_of};
ghost use Rattle.source.specs.Span.{end_of, lookup_at};

use cursor::Pair;
use header::Header;

// The offsets that belong to a source line: from `first` to `last`.
#[derive(Clone, Copy)]
pub struct Span {
    pub first: u32,
    pub last: u32,
    pub line: u32,
}

pub fn source_sound(r: &[u8], h: Header) -> bool
    ensures { result ≡ source_sound r.now h }
{
    if h.sources % 2 != 0 {
        return false;
    }
    let pairs = h.sources / 2;
    let code = h.code;
    let mut at = header::sources_at(h);
    let mut least: u64 = 0;
    for _ in 0..pairs {
        let offset = cursor::pair_at(r, at).first;
        if (offset as u64) < least {
            return false;
        }
        if code <= offset {
            return false;
        }
        least = (offset as u64) + 1;
        at += 8;
    }
    true
}

// How many pairs, from the first on, begin at or before the offset.
pub fn pairs_covering(r: &[u8], h: Header, offset: u32) -> u32
    ensures { result ≡ covering offset (source_offsets r.now h) }
{
    let pairs = h.sources / 2;
    let mut at = header::sources_at(h);
    for k in 0..pairs {
        if offset < cursor::pair_at(r, at).first {
            return k;
        }
        at += 8;
    }
    pairs
}

// The `k`-th pair, counted from 1; 0 and 0 for none.
pub fn pair_of(r: &[u8], h: Header, k: u32) -> Pair
    ensures { result ≡ pair_of r.now h k }
{
    if k == 0 {
        return Pair {
            first: 0,
            second: 0,
        };
    }
    cursor::pair_at(r, header::sources_at(h) + 8 * ((k - 1) as usize))
}

// Where the line of the `k`-th pair ends: the place after its last byte.
pub fn end_of(r: &[u8], h: Header, k: u32) -> u32
    ensures { result ≡ end_of r.now h k }
{
    if k < h.sources / 2 {
        return pair_of(r, h, k + 1).first;
    }
    h.code
}

// The line's span; none past the code.
pub fn lookup_at(r: &[u8], h: Header, offset: u32) -> Option<Span>
    ensures { result ≡ lookup_at r.now h offset }
{
    if h.code <= offset {
        return None;
    }
    let k = pairs_covering(r, h, offset);
    let pair = pair_of(r, h, k);
    let end = end_of(r, h, k);
    Some(Span {
        first: pair.first,
        last: end - 1,
        line: pair.second,
    })
}
