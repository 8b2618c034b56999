// Mends a record whose version word or source table is damaged: a new record without the words that refuse it (5, 6).
#![tactic(auto)]

ghost use Rattle.std.specs.Prelude.{◌≡◌, ◌≤◌, ◌+◌, ◌*◌, ◌/◌, length};
ghost use Rattle.std.specs.Option.{MatchOption};
ghost use Rattle.std.proofs.lemmas.List.Edits.{sets};
ghost use Rattle.words.specs.Bytes.{word_at};
ghost use Rattle.header.specs.Header.{header_of, sources_at, record_length};
ghost use Rattle.numbers.specs.Number.{numbered};
ghost use Rattle.record.specs.Number.{size_number};
ghost use Rattle.mend.specs.Mend.{versions_left, keeps, least_after, kept_pairs, dropped_pairs, word_places};
ghost use Rattle.mend.specs.Mend.{pair_bytes, dropped_words, mended_record, mending, mend_of};

use header::Header;
use numbers::Refusal;

/// What mending made: the bytes of the new record, and how many words were dropped.
#[derive(Clone, Copy, Debug, PartialEq, Eq)]
pub struct Mended {
    pub bytes: usize,
    pub dropped: usize,
}

// How many words of the version table stay.
fn versions_left(r: &[u8], h: Header) -> u32
    ensures { result ≡ versions_left r.now h }
{
    if version::version_sound(r, h) {
        h.versions
    } else {
        0
    }
}

fn is_kept(h: Header, least: u64, offset: u32) -> bool
    ensures { result ≡ keeps h least offset }
{
    least <= u64::from(offset) && offset < h.code
}

// Goes over the pairs of the source table from the front: where those that are left begin, how many they are, and the least
// offset of the next one that is kept, 1 more than that of the last one or 0.
#[derive(Clone, Copy)]
struct Pairs {
    at: usize,
    left: u32,
    least: u64,
    ghost near: { at + 8 * left ≤ 0x100_0000_0000 },
}

impl Pairs {
    fn of(h: Header) -> Pairs
        ensures at { result.at ≡ sources_at h }
        ensures left { result.left ≡ h.sources / 2 }
        ensures least { result.least ≡ 0 }
    {
        Pairs {
            at: header::sources_at(h),
            left: h.sources / 2,
            least: 0,
        }
    }

    // The place of the next pair, and whether it is kept.
    fn take(&mut self, r: &[u8], h: Header) -> Option<(usize, bool)>
        ensures { MatchOption result (self.old.left ≡ 0) (λ p.
            (p.0 ≡ self.old.at)
            × (p.1 ≡ keeps h self.old.least (word_at r.now self.old.at))
            × (self.new.at ≡ self.old.at + 8)
            × (self.old.left ≡ self.new.left + 1)
            × (self.new.least ≡ least_after h self.old.least (word_at r.now self.old.at))) }
    {
        if self.left == 0 {
            return None;
        }
        let at = self.at;
        let offset = words::word_at(r, at);
        let kept = is_kept(h, self.least, offset);
        let least = if kept {
            u64::from(offset) + 1
        } else {
            self.least
        };
        *self = Pairs {
            at: at + 8,
            left: self.left - 1,
            least,
        };
        Some((at, kept))
    }
}

fn pairs_kept(r: &[u8], h: Header) -> u32
    ensures { result ≡ length (kept_pairs r.now h) }
{
    let mut pairs = Pairs::of(h);
    let mut count = 0;
    while let Some((_, kept)) = pairs.take(r, h) {
        if kept {
            count += 1;
        }
    }
    count
}

// Stores bytes one behind the other, those that there is room for.
fn put_bytes(out: &mut [u8], to: usize, bytes: &[u8])
    requires { to ≤ 2000000 }
    ensures { out.new ≡ sets out.old to bytes.now }
{
    let mut at = to;
    for byte in bytes {
        words::set_byte(out, at, *byte);
        at += 1;
    }
}

// Copies the pairs that are kept, one behind the other.
fn copy_pairs(out: &mut [u8], to: usize, r: &[u8], h: Header)
    requires to_bound { to ≤ 1000000 }
    requires sources_bound { h.sources ≤ 2048 }
    requires h_value { record_length h ≡ length r.now }
    ensures { out.new ≡ sets out.old to (pair_bytes r.now (kept_pairs r.now h)) }
{
    let mut pairs = Pairs::of(h);
    let mut next = to;
    while let Some((at, kept)) = pairs.take(r, h) {
        if kept {
            put_bytes(out, next, words::part(r, at, 8));
            next += 8;
        }
    }
}

fn write_record(r: &[u8], h: Header, versions: u32, pairs: u32, out: &mut [u8])
    requires r_value { size_number r.now ≡ 0 }
    requires h_value { h ≡ header_of r.now }
    requires versions_value { versions ≡ versions_left r.now h }
    requires pairs_value { pairs ≡ length (kept_pairs r.now h) }
    ensures { out.new ≡ sets out.old 0 (mended_record r.now) }
{
    let body = header::versions_at(h) + 4 * (versions as usize);
    put_bytes(out, 0, words::part(r, 0, 20));
    put_bytes(out, 20, &versions.to_be_bytes());
    put_bytes(out, 24, &(2 * pairs).to_be_bytes());
    put_bytes(out, 28, words::part(r, 28, body - 28));
    copy_pairs(out, body, r, h);
}

// Lists `n` words from a place on.
fn list_words(places: &mut [u32], to: usize, at: usize, n: u32)
    requires to_bound { to ≤ 2000000 }
    requires at_bound { at ≤ 2000000 }
    requires n_bound { n ≤ 1000000 }
    ensures { places.new ≡ sets places.old to (word_places at n) }
{
    let mut place = at as u32;
    for k in 0..n {
        words::set_word(places, to + (k as usize), place);
        place += 4;
    }
}

// Lists both words of each pair that is dropped.
fn list_pairs(places: &mut [u32], to: usize, r: &[u8], h: Header)
    requires to_bound { to ≤ 1000000 }
    requires sources_bound { h.sources ≤ 2048 }
    requires h_bound { sources_at h ≤ 1000000 }
    ensures { places.new ≡ sets places.old to (dropped_pairs r.now h) }
{
    let mut pairs = Pairs::of(h);
    let mut next = to;
    while let Some((at, kept)) = pairs.take(r, h) {
        if !kept {
            list_words(places, next, at, 2);
            next += 2;
        }
    }
}

fn write_places(r: &[u8], h: Header, versions: u32, pairs: u32, places: &mut [u32])
    requires r_value { size_number r.now ≡ 0 }
    requires h_value { h ≡ header_of r.now }
    requires versions_value { versions ≡ versions_left r.now h }
    requires pairs_value { pairs ≡ length (kept_pairs r.now h) }
    ensures { places.new ≡ sets places.old 0 (dropped_words r.now) }
{
    let lost = h.versions - versions;
    let table = header::sources_at(h);
    let whole = h.sources / 2;
    list_words(places, 0, header::versions_at(h), lost);
    list_pairs(places, lost as usize, r, h);
    list_words(
        places,
        (lost + 2 * (whole - pairs)) as usize,
        table + 8 * (whole as usize),
        h.sources % 2,
    );
}

// Writes the mended record into `out` and the places of the dropped words into `places`.
pub fn mend(r: &[u8], out: &mut [u8], places: &mut [u32]) -> Result<Mended, Refusal>
    ensures { mending (numbered result) out.new places.new ≡ mend_of r.now out.old places.old }
{
    let h = record::sized(r)?;
    let versions = versions_left(r, h);
    let pairs = pairs_kept(r, h);
    let bytes = header::versions_at(h) + 4 * (versions as usize) + 8 * (pairs as usize);
    if out.len() < bytes {
        return Err(Refusal::Room);
    }
    let dropped = ((h.versions - versions) + (h.sources - 2 * pairs)) as usize;
    if places.len() < dropped {
        return Err(Refusal::Room);
    }
    write_record(r, h, versions, pairs, out);
    write_places(r, h, versions, pairs, places);
    Ok(Mended { bytes, dropped })
}
