// The header, and where each part of the record lies.
#![tactic(auto)]

ghost use Rattle.std.specs.Prelude.{◌≡◌};
ghost use Rattle.header.specs.Header.{header_of, sizes_fit, code_at, constants_at, relocation_at, versions_at, sources_at, record_length, code_of};

// The sizes that the seven header words give: code in bytes, the others in words.
#[derive(Clone, Copy)]
pub struct Header {
    pub imports: u32,
    pub code: u32,
    pub globals: u32,
    pub constants: u32,
    pub relocation: u32,
    pub versions: u32,
    pub sources: u32,
}

pub fn header_of(r: &[u8]) -> Header
    ensures { result ≡ header_of r.now }
{
    // A pair of words at a time; behind the seventh stands no header word.
    let a = cursor::pair_at(r, 0);
    let b = cursor::pair_at(r, 8);
    let c = cursor::pair_at(r, 16);
    let d = cursor::pair_at(r, 24);
    Header {
        imports: a.first,
        code: a.second,
        globals: b.first,
        constants: b.second,
        relocation: c.first,
        versions: c.second,
        sources: d.first,
    }
}

pub fn sizes_fit(h: Header) -> bool
    ensures { result ≡ sizes_fit h }
{
    h.imports <= 16
        && h.code <= 4096
        && h.globals <= 1024
        && h.constants <= 1024
        && h.relocation <= 4096
        && h.versions <= 16
        && h.sources <= 2048
}

pub fn code_at(h: Header) -> usize
    ensures { result ≡ code_at h }
{
    28 + 4 * (h.imports as usize)
}

pub fn constants_at(h: Header) -> usize
    ensures { result ≡ constants_at h }
{
    code_at(h) + (h.code as usize)
}

pub fn relocation_at(h: Header) -> usize
    ensures { result ≡ relocation_at h }
{
    constants_at(h) + 4 * (h.constants as usize)
}

pub fn versions_at(h: Header) -> usize
    ensures { result ≡ versions_at h }
{
    relocation_at(h) + 4 * (h.relocation as usize)
}

pub fn sources_at(h: Header) -> usize
    ensures { result ≡ sources_at h }
{
    versions_at(h) + 4 * (h.versions as usize)
}

pub fn record_length(h: Header) -> usize
    ensures { result ≡ record_length h }
{
    sources_at(h) + 4 * (h.sources as usize)
}

// The code part of the record.
pub fn code_of(r: &[u8]) -> &[u8]
    ensures { result.now ≡ code_of r.now }
{
    let h = header_of(r);
    let size = h.code as usize;
    words::part(r, code_at(h), size)
}
