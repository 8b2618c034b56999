// The version word.
#![tactic(auto)]

ghost use Rattle.std.specs.Prelude.{◌≡◌, ◌||◌, eqb};
ghost use Rattle.version.specs.Version.{among, issue_at, version_sound};
ghost use Rattle.version.specs.Issue.{issue_of, earlier, issue3, wraps};

use header::Header;

// Whether a character may be the first of a version word.
fn is_tens(b: u8) -> bool
    ensures { result ≡ (among 48 57 b || eqb b 32) }
{
    b.is_ascii_digit() || b == b' '
}

// Whether a character may be its last.
fn is_revision(b: u8) -> bool
    ensures { result ≡ (eqb b 45 || among 65 90 b) }
{
    b == b'-' || b.is_ascii_uppercase()
}

// Whether the word at `i` names an issue: " 3/-", "12/A".
pub fn issue_at(r: &[u8], i: usize) -> bool
    ensures { result ≡ issue_at r.now i }
{
    is_tens(words::byte_at(r, i))
        && words::byte_behind(r, i, 1).is_ascii_digit()
        && words::byte_behind(r, i, 2) == b'/'
        && is_revision(words::byte_behind(r, i, 3))
}

pub fn version_sound(r: &[u8], h: Header) -> bool
    ensures { result ≡ version_sound r.now h }
{
    h.versions == 0 || issue_at(r, header::versions_at(h))
}

// Tells whether the word at `i` names an issue earlier than 3/-, by its number: no tens, and fewer than 3.
fn is_before_3(r: &[u8], i: usize) -> bool
    ensures { result ≡ earlier (issue_of r.now i) issue3 }
{
    words::byte_at(r, i) <= b'0' && words::byte_behind(r, i, 1) < b'3'
}

// Tells whether unsigned results wrap: the first version word names an issue earlier than 3/-.
pub fn wraps(r: &[u8], h: Header) -> bool
    ensures { result ≡ wraps r.now h }
{
    0 < h.versions && is_before_3(r, header::versions_at(h))
}
