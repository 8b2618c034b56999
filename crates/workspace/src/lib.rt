// Total reads and writes of the lent halfwords: a place past the end reads as 0, and writing there changes nothing.
#![tactic(auto)]

ghost use Rattle.std.specs.Prelude.{◌≡◌, get_or, set};

pub fn half_at(w: &[u16], i: usize) -> u16
    ensures { result ≡ get_or w.now i 0 }
{
    w.get(i).copied().unwrap_or(0)
}

// Kept: no generic store, since its edits store the numbers 0 and 1.
pub fn set_half(w: &mut [u16], i: usize, x: u16)
    ensures { w.new ≡ set w.old i x }
{
    if i < w.len() {
        w[i] = x;
    }
}
