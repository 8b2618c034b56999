// Cutting: every start gets its mark in the workspace.
ghost use Rattle.std.specs.Prelude.{◌≡◌, ◌≤◌, ◌<◌, length};
ghost use Rattle.layout.specs.Cut.{starts_in};
ghost use Rattle.layout.specs.Workspace.{marks_in, mark_region, mark_all};
ghost use Rattle.numbers.specs.Number.{number};
ghost use Rattle.workspace.specs.Checking.{checking};

use numbers::Refusal;
use opcode::format::FormatSheet;

// The mark of an offset, 0 outside of so many code bytes.
pub fn mark_at(w: &[u16], size: usize, at: usize) -> u16
    requires { size ≤ 65535 }
    ensures { result ≡ marks_in w.now size at }
{
    if size <= at {
        return 0;
    }
    workspace::half_at(w, 4 * at + 3)
}

// An instruction of procedure `p` starts at an offset.
pub fn starts_in(w: &[u16], size: usize, p: u32, at: usize) -> bool
    requires size_bound { size ≤ 65535 }
    requires p_bound { p < 65535 }
    ensures { result ≡ starts_in (marks_in w.now size) p at }
{
    mark_at(w, size, at) as u32 == p + 1
}

// Cuts procedure `p`'s region end to end.
// Kept: so many turns at most, as `mark_region` has it, since entries need not be sound here.
fn cut_region(formats: FormatSheet<'_>, code: &[u8], p: u32, w: &mut [u16]) -> Result<(), Refusal>
    requires code_len_bound { length code.now ≤ 65535 }
    requires p_bound { p < 65535 }
    ensures { checking (number result) w.new ≡ mark_region code.now p w.old }
{
    let limit = entries::region_end(code, p);
    let mut at = entries::entry_at(code, p) as usize;
    for _ in 0..code.len() {
        if limit <= at {
            return Ok(());
        }
        let (_, next) = opcode::decode(formats, code, limit, at)?;
        workspace::set_half(w, 4 * at + 3, (p + 1) as u16);
        at = next;
    }
    Ok(())
}

// All regions, in the order 1, 2, .., 0.
pub fn cut_all(formats: FormatSheet<'_>, code: &[u8], w: &mut [u16]) -> Result<(), Refusal>
    requires { length code.now ≤ 65535 }
    ensures { checking (number result) w.new ≡ mark_all code.now w.old }
{
    let count = entries::entry_count(code);
    for p in 1..count {
        cut_region(formats, code, p, w)?;
    }
    cut_region(formats, code, 0, w)
}
