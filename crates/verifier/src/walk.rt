// The walk: the waiting instruction of the lowest offset passes its list on, until none waits or one breaks.
ghost use Rattle.std.specs.Prelude.{◌≡◌, ◌≤◌, ◌<◌, ◌-◌, MatchOption, length};
ghost use Rattle.entries.specs.Entries.{entry_count};
ghost use Rattle.entries.specs.Listed.{listed};
ghost use Rattle.verifier.specs.Handing.{handing, visited_top, first_waiting, walking, walk_top, with_entry, with_entries, walked_top};

use crate::hand;
use crate::hand::Visited;
use crate::subject::Subject;
use compact::top::Top;
use compact_ways::Way;

// The instruction at an offset passes its list on.
#[tactic(auto, unfolding(crate::specs::Handing::visited_top))]
fn visit(subject: Subject<'_>, w: &mut [u16], at: usize) -> Option<usize>
    requires { at < length subject.code.now }
    ensures { let s = subject.entry in handing result w.new ≡ visited_top s.code.now (listed s.libraries) s.results.now at w.old }
{
    // A number is held as one more, and 0 for none reads as 0.
    let p = workspace::half_at(w, 4 * at + 3).saturating_sub(1) as u32;
    let code = subject.code;
    let Ok((i, next)) = opcode::decode(subject.formats, code, entries::region_end(code, p), at)
    else {
        return None;
    };
    let t = Top {
        height: workspace::half_at(w, 4 * at).saturating_sub(1) as u32,
        origin: workspace::half_at(w, 4 * at + 1),
    };
    let out = compact_ways::ways_of(
        code,
        subject.results,
        subject.libraries,
        w,
        p,
        at,
        next,
        shape::shape_of(i),
        t,
    );
    workspace::set_half(w, 4 * at + 2, 0);
    let visited = Visited { code, p, at };
    visited.hand_ways(w, out, at + 1)
}

// The first waiting offset from one on.
fn next_waiting(w: &[u16], size: usize, from: usize) -> Option<usize>
    requires { size ≤ 65535 }
    ensures { let first = first_waiting w.now from (size - from) in
        MatchOption result (size ≤ first) (λ at. (at < size) × (at ≡ first)) }
{
    (from..size).find(|at| workspace::half_at(w, 4 * *at + 2) != 0)
}

// Kept: so many turns at most, as `walk_top` has it; each visits another offset.
fn walk(subject: Subject<'_>, w: &mut [u16]) -> bool
    ensures { let s = subject.entry in
        walking result w.new ≡ walk_top s.code.now (listed s.libraries) s.results.now (length s.code.now) 0 w.old }
{
    let mut from = 0;
    for _ in 0..subject.code.len() {
        let Some(at) = next_waiting(w, subject.code.len(), from) else {
            return true;
        };
        let Some(low) = visit(subject, w, at) else {
            return false;
        };
        from = low;
    }
    true
}

// A procedure's entry is given its parameter words and waits.
#[tactic(auto, unfolding(crate::specs::Handing::with_entry))]
fn give_entry(code: &[u8], w: &mut [u16], p: u32)
    ensures { w.new ≡ with_entry code.now p w.old }
{
    let way = Way {
        place: entries::entry_at(code, p) as usize,
        height: compact_ways::callee_parameters(code, p) as usize,
        origin: 0,
    };
    hand::give(w, way);
}

fn give_entries(code: &[u8], w: &mut [u16])
    ensures { w.new ≡ with_entries code.now 1 (entry_count code.now - 1) w.old }
{
    let count = entries::entry_count(code);
    for p in 1..count {
        give_entry(code, w, p);
    }
    give_entry(code, w, 0);
}

// Whether every region has a stack map; the workspace then holds the least ones.
#[tactic(auto, unfolding(crate::specs::Handing::walked_top))]
pub fn find_maps(subject: Subject<'_>, w: &mut [u16]) -> bool
    ensures { let s = subject.entry in walking result w.new ≡ walked_top s.code.now (listed s.libraries) s.results.now w.old }
{
    give_entries(subject.code, w);
    walk(subject, w)
}
