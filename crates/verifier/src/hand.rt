// Lists are handed on, over the workspace.
ghost use Rattle.std.specs.Prelude.{◌≡◌, ◌≤◌, ◌<◌, length};
ghost use Rattle.successors.specs.Successors.{table_size, table_from, switch_targets};
ghost use Rattle.verifier.specs.Handing.{handing, with_list, taken_top, handed_top, handed_two, handed_targets, handed_ways};

use compact::top::Top;
use compact_ways::{Way, Ways};
use layout::marks;
use shape::Table;

// An offset is given its list and waits.
#[tactic(auto, unfolding(crate::specs::Handing::with_list))]
pub fn give(w: &mut [u16], way: Way)
    requires place_bound { way.place < 65536 }
    requires height_bound { way.height ≤ 255 }
    ensures { w.new ≡ with_list w.old way.place way.height way.origin }
{
    workspace::set_half(w, 4 * way.place, way.height as u16 + 1);
    workspace::set_half(w, 4 * way.place + 1, way.origin);
    workspace::set_half(w, 4 * way.place + 2, 1);
}

// A blank offset takes its list; one that has a list takes the same one. Nothing waits below the offset that is answered; there is
// none where it broke, here and below.
#[tactic(auto, unfolding(crate::specs::Handing::taken_top))]
fn take(w: &mut [u16], way: Way, from: usize) -> Option<usize>
    requires place_bound { way.place < 65536 }
    requires height_bound { way.height ≤ 255 }
    ensures { handing result w.new ≡ taken_top w.old way from }
{
    let shown = workspace::half_at(w, 4 * way.place) as usize;
    if shown == 0 {
        give(w, way);
        return Some(way.place.min(from));
    }
    if shown != way.height + 1 || workspace::half_at(w, 4 * way.place + 1) != way.origin {
        return None;
    }
    Some(from)
}

/// The instruction of procedure `p` that is visited.
#[derive(Clone, Copy)]
pub struct Visited<'a> {
    pub code: &'a [u8],
    pub p: u32,
    pub at: usize,
    ghost code_len_bound: { length code.now ≤ 65535 },
    ghost p_bound: { p < 65535 },
    ghost at_bound: { at < 65535 },
}

impl<'a> Visited<'a> {
    #[tactic(auto, unfolding(crate::specs::Handing::handed_top))]
    fn hand(self, w: &mut [u16], way: Way, from: usize) -> Option<usize>
        ensures { handing result w.new ≡ handed_top (length self.entry.code.now) self.entry.p way from w.old }
    {
        if !marks::starts_in(w, self.code.len(), self.p, way.place) || 255 < way.height {
            return None;
        }
        take(w, way, from)
    }

    #[tactic(auto, unfolding(crate::specs::Handing::handed_two))]
    fn hand_two(self, w: &mut [u16], first: Way, second: Way, from: usize) -> Option<usize>
        ensures { handing result w.new ≡ handed_two (length self.entry.code.now) self.entry.p first second from w.old }
    {
        let low = self.hand(w, first, from)?;
        self.hand(w, second, low)
    }

    // The same list to every branch of a switch's table.
    fn hand_table(self, w: &mut [u16], table: Table, n: u32, t: Top, from: usize) -> Option<usize>
        ensures { let code = self.entry.code.now in
            handing result w.new
            ≡ handed_targets (length code) self.entry.p t (table_from code self.entry.at table 0 (table_size table n)) from w.old }
    {
        let mut low = from;
        for k in 0..successors::table_size(table, n) {
            let place = successors::table_target(self.code, self.at, table, k as u32);
            low = self.hand(w, compact_ways::way_toward(place, t), low)?;
        }
        Some(low)
    }

    // To the ELSE part, then to every branch.
    #[tactic(auto, unfolding(successors::specs::Successors::switch_targets))]
    fn hand_many(self, w: &mut [u16], table: Table, n: u32, t: Top, from: usize) -> Option<usize>
        ensures { let code = self.entry.code.now in
            handing result w.new ≡ handed_targets (length code) self.entry.p t (switch_targets code self.entry.at table n) from w.old }
    {
        let place = successors::else_target(self.code, self.at);
        let low = self.hand(w, compact_ways::way_toward(place, t), from)?;
        self.hand_table(w, table, n, t, low)
    }

    // Every way out.
    #[tactic(auto, unfolding(crate::specs::Handing::handed_ways))]
    pub fn hand_ways(self, w: &mut [u16], ways: Ways, from: usize) -> Option<usize>
        ensures { handing result w.new ≡ handed_ways self.entry.code.now self.entry.p self.entry.at ways from w.old }
    {
        match ways {
            Ways::Broken => None,
            Ways::Ended => Some(from),
            Ways::One(way) => self.hand(w, way, from),
            Ways::Two(first, second) => self.hand_two(w, first, second, from),
            Ways::Many(table, n, t) => self.hand_many(w, table, n, t, from),
        }
    }
}
