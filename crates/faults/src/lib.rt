// The numbers 12 to 14, from the marks that the workspace holds.
#![tactic(auto)]

ghost use Rattle.std.specs.Prelude.{◌≡◌, [], ◌∷◌, ◌≤◌, ◌<◌, eqb, length};
ghost use Rattle.entries.specs.Entries.{entry_at};
ghost use Rattle.numbers.specs.Number.{number};
ghost use Rattle.entries.specs.Listed.{listed};
ghost use Rattle.successors.specs.Successors.{table_size, table_from, switch_targets};
ghost use Rattle.switch_table.specs.Switch.{exit_label};
ghost use Rattle.faults.specs.Faults.{all_start, bare, strays, misplaced_by, misplaced, uncallable, code_number};
ghost use Rattle.shape.specs.Linkage.{entering};
ghost use Rattle.layout.specs.Cut.{starts_in};
ghost use Rattle.layout.specs.Workspace.{marks_in};

use entries::Libraries;
use layout::marks;
use numbers::Refusal;
use opcode::format::FormatSheet;
use shape::{Shape, Table};

// Where an instruction of procedure `p` stands, with the marks that the workspace holds of the code.
#[derive(Clone, Copy)]
struct Place<'a> {
    code: &'a [u8],
    w: &'a [u16],
    p: u32,
    at: usize,
    ghost code_len_bound: { length code.now ≤ 65535 },
    ghost p_bound: { p < 65535 },
    ghost at_bound: { at < 65536 },
}

impl<'a> Place<'a> {
    ghost use Rattle.faults.specs.OnePass.{marks_of, fault_of, fault_at};

    // An instruction of the same region starts at an offset.
    fn starts(self, other: usize) -> bool
        ensures { result ≡ starts_in (marks_of self.entry) self.entry.p other }
    {
        marks::starts_in(self.w, self.code.len(), self.p, other)
    }

    fn both_start(self, first: usize, second: usize) -> bool
        ensures { result ≡ all_start (marks_of self.entry) self.entry.p (first ∷ second ∷ []) }
    {
        self.starts(first) && self.starts(second)
    }

    // Every branch of a switch's table starts in the region.
    fn table_starts(self, table: Table, n: u32) -> bool
        ensures { let targets = table_from self.entry.code.now self.entry.at table 0 (table_size table n) in
            result ≡ all_start (marks_of self.entry) self.entry.p targets }
    {
        (0..successors::table_size(table, n)).all(|k| {
            self.starts(successors::table_target(self.code, self.at, table, k as u32))
        })
    }

    #[tactic(auto, unfolding(successors::specs::Successors::switch_targets))]
    fn switch_starts(self, table: Table, n: u32) -> bool
        ensures { let code = self.entry.code.now in let at = self.entry.at in
            result ≡ all_start (marks_of self.entry) self.entry.p (exit_label code at ∷ switch_targets code at table n) }
    {
        let label = successors::exit_label(self.code, self.at);
        let other = successors::else_target(self.code, self.at);
        self.both_start(label, other) && self.table_starts(table, n)
    }

    // 12: a successor or switch label is no start in its region.
    #[tactic(auto, unfolding(crate::specs::Faults::strays))]
    fn is_stray(self, next: usize, shape: Shape) -> bool
        ensures { result ≡ strays self.entry.code.now (marks_of self.entry) self.entry.p self.entry.at next shape }
    {
        match shape {
            Shape::Straight(_, _)
            | Shape::Pop(_)
            | Shape::Next
            | Shape::Call(_)
            | Shape::CallExternal(_, _)
            | Shape::Enter(_) => !self.starts(next),
            Shape::Jump(distance) => !self.starts(successors::place_at(self.at, distance)),
            Shape::JumpC(distance) | Shape::JumpTF(distance) | Shape::Iter(distance) => {
                !self.both_start(next, successors::place_at(self.at, distance))
            }
            Shape::Switch(table, n) => !self.switch_starts(table, n),
            Shape::Leave | Shape::Rtn => false,
        }
    }

    // Whether this is the procedure's first instruction.
    fn is_entry(self) -> bool
        ensures { result ≡ eqb self.entry.at (entry_at self.entry.code.now self.entry.p) }
    {
        self.at == entries::entry_at(self.code, self.p) as usize
    }

    // 13: an ENTER that is not its procedure's first, or procedure 0's with parameters; another instruction that begins a procedure
    // from 1 on.
    #[tactic(auto, unfolding(crate::specs::Faults::misplaced))]
    fn is_misplaced(self, next: usize, shape: Shape) -> bool
        ensures { result ≡ misplaced self.entry.code.now self.entry.p self.entry.at next shape }
    {
        match shape {
            Shape::Enter(parameters) => !self.is_entry() || self.p == 0 && parameters != 0,
            _ => self.is_entry() && self.p != 0,
        }
    }

    // 14: callee 0 or not in the entries, for a library's procedure those of its own module.
    #[tactic(auto, unfolding(crate::specs::Faults::uncallable))]
    fn is_uncallable(self, libraries: Libraries<'_>, next: usize, shape: Shape) -> bool
        ensures { result ≡ uncallable self.entry.code.now (listed libraries.entry) self.entry.p self.entry.at next shape }
    {
        match shape {
            Shape::Call(c) => entries::is_no_callee(self.code, c),
            Shape::CallExternal(l, c) => entries::is_no_callee(libraries.code(l), c),
            _ => false,
        }
    }

    #[tactic(auto, unfolding(crate::specs::OnePass::fault_of))]
    fn fault_of(self, libraries: Libraries<'_>, next: usize, shape: Shape) -> Result<(), Refusal>
        ensures { number result
            ≡ fault_of self.entry.code.now (listed libraries.entry) (marks_of self.entry) self.entry.p self.entry.at next shape }
    {
        if self.is_stray(next, shape) {
            return Err(Refusal::Stray);
        }
        if self.is_misplaced(next, shape) {
            return Err(Refusal::Misplaced);
        }
        if self.is_uncallable(libraries, next, shape) {
            return Err(Refusal::Uncallable);
        }
        Ok(())
    }

    // The lowest number that the instruction gives.
    #[tactic(auto, unfolding(crate::specs::OnePass::fault_at))]
    fn fault_at(self, formats: FormatSheet<'_>, libraries: Libraries<'_>) -> Result<(), Refusal>
        ensures { number result ≡ fault_at self.entry.code.now (listed libraries.entry) (marks_of self.entry) self.entry.p self.entry.at }
    {
        let limit = entries::region_end(self.code, self.p);
        match opcode::decode(formats, self.code, limit, self.at) {
            Ok((i, next)) => self.fault_of(libraries, next, shape::shape_of(i)),
            Err(_) => Ok(()),
        }
    }
}

// The lowest of 12 to 14 over every instruction cut.
pub fn code_number(
    formats: FormatSheet<'_>,
    code: &[u8],
    libraries: Libraries<'_>,
    w: &[u16],
) -> Result<(), Refusal>
    requires { length code.now ≤ 65535 }
    ensures { number result ≡ code_number code.now (listed libraries.entry) (marks_in w.now (length code.now)) }
{
    let mut lowest = Ok(());
    for at in 0..code.len() {
        let mark = marks::mark_at(w, code.len(), at);
        if mark != 0 {
            let place = Place {
                code,
                w,
                p: mark as u32 - 1,
                at,
            };
            lowest = numbers::lower(lowest, place.fault_at(formats, libraries));
        }
    }
    lowest
}
