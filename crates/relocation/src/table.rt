// The relocation table, entry by entry.
ghost use Rattle.std.specs.Prelude.{◌≡◌, ◌+◌, ◌*◌, ◌≤◌, [], ◌∷◌};
ghost use Rattle.std.specs.Option.{MatchOption};
ghost use Rattle.words.specs.Bytes.{word_at};
ghost use Rattle.words.specs.Series.{series};
ghost use Rattle.relocation.specs.Relocation.{relocations_of};

// Where the entries that are left begin, and how many they are.
#[derive(Clone, Copy)]
pub(crate) struct Relocations {
    at: usize,
    left: u32,
    ghost near: { at + 4 * left ≤ 0x100_0000_0000 },
}

impl Relocations {
    pub(crate) fn of(r: &[u8]) -> Relocations
        ensures { series (word_at r.now) 4 result.at result.left ≡ relocations_of r.now }
    {
        let h = header::header_of(r);
        Relocations {
            at: header::relocation_at(h),
            left: h.relocation,
        }
    }

    // The place that the next entry names.
    pub(crate) fn take(&mut self, r: &[u8]) -> Option<usize>
        ensures less { MatchOption result (self.old.left ≡ 0) (λ place. self.old.left ≡ self.new.left + 1) }
        ensures place { MatchOption result (series (word_at r.now) 4 self.old.at self.old.left ≡ []) (λ place.
            series (word_at r.now) 4 self.old.at self.old.left
            ≡ place ∷ series (word_at r.now) 4 self.new.at self.new.left) }
    {
        if self.left == 0 {
            return None;
        }
        let place = words::word_at(r, self.at) as usize;
        *self = Relocations {
            at: self.at + 4,
            left: self.left - 1,
        };
        Some(place)
    }
}
