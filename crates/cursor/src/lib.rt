// A cursor: a record and a place in it, kept together. Its methods take it apart and call `words` on the slice and the place.
#![tactic(auto)]

ghost use Rattle.std.specs.Prelude.{◌≡◌};
ghost use Rattle.words.specs.Bytes.{word_at};
ghost use Rattle.cursor.specs.Cursor.{place_after, pair_at};

#[derive(Clone, Copy)]
pub struct Cursor<'a> {
    pub record: &'a [u8],
    pub at: usize,
}

// Two words that stand one after the other.
#[derive(Clone, Copy)]
pub struct Pair {
    pub first: u32,
    pub second: u32,
}

impl<'a> Cursor<'a> {
    pub fn opened(record: &'a [u8], at: usize) -> Self
        ensures { (result.record ≡ «record».entry) × (result.at ≡ at) }
    {
        Cursor { record, at }
    }

    pub fn word(self) -> u32
        ensures { result ≡ word_at self.entry.record.now self.entry.at }
    {
        words::word_at(self.record, self.at)
    }

    // Where the cursor stands after a word; at or past the end it stays: what is read there is 0 in any case.
    pub fn place_after(self) -> usize
        ensures { result ≡ place_after self.entry.record.now self.entry.at }
    {
        let Cursor { record, at } = self;
        if at < record.len() { at + 4 } else { at }
    }

    pub fn advanced(self) -> Self
        ensures { (result.record ≡ self.entry.record) × (result.at ≡ place_after self.entry.record.now self.entry.at) }
    {
        Cursor {
            at: self.place_after(),
            ..self
        }
    }
}

// With plain parameters, so that no caller needs a walk: the two words from a place on.
pub fn pair_at(record: &[u8], at: usize) -> Pair
    ensures { result ≡ pair_at «record».now at }
{
    let c = Cursor::opened(record, at);
    let first = c.word();
    let second = c.advanced().word();
    Pair { first, second }
}
