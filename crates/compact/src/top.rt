// The height of a list of slots and its topmost label.
ghost use Rattle.std.specs.Prelude.{◌≡◌, ◌≤◌, ◌<◌, IsTrue};
ghost use Rattle.stackmap.specs.Ways.{is_iter, is_switch};
ghost use Rattle.compact.specs.Tops.{label_height, origin_under, poppable, labelled, lowered, lowered_by};

// `origin` is 1 plus the offset of the topmost label's origin, 0 if there is no label.
#[derive(Clone, Copy)]
pub struct Top {
    pub height: u32,
    pub origin: u16,
}

// Whether ITER, or a switch, stands at an offset.
pub fn is_iter(code: &[u8], at: usize) -> bool
    ensures { result ≡ is_iter code.now at }
{
    words::byte_at(code, at) == 0xE0
}

pub fn is_switch(code: &[u8], at: usize) -> bool
    ensures { result ≡ is_switch code.now at }
{
    matches!(words::byte_at(code, at), 0xE2 | 0xE3)
}

// The height up to and with the topmost label.
fn label_height(code: &[u8], w: &[u16], origin: u16) -> u16
    ensures { result ≡ label_height code.now w.now origin }
{
    let Some(before) = origin.checked_sub(1) else {
        return 0;
    };
    let at = before as usize;
    let shown = workspace::half_at(w, 4 * at);
    if is_iter(code, at) {
        shown
    } else {
        shown.saturating_sub(1)
    }
}

// The origin of the next label under the topmost one.
pub fn origin_under(w: &[u16], origin: u16) -> u16
    ensures { result ≡ origin_under w.now origin }
{
    match origin.checked_sub(1) {
        None => 0,
        Some(at) => workspace::half_at(w, 4 * at as usize + 1),
    }
}

impl Top {
    // Whether the top `n` slots are words.
    #[tactic(auto, unfolding(crate::specs::Tops::poppable))]
    pub fn is_poppable(self, code: &[u8], w: &[u16], n: u32) -> bool
        ensures value { result ≡ poppable code.now w.now self n }
        ensures within { IsTrue result → n ≤ self.height }
    {
        n as u64 + label_height(code, w, self.origin) as u64 <= self.height as u64
    }

    // Whether the topmost label is the top slot; without a label, whether the list is empty.
    #[tactic(auto, unfolding(crate::specs::Tops::labelled))]
    pub fn is_labelled(self, code: &[u8], w: &[u16]) -> bool
        ensures { result ≡ labelled code.now w.now self }
    {
        label_height(code, w, self.origin) as u32 == self.height
    }

    // Without the top slot.
    #[tactic(auto, unfolding(crate::specs::Tops::lowered))]
    fn lowered(self, code: &[u8], w: &[u16]) -> Top
        requires { 1 ≤ self.height }
        ensures { result ≡ lowered code.now w.now self }
    {
        Top {
            height: self.height - 1,
            origin: if self.is_labelled(code, w) {
                origin_under(w, self.origin)
            } else {
                self.origin
            },
        }
    }

    // Without the top `n` slots.
    pub fn lowered_by(self, code: &[u8], w: &[u16], n: u32) -> Top
        requires { n ≤ self.height }
        ensures { result ≡ lowered_by code.now w.now n self }
    {
        let mut top = self;
        for _ in 0..n {
            top = top.lowered(code, w);
        }
        top
    }
}
