// The registers, by value.
#![tactic(auto)]

ghost use Rattle.std.specs.Prelude.{◌≡◌, ◌≤◌, ◌<◌, ◌+◌};
ghost use Rattle.registers.specs.Memory.{link_words};
ghost use Rattle.registers.specs.Changes.{moved, sized, raised, called, returned};

use access::{is_above_zero, negated, word_at};

pub mod access;
pub mod table;

#[derive(Clone, Copy)]
pub struct Registers {
    pub pc: u32,
    pub fp: u32,
    pub mp: u32,
    pub gp: u32,
    pub height: u32,
    pub calls: u32,
}

// What a run knows of the running module besides its code: where its globals and its constants begin, where the frames of calls
// begin, and whether unsigned results wrap.
#[derive(Clone, Copy)]
pub struct Attributes {
    pub globals: u32,
    pub constants: u32,
    pub frames: u32,
    pub wraps: bool,
}

impl Registers {
    pub fn moved(self, place: u32) -> Registers
        ensures { result ≡ moved self place }
    {
        Registers { pc: place, ..self }
    }

    pub fn sized(self, place: u32, mp: u32) -> Registers
        ensures { result ≡ sized self place mp }
    {
        let moved = self.moved(place);
        Registers { mp, ..moved }
    }

    pub fn raised(self, height: u32) -> Registers
        ensures { result ≡ raised self height }
    {
        Registers { height, ..self }
    }

    // The registers in a callee, behind so many link words.
    pub fn called(self, links: u32, gp: u32, entry: u32) -> Registers
        requires links_bound { self.mp + links ≤ 16384 }
        requires calls_bound { self.calls < 64 }
        ensures { result ≡ called self links gp entry }
    {
        let mp = self.mp + links;
        Registers {
            pc: entry,
            fp: mp,
            mp,
            gp,
            calls: self.calls + 1,
            ..self
        }
    }

    // The registers back in a caller.
    pub fn returned(self, m: &[u32]) -> Registers
        requires fp_bound { link_words m.now self.fp ≤ self.fp }
        requires le_calls { 1 ≤ self.calls }
        ensures { result ≡ returned self m.now }
    {
        let fp = self.fp;
        let back = word_at(m, (fp - 1) as usize);
        let fewer = Registers {
            fp: word_at(m, (fp - 2) as usize),
            calls: self.calls - 1,
            ..self
        };
        if is_above_zero(back) {
            return Registers {
                pc: back,
                mp: fp - 2,
                ..fewer
            };
        }
        Registers {
            pc: negated(back),
            mp: fp - 3,
            gp: word_at(m, (fp - 3) as usize),
            ..fewer
        }
    }
}
