// The numbers handed back: refusals, in place of an answer, and traps, as ends of a run.
#![tactic(auto)]

ghost use Rattle.std.specs.Prelude.{◌≡◌};
ghost use Rattle.words.specs.Refusal.{lower};
ghost use Rattle.numbers.specs.Number.{number_of, number};
ghost use Rattle.numbers.specs.TrapNumber.{trap_number};

/// Why a record, a set of modules, a run file or a state is refused; docs/NUMBERS.md has each in the papers' words.
#[derive(Clone, Copy, Debug, PartialEq, Eq)]
pub enum Refusal {
    Short = 1,
    Oversized = 2,
    Length = 3,
    Version = 5,
    Sources = 6,
    Entries = 7,
    Room = 8,
    Results = 9,
    Unserved = 10,
    Past = 11,
    Stray = 12,
    Misplaced = 13,
    Uncallable = 14,
    Unmapped = 15,
    RunFile = 16,
    Linkage = 17,
    Relocation = 18,
    State = 24,
}

impl Refusal {
    pub fn number(self) -> u32
        ensures { result ≡ number_of self }
    {
        self as u32
    }
}

/// Why a run stops at an instruction: code traps, which no run of accepted records ends in, and from 30 on data traps.
#[derive(Clone, Copy, Debug, PartialEq, Eq)]
pub enum Trap {
    Unserved = 20,
    Outside = 21,
    TooFewWords = 22,
    Uncallable = 23,
    ZeroDivisor = 30,
    OutOfRange = 31,
    NotLive = 32,
    Protected = 33,
    NotBoolean = 34,
    MemoryFull = 35,
    StackFull = 36,
    CallsFull = 37,
    BelowFrame = 38,
}

impl Trap {
    pub fn number(self) -> u32
        ensures { result ≡ trap_number self }
    {
        u32::from(self as u8)
    }
}

/// The number that is handed back: 0, or that of the refusal.
pub fn number<T: Copy>(answer: Result<T, Refusal>) -> u32
    ensures { result ≡ number answer }
{
    match answer {
        Ok(_) => 0,
        Err(refusal) => refusal.number(),
    }
}

/// The refusal of the lower number, of those that there are.
pub fn lower(a: Result<(), Refusal>, b: Result<(), Refusal>) -> Result<(), Refusal>
    ensures { number result ≡ lower (number a) (number b) }
{
    match (a, b) {
        (Ok(()), _) => b,
        (_, Ok(())) => a,
        (Err(x), Err(y)) => if y.number() < x.number() { b } else { a },
    }
}
