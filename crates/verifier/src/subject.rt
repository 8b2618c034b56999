// What the walk looks at.
ghost use Rattle.std.specs.Prelude.{◌≤◌, length};
ghost use Rattle.words.specs.Bytes.{Bytes};

use entries::Libraries;
use opcode::format::FormatSheet;

/// The code under check, its results list and the libraries of its import list.
#[derive(Clone, Copy)]
pub struct Subject<'a> {
    pub formats: FormatSheet<'a>,
    pub code: &'a [u8],
    pub results: &'a [u8],
    pub libraries: Libraries<'a>,
    ghost code_len_bound: { length code.now ≤ 65535 },
    ghost bytes: { Bytes code.now },
}
