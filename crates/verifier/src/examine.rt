// The numbers 10 to 15 of one module, and what is left of the workspace.
ghost use Rattle.std.specs.Prelude.{◌≡◌, true, ◌++◌, ◌≤◌, ◌*◌, length, drop, replicate};
ghost use Rattle.numbers.specs.Number.{number};
ghost use Rattle.entries.specs.Entries.{entries_sound};
ghost use Rattle.entries.specs.Listed.{listed};
ghost use Rattle.workspace.specs.Checking.{checking};
ghost use Rattle.verifier.specs.Check.{concluded};
ghost use Rattle.verifier.specs.Examine.{unmarked, tested_top, examined_top, examined_of};

use crate::subject::Subject;
use crate::walk;
use layout::marks;
use numbers::Refusal;

// The first `n` halfwords.
pub fn clear_front(w: &mut [u16], n: usize)
    requires { n ≤ length w.old }
    ensures { w.new ≡ replicate n 0 ++ drop n w.old }
{
    w[..n].fill(0);
}

// Kept: a loop over offsets, since the marks are one halfword in four of any workspace, also one too short for them.
pub fn clear_marks(w: &mut [u16], size: usize)
    requires { size ≤ 65535 }
    ensures { w.new ≡ unmarked 0 size w.old }
{
    for at in 0..size {
        workspace::set_half(w, 4 * at + 3, 0);
    }
}

// The tests in their order, over a workspace of zeros.
#[tactic(auto, unfolding(crate::specs::Examine::tested_top))]
fn test(subject: Subject<'_>, w: &mut [u16]) -> Result<(), Refusal>
    ensures { let s = subject.entry in
        checking (number result) w.new ≡ tested_top s.code.now (listed s.libraries) s.results.now w.old }
{
    marks::cut_all(subject.formats, subject.code, w)?;
    faults::code_number(subject.formats, subject.code, subject.libraries, w)?;
    if !walk::find_maps(subject, w) {
        return Err(Refusal::Unmapped);
    }
    Ok(())
}

// The code of a sound record, with a workspace of just four halfwords for each byte.
#[tactic(auto, unfolding(crate::specs::Examine::examined_top))]
fn examine(subject: Subject<'_>, w: &mut [u16]) -> Result<(), Refusal>
    ensures { let s = subject.entry in
        checking (number result) w.new ≡ examined_top s.code.now (listed s.libraries) s.results.now w.old }
{
    w.fill(0);
    let answer = test(subject, w);
    match answer {
        Ok(()) => clear_marks(w, subject.code.len()),
        Err(_) => w.fill(0),
    }
    answer
}

// The same with any longer workspace.
pub fn examine_in(subject: Subject<'_>, w: &mut [u16]) -> Result<(), Refusal>
    requires sound { entries_sound subject.code.now ≡ true }
    requires room { 4 * length subject.code.now ≤ length w.old }
    ensures { let s = subject.entry in
        checking (number result) w.new
        ≡ concluded (length s.code.now) w.old (examined_of s.code.now (listed s.libraries) s.results.now) }
{
    let size = 4 * subject.code.len();
    examine(subject, &mut w[..size])
}
