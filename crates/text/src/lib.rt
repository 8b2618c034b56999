// Printed text, written as far as there is room: so a first pass over an empty buffer tells how long it is.
#![tactic(auto)]

ghost use Rattle.std.specs.Prelude.{◌≡◌, ◌≤◌, length};
ghost use Rattle.text.specs.Text.{width, decimal, words_text, list_line, numbered, check_line, end_line, Wrote};

// Constant text.
fn put_bytes(out: &mut [u8], at: usize, s: &[u8]) -> usize
    requires at_bound { at ≤ 4000000 }
    requires s_len_bound { length s.now ≤ 100 }
    ensures { Wrote out.old at s.now result out.new }
{
    for (i, &b) in s.iter().enumerate() {
        words::set_byte(out, at + i, b);
    }
    at + s.len()
}

// How many decimal digits a number has.
fn width_of(n: u32) -> u32
    ensures { result ≡ width n }
{
    n.max(1).ilog10() + 1
}

fn put_number(out: &mut [u8], at: usize, n: u32) -> usize
    requires { at ≤ 4000000 }
    ensures { Wrote out.old at (decimal n) result out.new }
{
    let digits = width_of(n);
    for i in 0..digits {
        let digit = n / 10u32.pow(digits - 1 - i) % 10;
        words::set_byte(out, at + (i as usize), b'0' + (digit as u8));
    }
    at + (digits as usize)
}

// Each word behind a space.
fn put_words(out: &mut [u8], at: usize, xs: &[u32]) -> usize
    requires at_bound { at ≤ 1000001 }
    requires xs_len_bound { length xs.now ≤ 65536 }
    ensures { Wrote out.old at (words_text xs.now) result out.new }
{
    let mut place = at;
    for &x in xs {
        place = put_bytes(out, place, b" ");
        place = put_number(out, place, x);
    }
    place
}

// A letter and words.
pub fn put_list(out: &mut [u8], at: usize, letter: u8, xs: &[u32]) -> usize
    requires at_bound { at ≤ 1000000 }
    requires xs_len_bound { length xs.now ≤ 65536 }
    ensures { Wrote out.old at (list_line letter xs.now) result out.new }
{
    words::set_byte(out, at, letter);
    let place = put_words(out, at + 1, xs);
    put_bytes(out, place, b"\n")
}

// A number behind its text.
fn put_numbered(out: &mut [u8], at: usize, s: &[u8], n: u32) -> usize
    requires at_bound { at ≤ 3000000 }
    requires s_len_bound { length s.now ≤ 100 }
    ensures { Wrote out.old at (numbered s.now n) result out.new }
{
    let number = put_bytes(out, at, s);
    put_number(out, number, n)
}

pub fn put_check(out: &mut [u8], at: usize, n: u32) -> usize
    requires { at ≤ 1000000 }
    ensures { Wrote out.old at (check_line n) result out.new }
{
    let place = put_numbered(out, at, b"check ", n);
    put_bytes(out, place, b"\n")
}

pub fn put_end(out: &mut [u8], at: usize, end: u32, place: u32, line: u32, steps: u32) -> usize
    requires { at ≤ 1000000 }
    ensures { Wrote out.old at (end_line end place line steps) result out.new }
{
    let after_end = put_numbered(out, at, b"end ", end);
    let after_place = put_numbered(out, after_end, b" at ", place);
    let after_line = put_numbered(out, after_place, b" line ", line);
    let after_steps = put_numbered(out, after_line, b" steps ", steps);
    put_bytes(out, after_steps, b"\n")
}
