// The tables behind SWITCH and SWITCH_X, whose code byte stands at `at`.
#![tactic(auto)]

ghost use Rattle.std.specs.Prelude.{◌≡◌};
ghost use Rattle.switch_table.specs.Switch.{exit_distance, exit_label, else_distance, branch_distance, range_distance, range_holds, search_distance};

pub fn exit_distance(code: &[u8], at: usize) -> u16
    ensures { result ≡ exit_distance code.now at }
{
    words::halfword_behind(code, at, 3)
}

// The exit label of a switch.
pub fn exit_label(code: &[u8], at: u32) -> u32
    ensures { result ≡ exit_label code.now at }
{
    operand::place_at(at, exit_distance(code, at as usize) as u32)
}

pub fn else_distance(code: &[u8], at: usize) -> u16
    ensures { result ≡ else_distance code.now at }
{
    words::halfword_behind(code, at, 5)
}

// The distance to branch `k` of a SWITCH.
pub fn branch_distance(code: &[u8], at: usize, k: u32) -> u16
    ensures { result ≡ branch_distance code.now at k }
{
    words::halfword_behind(code, at, 7 + 2 * (k as usize))
}

// The distance to the branch of range `k` of a SWITCH_X.
pub fn range_distance(code: &[u8], at: usize, k: u32) -> u16
    ensures { result ≡ range_distance code.now at k }
{
    words::halfword_behind(code, at, 15 + 10 * (k as usize))
}

// Whether range `k` of a SWITCH_X holds `x`.
fn range_holds(code: &[u8], at: usize, k: u32, x: u32) -> bool
    ensures { result ≡ range_holds code.now at k x }
{
    let lower = words::word_behind(code, at, 7 + 10 * (k as usize));
    integer::at_most(lower, x)
        && integer::at_most(x, words::word_behind(code, at, 11 + 10 * (k as usize)))
}

// The distance of the first of `n` ranges that holds `x`; 0 where none does.
pub fn search_distance(code: &[u8], at: usize, n: u32, x: u32) -> u16
    ensures { result ≡ search_distance code.now at n x }
{
    let mut k = 0;
    // Kept: a `loop` that yields the distance by `break`, which 01's list of forms names; a `for` over `k` yields nothing.
    loop {
        if k == n {
            break 0;
        }
        if range_holds(code, at, k, x) {
            break range_distance(code, at, k);
        }
        k += 1;
    }
}
