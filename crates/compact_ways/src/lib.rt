// What an instruction gives to its successors.
#![tactic(auto)]

ghost use Rattle.std.specs.Prelude.{◌≡◌, ◌<◌};
ghost use Rattle.entries.specs.Listed.{listed};
ghost use Rattle.stackmap.specs.Ways.{parameters_in, results_in};
ghost use Rattle.compact_ways.specs.Ways.{toward, in_order, straight_ways, pop_ways, jump_c_ways, jump_tf_ways, iter_ways, next_ways, leave_ways, switch_ways, rtn_ways, external_ways, ways_top};

use compact::top;
use compact::top::Top;
use entries::Libraries;
use shape::{Shape, Table};

// A successor, and the list that it is given.
#[derive(Clone, Copy)]
pub struct Way {
    pub place: usize,
    pub height: usize,
    pub origin: u16,
}

#[derive(Clone, Copy)]
pub enum Ways {
    // the list is not as the instruction must find it
    Broken,
    Ended,
    One(Way),
    Two(Way, Way),
    // every branch of a switch's table, and its ELSE part
    Many(Table, u32, Top),
}

// "the parameter words of its ENTER (procedure 0: none)".
pub fn callee_parameters(code: &[u8], p: u32) -> u32
    ensures { result ≡ parameters_in code.now p }
{
    if p == 0 {
        return 0;
    }
    words::byte_at(code, entries::entry_at(code, p) as usize + 1) as u32
}

pub fn callee_results(results: &[u8], p: u32) -> u32
    ensures { result ≡ results_in results.now p }
{
    words::byte_at(results, p as usize) as u32
}

pub fn way_toward(place: usize, t: Top) -> Way
    ensures { result ≡ toward place t }
{
    Way {
        place,
        height: t.height as usize,
        origin: t.origin,
    }
}

#[tactic(auto, unfolding(crate::specs::Ways::in_order))]
fn in_order(on: Way, away: Way) -> Ways
    ensures { result ≡ in_order on away }
{
    if on.place <= away.place {
        Ways::Two(on, away)
    } else {
        Ways::Two(away, on)
    }
}

#[tactic(auto, unfolding(crate::specs::Ways::straight_ways))]
fn straight_ways(code: &[u8], w: &[u16], next: usize, t: Top, pops: u32, pushes: u32) -> Ways
    ensures { result ≡ straight_ways code.now w.now next t pops pushes }
{
    if !t.is_poppable(code, w, pops) {
        return Ways::Broken;
    }
    Ways::One(Way {
        place: next,
        height: (t.height - pops) as usize + pushes as usize,
        origin: t.origin,
    })
}

#[tactic(auto, unfolding(crate::specs::Ways::pop_ways))]
fn pop_ways(code: &[u8], w: &[u16], next: usize, t: Top, n: u32) -> Ways
    ensures { result ≡ pop_ways code.now w.now next t n }
{
    if t.height < n {
        return Ways::Broken;
    }
    Ways::One(way_toward(next, t.lowered_by(code, w, n)))
}

#[tactic(auto, unfolding(crate::specs::Ways::jump_c_ways))]
fn jump_c_ways(code: &[u8], w: &[u16], at: usize, next: usize, t: Top, distance: u32) -> Ways
    requires { at < 65535 }
    ensures { result ≡ jump_c_ways code.now w.now at next t distance }
{
    if !t.is_poppable(code, w, 1) {
        return Ways::Broken;
    }
    let on = Way {
        place: next,
        height: (t.height - 1) as usize,
        origin: t.origin,
    };
    let away = Way {
        place: successors::place_at(at, distance),
        ..on
    };
    in_order(on, away)
}

#[tactic(auto, unfolding(crate::specs::Ways::jump_tf_ways))]
fn jump_tf_ways(code: &[u8], w: &[u16], at: usize, next: usize, t: Top, distance: u32) -> Ways
    requires { at < 65535 }
    ensures { result ≡ jump_tf_ways code.now w.now at next t distance }
{
    if !t.is_poppable(code, w, 1) {
        return Ways::Broken;
    }
    let on = Way {
        place: next,
        height: (t.height - 1) as usize,
        origin: t.origin,
    };
    in_order(on, way_toward(successors::place_at(at, distance), t))
}

#[tactic(auto, unfolding(crate::specs::Ways::iter_ways))]
fn iter_ways(code: &[u8], w: &[u16], at: usize, next: usize, t: Top, distance: u32) -> Ways
    requires { at < 65535 }
    ensures { result ≡ iter_ways code.now w.now at next t distance }
{
    if !t.is_poppable(code, w, 4) {
        return Ways::Broken;
    }
    let on = Way {
        place: next,
        height: t.height as usize + 1,
        origin: at as u16 + 1,
    };
    let away = Way {
        place: successors::place_at(at, distance),
        height: (t.height - 4) as usize,
        origin: t.origin,
    };
    in_order(on, away)
}

#[tactic(auto, unfolding(crate::specs::Ways::next_ways))]
fn next_ways(code: &[u8], w: &[u16], next: usize, t: Top) -> Ways
    ensures { result ≡ next_ways code.now w.now next t }
{
    let Some(origin) = t.origin.checked_sub(1) else {
        return Ways::Broken;
    };
    let origin = origin as usize;
    if !top::is_iter(code, origin) || !t.is_labelled(code, w) {
        return Ways::Broken;
    }
    let on = Way {
        place: next,
        height: t.height.saturating_sub(5) as usize,
        origin: top::origin_under(w, t.origin),
    };
    in_order(on, way_toward(origin + 3, t))
}

#[tactic(auto, unfolding(crate::specs::Ways::leave_ways))]
fn leave_ways(code: &[u8], w: &[u16], t: Top) -> Ways
    ensures { result ≡ leave_ways code.now w.now t }
{
    let Some(origin) = t.origin.checked_sub(1) else {
        return Ways::Broken;
    };
    let origin = origin as usize;
    if !top::is_switch(code, origin) || !t.is_labelled(code, w) {
        return Ways::Broken;
    }
    Ways::One(Way {
        place: successors::exit_label(code, origin),
        height: t.height.saturating_sub(1) as usize,
        origin: top::origin_under(w, t.origin),
    })
}

#[tactic(auto, unfolding(crate::specs::Ways::switch_ways))]
fn switch_ways(code: &[u8], w: &[u16], at: usize, t: Top, table: Table, n: u32) -> Ways
    requires { at < 65535 }
    ensures { result ≡ switch_ways code.now w.now at t table n }
{
    if !t.is_poppable(code, w, 1) {
        return Ways::Broken;
    }
    Ways::Many(
        table,
        n,
        Top {
            height: t.height,
            origin: at as u16 + 1,
        },
    )
}

#[tactic(auto, unfolding(crate::specs::Ways::rtn_ways))]
fn rtn_ways(t: Top, results: u32) -> Ways
    ensures { result ≡ rtn_ways t results }
{
    if t.height != results || t.origin != 0 {
        return Ways::Broken;
    }
    Ways::Ended
}

// CALL_E: parameters and results are those of the library's own module.
#[tactic(auto, unfolding(crate::specs::Ways::external_ways))]
fn external_ways(
    code: &[u8],
    libraries: Libraries<'_>,
    w: &[u16],
    next: usize,
    t: Top,
    l: u32,
    c: u32,
) -> Ways
    ensures { result ≡ external_ways code.now (listed libraries.entry) w.now next t l c }
{
    let parameters = callee_parameters(libraries.code(l), c);
    let results = callee_results(libraries.results(l), c);
    straight_ways(code, w, next, t, parameters, results)
}

// The ways out of an instruction at an offset of procedure `p`, of a shape, before `next`.
#[tactic(auto, unfolding(crate::specs::Ways::ways_top))]
pub fn ways_of(
    code: &[u8],
    results: &[u8],
    libraries: Libraries<'_>,
    w: &[u16],
    p: u32,
    at: usize,
    next: usize,
    shape: Shape,
    t: Top,
) -> Ways
    requires { at < 65535 }
    ensures { result ≡ ways_top code.now (listed libraries.entry) results.now w.now p at next shape t }
{
    match shape {
        Shape::Straight(pops, pushes) => straight_ways(code, w, next, t, pops, pushes),
        Shape::Pop(n) => pop_ways(code, w, next, t, n),
        Shape::Jump(distance) => Ways::One(way_toward(successors::place_at(at, distance), t)),
        Shape::JumpC(distance) => jump_c_ways(code, w, at, next, t, distance),
        Shape::JumpTF(distance) => jump_tf_ways(code, w, at, next, t, distance),
        Shape::Iter(distance) => iter_ways(code, w, at, next, t, distance),
        Shape::Next => next_ways(code, w, next, t),
        Shape::Switch(table, n) => switch_ways(code, w, at, t, table, n),
        Shape::Leave => leave_ways(code, w, t),
        Shape::Call(c) => {
            let parameters = callee_parameters(code, c);
            straight_ways(code, w, next, t, parameters, callee_results(results, c))
        }
        Shape::CallExternal(l, c) => external_ways(code, libraries, w, next, t, l, c),
        Shape::Enter(parameters) => straight_ways(code, w, next, t, parameters, 0),
        Shape::Rtn => rtn_ways(t, callee_results(results, p)),
    }
}
