// Where control may go.
#![tactic(auto)]

ghost use Rattle.std.specs.Prelude.{◌≡◌, ◌<◌};
ghost use Rattle.operand.specs.Distance.{place_at};
ghost use Rattle.switch_table.specs.Switch.{exit_label};
ghost use Rattle.successors.specs.Successors.{table_size, table_target, else_target};

use shape::Table;

// The place at a distance from an offset of the code.
pub fn place_at(at: usize, distance: u32) -> usize
    requires { at < 65536 }
    ensures { result ≡ place_at at distance }
{
    operand::place_at(at as u32, distance) as usize
}

pub fn exit_label(code: &[u8], at: usize) -> usize
    requires { at < 65536 }
    ensures { result ≡ exit_label code.now at }
{
    switch_table::exit_label(code, at as u32) as usize
}

pub fn else_target(code: &[u8], at: usize) -> usize
    requires { at < 65536 }
    ensures { result ≡ else_target code.now at }
{
    place_at(at, switch_table::else_distance(code, at) as u32)
}

// How many branches a switch's table has.
pub fn table_size(table: Table, n: u32) -> usize
    ensures { result ≡ table_size table n }
{
    match table {
        Table::Branches => (n as usize) + 1,
        Table::Ranges => n as usize,
    }
}

// Where branch `k` goes.
pub fn table_target(code: &[u8], at: usize, table: Table, k: u32) -> usize
    requires { at < 65536 }
    ensures { result ≡ table_target code.now at table k }
{
    match table {
        Table::Branches => place_at(at, switch_table::branch_distance(code, at, k) as u32),
        Table::Ranges => match switch_table::range_distance(code, at, k) {
            0 => else_target(code, at),
            distance => place_at(at, distance as u32),
        },
    }
}
