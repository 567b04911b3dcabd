// Lines that belong together: those of a unit row, of a constraint's residual, and of a contract in one region. How many they are, and the one
// of a number.
#![tactic(auto)]

ghost use Rattle.std.specs.Prelude.{◌≡◌, ◌≤◌, ◌<◌, length};
ghost use Rattle.ground.specs.Nth.{found, nth};
ghost use Rattle.records.specs.Rows.{entry_row};
ghost use Rattle.rules.specs.Inner.Facts.{UnitRule};
ghost use Rattle.totals.specs.Inner.Totals.{entry_of};
ghost use Rattle.amounts.specs.Inner.Bounds.{SmallPools, SmallResidual};
ghost use Rattle.lines.specs.Lines.{unit_lines, rest_lines, region_lines};
ghost use Rattle.groups.specs.Inner.Each.{each_of, region_each};
ghost use Rattle.lines.specs.Inner.Walks.{ContractSettles};

use amounts::pools;
use amounts::pools::{Pools, Residual};
use lines::make;
use lines::portion::Portion;
use market::Mode;
use records::rows;
use records::rows::{Constraint, Contract, UnitRow};
use statement::Line;
use totals::entries::Totals;

// How many lines a unit row of the constraint has, and how many its residual.
pub fn lines_each(r: Constraint) -> usize
    ensures { (result ≡ each_of r) × (result ≤ 3) }
{
    if r.mode == Mode::FACTORED { 3 } else { 1 }
}

// Two lines in a region that a contract benefits.
pub fn region_count(factor: u32) -> usize
    ensures { (result ≡ region_each factor) × (result ≤ 2) }
{
    if factor == 0 { 0 } else { 2 }
}

// Line i of a unit row. In mode 2 it has its unused line alone. A residual's lines go the same way, below: one function for both would take three
// closures or a trait of three methods, and would be no plainer.
pub fn unit_line(r: Constraint, p: Pools, q: UnitRow, i: usize) -> Line
    requires i_in_bounds { i < length (unit_lines r p q) }
    requires small_pools { SmallPools p }
    requires unit_rule { UnitRule q }
    ensures { nth (unit_lines r p q) i ≡ found result }
{
    if r.mode != Mode::FACTORED {
        return make::unused_line(r, p, q);
    }
    match i {
        0 => make::fpp_line(r, p, q),
        1 => make::used_line(r, p, q),
        _ => make::unused_line(r, p, q),
    }
}

// Line i of a constraint's residual. In mode 2 it has its unused line alone.
pub fn rest_line(r: Constraint, x: Residual, portion: Portion, i: usize) -> Line
    requires i_in_bounds { i < length (rest_lines r x portion.own portion.total) }
    requires small_residual { SmallResidual x }
    ensures { nth (rest_lines r x portion.own portion.total) i ≡ found result }
{
    if r.mode != Mode::FACTORED {
        return make::unused_rest(r, x, portion);
    }
    match i {
        0 => make::fpp_rest(r, x, portion),
        1 => make::used_rest(r, x, portion),
        _ => make::unused_rest(r, x, portion),
    }
}

// Line i of a contract in region g.
pub fn region_line(regions: &[u8], k: Contract, g: usize, own: &Totals, i: usize) -> Line
    requires in_bounds { (60 ≤ length regions.now) × (g < 5) }
    requires contract_settles { ContractSettles (entry_row regions.now) k own.now }
    requires i_in_bounds { i < length (region_lines (entry_row regions.now) (entry_of own.now) k g) }
    ensures { nth (region_lines (entry_row regions.now) (entry_of own.now) k g) i ≡ found result }
{
    let e = rows::entry_row(regions, g);
    let x = pools::halves_of(k.payment, k.factors[g]);
    if i == 0 {
        let consumed = Portion {
            own: own.ace[g],
            total: e.ace as u64,
        };
        return make::ace_line(k.id, g, x, consumed);
    }
    let sent = Portion {
        own: own.asoe[g],
        total: e.asoe as u64,
    };
    make::asoe_line(k.id, g, x, sent)
}
