// One line from the numbers that it rests on. 01's parts are numbered here and nowhere else.
ghost use Rattle.std.specs.Prelude.{◌≡◌, ◌≤◌, ◌<◌};
ghost use Rattle.ground.specs.Units.{million, money_limit};
ghost use Rattle.rules.specs.Inner.Facts.{ConstraintRule, UnitRule};
ghost use Rattle.amounts.specs.Inner.Bounds.{SmallPools, SmallResidual, SmallHalves};
ghost use Rattle.lines.specs.Lines.{contingency_part, contingency_line, shared_line, unit_line, fpp_line, used_line, unused_line, fpp_rest, used_rest, unused_rest, ace_line, asoe_line};

use crate::portion::Portion;
use amounts::pools::{Halves, Pools, Residual};
use amounts::shares;
use market::{Region, Service};
use records::rows::{Constraint, UnitRow};
use statement::Line;

// A line that is shared by energy: the contingency line, residual lines and contract lines are of this kind.
fn shared_line(id: u32, part: u8, regions: u8, credit: u64, charge: u64, portion: Portion) -> Line
    requires credit_le_money_limit { (credit ≤ money_limit) × (charge ≤ money_limit) }
    ensures { result ≡ shared_line id part regions credit charge portion.own portion.total }
{
    Line {
        id,
        part,
        regions,
        unit: 0,
        amount: shares::by_energy(credit, charge, portion.own, portion.total),
    }
}

// 1 contingency by ACE, 2 by ASOE.
fn contingency_part(r: Constraint) -> u8
    ensures { result ≡ contingency_part r }
{
    if Service::of(r.service).is_raise() {
        2
    } else {
        1
    }
}

pub fn contingency_line(r: Constraint, portion: Portion) -> Line
    requires constraint_rule { ConstraintRule r }
    ensures { result ≡ contingency_line r portion.own portion.total }
{
    shared_line(r.id, contingency_part(r), r.mask, 0, r.cost, portion)
}

// A unit's line, by a factor that is above - below.
fn unit_line(r: Constraint, part: u8, pool: u64, q: UnitRow, above: u32, below: u32) -> Line
    requires pool_le_money_limit { pool ≤ money_limit }
    requires above_le_million { (above ≤ million) × (below ≤ million) }
    ensures { result ≡ unit_line r part pool q above below }
{
    Line {
        id: r.id,
        part,
        regions: r.mask,
        unit: q.unit,
        amount: shares::by_factor(pool, above, below),
    }
}

// Unit lines: 3 FPP, 4 used, 5 unused.
pub fn fpp_line(r: Constraint, p: Pools, q: UnitRow) -> Line
    requires small_pools { SmallPools p }
    requires unit_rule { UnitRule q }
    ensures { result ≡ fpp_line r p q }
{
    unit_line(r, 3, p.fpp, q, q.pcf, q.ncf)
}

pub fn used_line(r: Constraint, p: Pools, q: UnitRow) -> Line
    requires small_pools { SmallPools p }
    requires unit_rule { UnitRule q }
    ensures { result ≡ used_line r p q }
{
    unit_line(r, 4, p.used, q, 0, q.ncf)
}

pub fn unused_line(r: Constraint, p: Pools, q: UnitRow) -> Line
    requires small_pools { SmallPools p }
    requires unit_rule { UnitRule q }
    ensures { result ≡ unused_line r p q }
{
    unit_line(r, 5, p.unused, q, 0, q.dcf)
}

// Residual lines: 6 FPP, 7 used, 8 unused.
pub fn fpp_rest(r: Constraint, x: Residual, portion: Portion) -> Line
    requires small_residual { SmallResidual x }
    ensures { result ≡ fpp_rest r x portion.own portion.total }
{
    shared_line(r.id, 6, r.mask, x.credit, x.charge, portion)
}

pub fn used_rest(r: Constraint, x: Residual, portion: Portion) -> Line
    requires small_residual { SmallResidual x }
    ensures { result ≡ used_rest r x portion.own portion.total }
{
    shared_line(r.id, 7, r.mask, 0, x.used, portion)
}

pub fn unused_rest(r: Constraint, x: Residual, portion: Portion) -> Line
    requires small_residual { SmallResidual x }
    ensures { result ≡ unused_rest r x portion.own portion.total }
{
    shared_line(r.id, 8, r.mask, 0, x.unused, portion)
}

// Contract lines of one region: 9 by ACE, 10 by ASOE.
pub fn ace_line(id: u32, g: usize, x: Halves, portion: Portion) -> Line
    requires g_bound { g < 5 }
    requires small_halves { SmallHalves x }
    ensures { result ≡ ace_line id g x portion.own portion.total }
{
    shared_line(id, 9, Region::of(g as u8).bit(), 0, x.consumed, portion)
}

pub fn asoe_line(id: u32, g: usize, x: Halves, portion: Portion) -> Line
    requires g_bound { g < 5 }
    requires small_halves { SmallHalves x }
    ensures { result ≡ asoe_line id g x portion.own portion.total }
{
    shared_line(id, 10, Region::of(g as u8).bit(), 0, x.sent, portion)
}
