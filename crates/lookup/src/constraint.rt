// The line of a number among an account's lines of one constraint: those of its unit rows, and then the others. Unit rows stand by their
// constraints, so a search walks them beside the constraints.
ghost use Rattle.std.specs.Prelude.{◌≡◌, cond, ◌*◌, ◌≤◌, ◌<◌, eqb, length};
ghost use Rattle.ground.specs.Nth.{found, nth};
ghost use Rattle.sections.specs.Inner.Walk.{Stands};
ghost use Rattle.records.specs.Rows.{entry_row, unit_row};
ghost use Rattle.rules.specs.Inner.Facts.{ConstraintRule, UnitRule};
ghost use Rattle.factors.specs.Naming.{key_of};
ghost use Rattle.factors.specs.Inner.Runs.{Walked};
ghost use Rattle.totals.specs.Divisors.{over_regions};
ghost use Rattle.totals.specs.Inner.Totals.{entry_of};
ghost use Rattle.amounts.specs.Pools.{pools_of};
ghost use Rattle.accounts.specs.Rows.{joined};
ghost use Rattle.lines.specs.Lines.{unit_lines};
ghost use Rattle.lines.specs.Inner.Walks.{unit_lines_at, con_lines};
ghost use Rattle.lookup.specs.ByNumber.{numbered_in};
ghost use Rattle.lookup.specs.Inner.Sought.{other_lines, Rests, Bare, SoughtIn};

use amounts::pools;
use lines::make;
use lines::portion::Portion;
use market::Mode;
use records::rows;
use records::rows::{Constraint, UnitRow};
use statement::Line;
use totals::entries::Totals;

// Whose line is asked for, at which unit row the search stands, and what is left of the number.
#[derive(Clone, Copy)]
pub struct Asked {
    pub account: u32,
    pub row: usize,
    pub number: usize,
}

// There are fewer lines: the row behind the constraint's unit rows, and what the number has beyond the last line.
#[derive(Clone, Copy)]
pub struct Passed {
    pub row: usize,
    pub left: usize,
}

// How many lines a unit row has, where each of the account's own has so many.
fn own_count(q: UnitRow, account: u32, each: usize) -> usize
    ensures { result ≡ cond (eqb q.account account) each 0 }
{
    if q.account == account { each } else { 0 }
}

// Line i of a unit row.
fn unit_line(r: Constraint, q: UnitRow, i: usize) -> Line
    requires constraint_rule { ConstraintRule r }
    requires unit_rule { UnitRule q }
    requires i_in_bounds { i < length (unit_lines r (pools_of r) q) }
    ensures { nth (unit_lines r (pools_of r) q) i ≡ found result }
{
    groups::unit_line(r, pools::pools_of(r), q, i)
}

// The line of a number among those of a constraint's unit rows, from the first of them on.
fn unit_run(units: &[u8], m: usize, r: Constraint, a: Asked) -> Result<Line, Passed>
    requires m_in_bounds { m * 20 ≤ length units.now }
    requires walked { Walked (unit_row units.now) m }
    requires stands { Stands (key_of (unit_row units.now)) m r.id a.row }
    requires constraint_rule { ConstraintRule r }
    ensures { SoughtIn (unit_row units.now) m r (joined (unit_lines_at (unit_row units.now) a.account r (pools_of r)) m) a.number result }
{
    let each = groups::lines_each(r);
    let mut left = a.number;
    for u in a.row..m {
        let q = rows::unit_row(units, u);
        if q.constraint != r.id {
            return Err(Passed { row: u, left });
        }
        let lines = own_count(q, a.account, each);
        if left < lines {
            return Ok(unit_line(r, q, left));
        }
        left -= lines;
    }
    Err(Passed { row: m, left })
}

// Line i of those that a constraint has besides: the one of mode 0, or a residual's.
fn other_line(regions: &[u8], r: Constraint, own: &Totals, i: usize) -> Line
    requires in_bounds { 60 ≤ length regions.now }
    requires rests { Rests (entry_row regions.now) r own.now }
    requires i_in_bounds { i < length (other_lines r (over_regions (entry_of own.now) r) (over_regions (entry_row regions.now) r)) }
    ensures { nth (other_lines r (over_regions (entry_of own.now) r) (over_regions (entry_row regions.now) r)) i ≡ found result }
{
    let share = divisors::share_of(regions, own, r);
    let portion = Portion {
        own: share.own,
        total: share.total,
    };
    if r.mode == Mode::CONTINGENCY {
        return make::contingency_line(r, portion);
    }
    let x = pools::residual_of(r, pools::pools_of(r));
    groups::rest_line(r, x, portion, i)
}

// The line of a number among those.
fn others(regions: &[u8], r: Constraint, own: &Totals, number: usize) -> Result<Line, usize>
    requires in_bounds { 60 ≤ length regions.now }
    requires rests { Rests (entry_row regions.now) r own.now }
    ensures { result ≡ numbered_in (other_lines r (over_regions (entry_of own.now) r) (over_regions (entry_row regions.now) r)) number }
{
    let lines = groups::lines_each(r);
    if number < lines {
        return Ok(other_line(regions, r, own, number));
    }
    Err(number - lines)
}

// The line of a number among all lines of one constraint.
pub fn constraint_line(
    regions: &[u8],
    units: &[u8],
    m: usize,
    r: Constraint,
    own: Totals,
    a: Asked,
) -> Result<Line, Passed>
    requires in_bounds { (60 ≤ length regions.now) × (m * 20 ≤ length units.now) }
    requires walked { Walked (unit_row units.now) m }
    requires stands { Stands (key_of (unit_row units.now)) m r.id a.row }
    requires rests { Rests (entry_row regions.now) r own }
    requires bare { Bare (unit_row units.now) m r }
    ensures { SoughtIn (unit_row units.now) m r (con_lines (unit_row units.now) m a.account r (over_regions (entry_of own) r) (over_regions (entry_row regions.now) r)) a.number result }
{
    // A `match`, since a proof cannot name what the closures of `or_else` and `map_err` answer.
    match unit_run(units, m, r, a) {
        Ok(line) => Ok(line),
        Err(p) => match others(regions, r, &own, p.left) {
            Ok(line) => Ok(line),
            Err(left) => Err(Passed { row: p.row, left }),
        },
    }
}
