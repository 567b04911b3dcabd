// The unit rows beside the constraints, in one pass: checks 5 and 6 of the unit rows, 7 and 8.
// The rows of a constraint are a run. A row that breaks its run is never taken, since the ids of later constraints are larger, and in a good
// book no row does, so that all is well exactly where every row was taken. No row's factors are tested: sums of at most 1,000,000 have no
// larger part, and a constraint that keeps its rule has no larger sums.
#![tactic(auto)]

ghost use Rattle.std.specs.Prelude.{◌≡◌, ℕ, ◌+◌, ◌*◌, ◌≤◌, ◌<◌, length};
ghost use Rattle.sections.specs.Inner.Order.{Rises};
ghost use Rattle.sections.specs.Inner.Walk.{Under};
ghost use Rattle.records.specs.Rows.{constraint_row, unit_row};
ghost use Rattle.rules.specs.Inner.Facts.{ConstraintRule};
ghost use Rattle.factors.specs.Naming.{id_of, key_of};
ghost use Rattle.unit_pass.specs.Inner.Holds.{units_hold};
ghost use Rattle.unit_pass.specs.Inner.Units.{follows, small_sums, run_holds, Taken};

use factors::sums;
use factors::sums::Sums;
use market::Mode;
use records::rows;
use records::rows::{Constraint, UnitRow};

// Whether a row belongs to the run: it is of this constraint, above the row before, and has an account.
fn in_run(r: UnitRow, key: u32, last: u32) -> bool
    ensures { result ≡ follows r key last }
{
    (r.constraint == key) & (last < r.unit) & (1 <= r.account)
}

// The rows of one constraint from a place on, as far as they follow each other: their sums, and the place behind them.
fn run(units: &[u8], m: usize, from: usize, key: u32) -> Sums
    requires m_in_bounds { (m * 20 ≤ length units.now) × ((m ≤ 600) × (from ≤ m)) }
    requires under { Under (key_of (unit_row units.now)) from key }
    ensures { Taken (unit_row units.now) m key from result }
{
    sums::run_by(units, m, from, |r, last| in_run(r, key, last))
}

// Whether no sum is above 1,000,000, so that no row's factors are.
fn small(t: Sums) -> bool
    ensures { result ≡ small_sums t }
{
    (t.pcf <= 1_000_000) & (t.ncf <= 1_000_000) & (t.dcf <= 1_000_000)
}

// Whether a constraint keeps its rule with the sums of its run. One of mode 0 has no row.
fn settles(r: Constraint, t: Sums, from: usize) -> bool
    ensures { result ≡ run_holds r t from }
{
    if !small(t) {
        return false;
    }
    ((r.mode != Mode::CONTINGENCY) | (t.next == from)) & sums::sums_ok(r, t)
}

// Whether unit rows and constraints keep these checks; that the constraints keep their own rules has been seen before.
pub fn units_hold(cons: &[u8], n: usize, units: &[u8], m: usize) -> bool
    requires n_in_bounds { (n * 40 ≤ length cons.now) × ((m * 20 ≤ length units.now) × (m ≤ 600)) }
    requires rises { Rises (id_of (constraint_row cons.now)) n }
    requires by_index { (j : ℕ) → j < n → ConstraintRule (constraint_row cons.now j) }
    ensures { result ≡ units_hold (constraint_row cons.now) n (unit_row units.now) m }
{
    let mut u = 0;
    for j in 0..n {
        let r = rows::constraint_row(cons, j);
        let t = run(units, m, u, r.id);
        if !settles(r, t, u) {
            return false;
        }
        u = t.next;
    }
    u == m
}
