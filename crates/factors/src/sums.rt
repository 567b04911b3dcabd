// Check 8: the factors of a constraint's units, together with its residual's, are whole.
// Each unit row is read once: the run of a constraint starts where the one before it ended.
ghost use Rattle.std.specs.Prelude.{◌≡◌, ℕ, ◌+◌, ◌*◌, ◌≤◌, Bool, length};
ghost use Rattle.sections.specs.First.{first_bad};
ghost use Rattle.sections.specs.Inner.Order.{Rises};
ghost use Rattle.sections.specs.Inner.Walk.{Stands, Names};
ghost use Rattle.records.specs.Rows.{constraint_row, unit_row};
ghost use Rattle.factors.specs.Naming.{id_of, key_of};
ghost use Rattle.factors.specs.Factors.{factors_at};
ghost use Rattle.factors.specs.Inner.Facts.{sums_ok};
ghost use Rattle.factors.specs.Inner.Runs.{FactorsAdded, TestsAs, RunBy, RunOf, Walked};
ghost use Rattle.records.specs.declared.rows.UnitRow.{UnitRow};

use market::Mode;
use records::rows;
use records::rows::{Constraint, UnitRow};

// The sums over a run of unit rows, by their sizes, and the row behind it.
#[derive(Clone, Copy)]
pub struct Sums {
    pub next: usize,
    pub pcf: u64,
    pub ncf: u64,
    pub dcf: u64,
}

// A sum over at most 600 rows, and one row's size more.
fn more(sum: u64, by: u32) -> u64
    requires { sum ≤ 3_000_000_000_000 }
    ensures { result ≡ sum + by }
{
    sum + (by as u64)
}

// The sums with one row more.
pub fn add(t: Sums, r: UnitRow) -> Sums
    requires { (t.next ≤ 600) × ((t.pcf ≤ 3_000_000_000_000) × ((t.ncf ≤ 3_000_000_000_000) × (t.dcf ≤ 3_000_000_000_000))) }
    ensures { FactorsAdded t r result }
{
    Sums {
        next: t.next + 1,
        pcf: more(t.pcf, r.pcf),
        ncf: more(t.ncf, r.ncf),
        dcf: more(t.dcf, r.dcf),
    }
}

// Whether the sums of a constraint's rows keep its rule.
pub fn sums_ok(r: Constraint, t: Sums) -> bool
    requires { (t.pcf ≤ 600_000_000) × ((t.ncf ≤ 600_000_000) × (t.dcf ≤ 600_000_000)) }
    ensures { result ≡ sums_ok r t.pcf t.ncf t.dcf }
{
    let pcf = more(t.pcf, r.prcf);
    let ncf = more(t.ncf, r.nrcf);
    let dcf = more(t.dcf, r.drcf);
    (r.mode == Mode::CONTINGENCY)
        | ((r.mode == Mode::FACTORED) & (pcf == ncf) & (ncf == 1_000_000) & (dcf == 1_000_000))
        | ((r.mode == Mode::DEFAULT) & (t.pcf + t.ncf == 0) & (dcf == 1_000_000))
}

// The sums over a run of rows from a place on, to its end by a test of each row and of the unit of the row before it, which is 0 for the first.
pub fn run_by<F: Fn(UnitRow, u32) -> bool>(units: &[u8], m: usize, from: usize, belongs: F) -> Sums
    requires m_in_bounds { (m * 20 ≤ length units.now) × ((m ≤ 600) × (from ≤ m)) }
    requires is_always_callable { F.IsAlwaysCallable belongs }
    ensures { (test : UnitRow → ℕ → Bool) → TestsAs (F.post belongs) test → RunBy test (unit_row units.now) m from result }
{
    let mut t = Sums {
        next: from,
        pcf: 0,
        ncf: 0,
        dcf: 0,
    };
    let mut last = 0;
    for u in from..m {
        let r = rows::unit_row(units, u);
        if !belongs(r, last) {
            return t;
        }
        last = r.unit;
        t = add(t, r);
    }
    t
}

// The sums over the rows of one constraint, from the first of them on.
fn run(units: &[u8], m: usize, from: usize, key: u32) -> Sums
    requires m_in_bounds { m * 20 ≤ length units.now }
    requires walked { Walked (unit_row units.now) m }
    requires stands { Stands (key_of (unit_row units.now)) m key from }
    ensures { RunOf (unit_row units.now) m key result }
{
    run_by(units, m, from, |r, _| r.constraint == key)
}

// The first constraint whose factor sums fail.
pub fn factors(cons: &[u8], n: usize, units: &[u8], m: usize) -> Option<usize>
    requires n_in_bounds { (n * 40 ≤ length cons.now) × (m * 20 ≤ length units.now) }
    requires walked { Walked (unit_row units.now) m }
    requires rises { Rises (id_of (constraint_row cons.now)) n }
    requires names { Names (key_of (unit_row units.now)) m (id_of (constraint_row cons.now)) n }
    ensures { result ≡ first_bad (factors_at (unit_row units.now) m (constraint_row cons.now)) n }
{
    let mut u = 0;
    // Not `sections::first_bad`, as in `naming::names`: the place where the next run starts is carried along.
    for j in 0..n {
        let r = rows::constraint_row(cons, j);
        let t = run(units, m, u, r.id);
        if !sums_ok(r, t) {
            return Some(j);
        }
        u = t.next;
    }
    None
}
