// What the unit rows of one constraint are credited of a pool and charged, by their factors, and what is cut off that.
ghost use Rattle.std.specs.Prelude.{◌≡◌, ◌*◌, ◌≤◌, ◌<◌, nat_abs, ◌+ℤ◌, length};
ghost use Rattle.ground.specs.Units.{money_limit};
ghost use Rattle.records.specs.Rows.{unit_row};
ghost use Rattle.rules.specs.Inner.Facts.{UnitRule};
ghost use Rattle.factors.specs.Inner.Runs.{Walked};
ghost use Rattle.amounts.specs.Shares.{cut_by_factor};
ghost use Rattle.recovery.specs.ByKind.{above_by, below_by};
ghost use Rattle.recovery.specs.Inner.Units.{RowAdded, SumsAre, CutsAre, Made, Adds};

use crate::kinds::Kind;
use amounts::shares;
use numbers::sign;
use records::rows::UnitRow;
use records::{find, rows};

// How many rows there are, and what they are credited and charged.
#[derive(Clone, Copy)]
pub struct UnitSums {
    pub rows: usize,
    pub credit: u64,
    pub charge: u64,
}

// One of the constraint's rows in the sums.
fn add_row(t: UnitSums, q: UnitRow, kind: Kind, pool: u64) -> UnitSums
    requires unit_rule { UnitRule q }
    requires pool_le_money_limit { (pool ≤ money_limit) × ((t.rows < 600) × ((t.credit ≤ 30_000_000_000_000) × (t.charge ≤ 30_000_000_000_000))) }
    ensures { RowAdded t q kind pool result }
{
    UnitSums {
        rows: t.rows + 1,
        credit: t.credit + shares::share(pool, kind.above(q) as u64, 1_000_000),
        charge: t.charge + shares::share(pool, kind.below(q) as u64, 1_000_000),
    }
}

// What a function makes of a value, called once for each of the m unit rows that is the constraint's. They are sorted by constraint, so its own stand
// side by side, and only these are read.
fn over_rows<T: Copy, F: Fn(T, UnitRow) -> T>(
    units: &[u8],
    m: usize,
    id: u32,
    start: T,
    add: F,
) -> T
    requires m_in_bounds { m * 20 ≤ length units.now }
    requires walked { Walked (unit_row units.now) m }
    requires adds { Adds (unit_row units.now) m id (F.pre add) (F.post add) start }
    ensures { Made (F.post add) (unit_row units.now) id start m result }
{
    let mut made = start;
    for u in find::first_from(units, 20, m, id)..m {
        if !find::has_key(units, 20, m, u, id) {
            return made;
        }
        made = add(made, rows::unit_row(units, u));
    }
    made
}

// The sums over the constraint's rows, of the m unit rows.
pub fn unit_sums(units: &[u8], m: usize, id: u32, kind: Kind, pool: u64) -> UnitSums
    requires m_in_bounds { (m * 20 ≤ length units.now) × (pool ≤ money_limit) }
    requires walked { Walked (unit_row units.now) m }
    ensures { SumsAre (unit_row units.now) m id kind pool m result }
{
    let none = UnitSums {
        rows: 0,
        credit: 0,
        charge: 0,
    };
    over_rows(units, m, id, none, |sums, q| add_row(sums, q, kind, pool))
}

// What is cut off a row's part of a pool: of what it is credited less of what it is charged.
fn row_cut(q: UnitRow, kind: Kind, pool: u64) -> i64
    requires unit_rule { UnitRule q }
    requires pool_le_money_limit { pool ≤ money_limit }
    ensures { (result ≡ cut_by_factor pool (above_by kind q) (below_by kind q)) × (nat_abs result ≤ 1_000_000) }
{
    let credit = shares::rounded_share(pool, kind.above(q) as u64, 1_000_000);
    let charge = shares::rounded_share(pool, kind.below(q) as u64, 1_000_000);
    sign::minus(credit.cut, charge.cut)
}

// One of the constraint's rows in what is cut off them.
fn add_cut(cut: i64, q: UnitRow, kind: Kind, pool: u64) -> i64
    requires unit_rule { UnitRule q }
    requires pool_le_money_limit { (pool ≤ money_limit) × (nat_abs cut ≤ 600_000_000) }
    ensures { result ≡ cut +ℤ cut_by_factor pool (above_by kind q) (below_by kind q) }
{
    sign::plus(cut, row_cut(q, kind, pool))
}

// The same over the constraint's rows, in millionths. Who wants the sums alone does not pay for it.
pub fn unit_cut(units: &[u8], m: usize, id: u32, kind: Kind, pool: u64) -> i64
    requires m_in_bounds { (m * 20 ≤ length units.now) × (pool ≤ money_limit) }
    requires walked { Walked (unit_row units.now) m }
    ensures { CutsAre (unit_row units.now) m id kind pool m result }
{
    over_rows(units, m, id, 0, |cut, q| add_cut(cut, q, kind, pool))
}
