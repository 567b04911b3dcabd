// Energy rows summed by region, and check 9: a region's entry is the sum of its rows. The sums of all five regions are made in one pass.
ghost use Rattle.std.specs.Prelude.{◌≡◌, ℕ, ◌+◌, ◌*◌, ◌≤◌, ◌<◌, length, get_or, set};
ghost use Rattle.sections.specs.First.{first_bad};
ghost use Rattle.records.specs.Rows.{entry_row, energy_row};
ghost use Rattle.rules.specs.Inner.Facts.{EnergyRule};
ghost use Rattle.totals.specs.Sums.{row_by, entry_is, entry_has_sums};
ghost use Rattle.totals.specs.Inner.Totals.{sum_at};
ghost use Rattle.totals.specs.Inner.Turns.{TotalsOf, SumRoom, Added};

use market::{Basis, Region};
use records::rows;
use records::rows::{EnergyRow, Entry};

// Energies by region, by their sizes: a sum for each region, three times. All accounts', or one's own.
// Not one list of a struct: each list is summed, bounded and asked by its kind of energy (`sums_by`, `SumsOf`), and would have to be taken out of it.
#[derive(Clone, Copy)]
pub struct Totals {
    pub ace: [u64; 5],
    pub asoe: [u64; 5],
    pub residual: [u64; 5],
}

// Where a book's energies lie in the part of its bytes that its region entries begin: the energy rows start at `from`, and there are `rows`.
#[derive(Clone, Copy)]
pub struct EnergyPart {
    pub from: usize,
    pub rows: usize,
}

// An energy row's energy of one kind.
pub fn row_by(basis: Basis, r: EnergyRow) -> u64
    ensures { result ≡ row_by basis r }
{
    basis.pick(
        r.ace as u64,
        r.asoe as u64,
        (r.race as u64) + (r.rasoe as u64),
    )
}

// One more number in region g's sum.
fn bump(a: &mut [u64; 5], g: usize, x: u64)
    requires { (g < 5) × ((get_or a.old g 0 ≤ 8_796_093_022_208) × (x ≤ 8_589_934_590)) }
    ensures { a.new ≡ set a.old g (get_or a.old g 0 + x) }
{
    a[g] = a[g] + x;
}

impl Totals {
    // No energy in any region.
    pub const NONE: Totals = Totals {
        ace: [0; 5],
        asoe: [0; 5],
        residual: [0; 5],
    };

    // A row added to the sums of its region, g.
    pub fn add_row(&mut self, r: EnergyRow, g: usize)
        requires { (g < 5) × SumRoom self.old g }
        ensures { Added self.old g r self.new }
    {
        bump(&mut self.ace, g, row_by(Basis::Ace, r));
        bump(&mut self.asoe, g, row_by(Basis::Asoe, r));
        bump(&mut self.residual, g, row_by(Basis::Residual, r));
    }
}

// The sums of the n energy rows by region.
fn by_region(energy: &[u8], n: usize) -> Totals
    requires n_in_bounds { (n * 24 ≤ length energy.now) × (n ≤ 1024) }
    requires by_index { (i : ℕ) → i < n → EnergyRule (energy_row energy.now i) }
    ensures { TotalsOf (energy_row energy.now) n result }
{
    let mut t = Totals::NONE;
    for i in 0..n {
        let r = rows::energy_row(energy, i);
        t.add_row(r, r.region as usize);
    }
    t
}

// Whether a region's entry has the region's sums.
pub fn entry_is(e: Entry, t: &Totals, g: usize) -> bool
    requires { g < 5 }
    ensures { result ≡ entry_is e (sum_at t.now g) }
{
    (e.ace as u64 == t.ace[g]) & (e.asoe as u64 == t.asoe[g]) & (e.residual as u64 == t.residual[g])
}

// The first region entry that differs from its rows' sums.
pub fn entries(regions: &[u8], energy: &[u8], n: usize) -> Option<usize>
    requires in_bounds { (60 ≤ length regions.now) × ((n * 24 ≤ length energy.now) × (n ≤ 1024)) }
    requires by_index { (i : ℕ) → i < n → EnergyRule (energy_row energy.now i) }
    ensures { result ≡ first_bad (entry_has_sums (energy_row energy.now) n (entry_row regions.now)) 5 }
{
    let t = by_region(energy, n);
    sections::first_bad(Region::COUNT, |g| {
        entry_is(rows::entry_row(regions, g), &t, g)
    })
}
