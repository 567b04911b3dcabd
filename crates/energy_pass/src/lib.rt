// The energy rows in one pass: their fields, their order and the sums by region, which are then held against the region entries.
// An energy is no larger than its region's sum, so that the limit of an entry, which has been seen to hold, is the limit of its rows too, and
// no row is held against it.
#![tactic(auto)]

ghost use Rattle.std.specs.Prelude.{◌≡◌, ℕ, ◌+◌, ◌*◌, ◌≤◌, ◌<◌, length};
ghost use Rattle.records.specs.Rows.{entry_row, energy_row};
ghost use Rattle.rules.specs.Inner.Facts.{EntryRule};
ghost use Rattle.totals.specs.Sums.{entry_is};
ghost use Rattle.totals.specs.Inner.Totals.{sum_at};
ghost use Rattle.energy_pass.specs.Inner.Holds.{energies_hold};
ghost use Rattle.energy_pass.specs.Inner.Energies.{row_holds};

use ground::read;
use market::Region;
use records::rows;
use records::rows::EnergyRow;
use totals::entries;
use totals::entries::Totals;

// The region of row i and its three reserved bytes, as one number.
fn head_at(energy: &[u8], i: usize) -> u32
    requires { (i + 1) * 24 ≤ length energy.now }
    ensures { result ≡ (energy_row energy.now i).region + 256 * (energy_row energy.now i).spare }
{
    read::u32_at(energy, i * 24 + 4)
}

// Rows rise where these numbers do.
fn key_of(account: u32, head: u32) -> u64
    ensures { result ≡ account * 4_294_967_296 + head }
{
    (account as u64) * 4_294_967_296 + (head as u64)
}

// Whether a row has a region, reserved bytes of 0 and residuals within its energies, and is above the row before it.
fn row_holds(r: EnergyRow, head: u32, before: u64) -> bool
    requires { head ≡ r.region + 256 * r.spare }
    ensures { result ≡ row_holds before r }
{
    (before < key_of(r.account, head)) & (head <= 4) & (r.race <= r.ace) & (r.rasoe <= r.asoe)
}

// Whether an entry has its region's sums.
fn entry_holds(regions: &[u8], t: &Totals, g: usize) -> bool
    requires { (60 ≤ length regions.now) × (g < 5) }
    ensures { result ≡ entry_is (entry_row regions.now g) (sum_at t.now g) }
{
    entries::entry_is(rows::entry_row(regions, g), t, g)
}

// Whether the n energy rows keep checks 5 and 6, and the region entries 9; that the entries keep their own rules has been seen before.
pub fn energies_hold(regions: &[u8], energy: &[u8], n: usize) -> bool
    requires in_bounds { (60 ≤ length regions.now) × ((n * 24 ≤ length energy.now) × (n ≤ 1024)) }
    requires by_index { (g : ℕ) → g < 5 → EntryRule (entry_row regions.now g) }
    ensures { result ≡ energies_hold (energy_row energy.now) n (entry_row regions.now) }
{
    let mut totals = Totals::NONE;
    let mut before = 4_294_967_295;
    for i in 0..n {
        let r = rows::energy_row(energy, i);
        let head = head_at(energy, i);
        if !row_holds(r, head, before) {
            return false;
        }
        totals.add_row(r, head as usize);
        before = key_of(r.account, head);
    }
    let mut good = true;
    for g in 0..Region::COUNT {
        good &= entry_holds(regions, &totals, g); // no branch for a region
    }
    good
}
