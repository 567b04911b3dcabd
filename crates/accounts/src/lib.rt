// An account's own rows: its energy by region, and whether the book knows it.
#![tactic(auto)]

pub mod energies; // energies.rt: a book's energies as a part of its bytes

ghost use Rattle.std.specs.Prelude.{◌≡◌, not, ℕ, ◌*◌, ◌≤◌, ◌<◌, eqb, length};
ghost use Rattle.sections.specs.Inner.Order.{Keeps};
ghost use Rattle.records.specs.Rows.{energy_row, unit_row};
ghost use Rattle.rules.specs.Inner.Facts.{EnergyRule};
ghost use Rattle.accounts.specs.Rows.{rows_of, keep, none};
ghost use Rattle.accounts.specs.Inner.Lent.{lent};
ghost use Rattle.accounts.specs.Inner.Held.{HeldIs};

use crate::energies::BookEnergies;
use records::{find, rows};
use totals::entries::Totals;

// The account's energy over the n energy rows, put where it is lent, so that it stands in one place; and whether it has a row at all. They are
// sorted by account, so its own stand side by side, and only these are added.
fn in_rows(energy: &[u8], n: usize, account: u32, own: &mut Totals) -> bool
    requires n_in_bounds { (n * 24 ≤ length energy.now) × (n ≤ 1024) }
    requires by_index { (i : ℕ) → i < n → EnergyRule (energy_row energy.now i) }
    requires keeps { Keeps (λ i. (energy_row energy.now i).account) n }
    ensures { HeldIs (energy_row energy.now) n account own.new result }
{
    *own = Totals::NONE;
    let first = find::first_from(energy, 24, n, account);
    for i in first..n {
        if !find::has_key(energy, 24, n, i, account) {
            return first < i;
        }
        let r = rows::energy_row(energy, i);
        own.add_row(r, r.region as usize);
    }
    first < n
}

// The account's energy, of a book's, put where it is lent; and whether an energy row names the account at all.
pub fn own_energy(e: BookEnergies, account: u32, own: &mut Totals) -> bool
    ensures { HeldIs (lent e.entry).row (lent e.entry).rows account own.new result }
{
    let from = e.part.from;
    in_rows(&e.bytes[from..], e.part.rows, account, own)
}

// Whether one of the m unit rows names the account.
pub fn has_units(units: &[u8], m: usize, account: u32) -> bool
    requires { m * 20 ≤ length units.now }
    ensures { result ≡ not (none (keep (λ r. eqb r.account account) (rows_of (unit_row units.now) m))) }
{
    for i in 0..m {
        if rows::unit_row(units, i).account == account {
            return true;
        }
    }
    false
}
