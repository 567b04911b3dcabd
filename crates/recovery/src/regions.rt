// What an amount that is shared by energy over a constraint's regions comes to over all accounts, and what is cut off its shares.
ghost use Rattle.std.specs.Prelude.{◌≡◌, ◌≤◌, ◌<◌, nat_abs};
ghost use Rattle.ground.specs.Units.{money_limit};
ghost use Rattle.market.specs.Kinds.{basis_of};
ghost use Rattle.totals.specs.Divisors.{over_regions};
ghost use Rattle.accounts.specs.Inner.Lent.{lent};
ghost use Rattle.sharing.specs.Inner.Shares.{part_sum, part_cut, Shareable};
ghost use Rattle.recovery.specs.Inner.Rests.{PartIs, CutIs};

use accounts::energies::BookEnergies;
use market::{Basis, Service};
use records::rows::Constraint;
use sharing::shares::Part;

// An amount as a part that a constraint's regions share, where they together have the whole.
fn part_over(r: Constraint, whole: u64, amount: u64) -> Part
    ensures { result ≡ record { amount = amount; whole = whole; mask = r.mask; basis = basis_of r.service } }
{
    Part {
        amount,
        whole,
        mask: r.mask,
        basis: Basis::of(Service::of(r.service)),
    }
}

// What a part of a pool comes to over all accounts.
fn shared(e: BookEnergies, p: Part) -> u64
    requires { Shareable p (lent e).row (lent e).rows }
    ensures { (result ≡ part_sum p (lent e.entry).row (lent e.entry).rows) × (result ≤ 51_200_000_000_000) }
{
    let from = e.part.from;
    sharing::shares::part_sum(&e.bytes[from..], e.part.rows, p)
}

// What an amount that is shared over a constraint's regions comes to over all accounts.
pub fn over_regions(e: BookEnergies, r: Constraint, whole: u64, amount: u64) -> u64
    requires { (whole ≡ over_regions (lent e).entry r) × ((0 < whole) × (amount ≤ money_limit)) }
    ensures { PartIs (lent e.entry) r amount result }
{
    shared(e, part_over(r, whole, amount))
}

// What is cut off a part's shares.
pub fn shared_cut(e: BookEnergies, p: Part) -> i64
    requires { Shareable p (lent e).row (lent e).rows }
    ensures { (result ≡ part_cut p (lent e.entry).row (lent e.entry).rows) × (nat_abs result ≤ 51_200_000_000) }
{
    let from = e.part.from;
    sharing::shares::part_cut(&e.bytes[from..], e.part.rows, p)
}

// What is cut off the shares of an amount over a constraint's regions.
pub fn cut_over_regions(e: BookEnergies, r: Constraint, whole: u64, amount: u64) -> i64
    requires { (whole ≡ over_regions (lent e).entry r) × ((0 < whole) × (amount ≤ money_limit)) }
    ensures { CutIs (lent e.entry) r amount result }
{
    shared_cut(e, part_over(r, whole, amount))
}
