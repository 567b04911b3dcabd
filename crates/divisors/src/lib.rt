// The energy over a constraint's regions: an account's, or the total that the constraint divides by. Both are summed on one walk over the set bits
// of the constraint's mask (market::Region), and read where they stand: no list of five is copied for a constraint.
#![tactic(auto)]

ghost use Rattle.std.specs.Prelude.{◌≡◌, ℕ, ◌≤◌, ◌<◌, length};
ghost use Rattle.market.specs.declared.Basis.{Basis};
ghost use Rattle.market.specs.declared.Region.{Region};
ghost use Rattle.records.specs.Rows.{entry_row};
ghost use Rattle.records.specs.declared.rows.Entry.{Entry};
ghost use Rattle.rules.specs.Inner.Facts.{EntryRule};
ghost use Rattle.totals.specs.Sums.{entry_by};
ghost use Rattle.totals.specs.Inner.Totals.{entry_of};
ghost use Rattle.totals.specs.Divisors.{over_regions};
ghost use Rattle.divisors.specs.Inner.Shares.{HasOf};
ghost use Rattle.divisors.specs.declared.Share.{Share};

use market::{Basis, Region, Service};
use records::rows;
use records::rows::Constraint;
use totals::entries::Totals;

// What an account has over a constraint's regions of the energy that its cost is shared by, and the total that the constraint divides by.
#[derive(Clone, Copy)]
pub struct Share {
    pub own: u64,
    pub total: u64,
}

// An account's energy of one kind in a region.
fn energy_in(own: &Totals, basis: Basis, region: Region) -> u64
    requires { region.number < 5 }
    ensures { result ≡ entry_by basis (entry_of own.now region.number) }
{
    let g = region.number as usize;
    basis.pick(own.ace[g], own.asoe[g], own.residual[g])
}

// A region's total of one kind, where it stands in the book.
fn total_in(regions: &[u8], basis: Basis, region: Region) -> u64
    requires { (60 ≤ length regions.now) × (region.number < 5) }
    ensures { result ≡ entry_by basis (entry_row regions.now region.number) }
{
    let e = rows::entry_row(regions, region.number as usize);
    basis.pick(e.ace as u64, e.asoe as u64, e.residual as u64)
}

// What a constraint's regions come to, an account's part and the total, by what each region has of the energy that the cost is shared by.
fn over_regions<F: Fn(Basis, Region) -> Share>(r: Constraint, has: F) -> Share
    requires by_region { (b : Basis) (g : Region) → g.number < 5 → F.pre has b g }
    requires small { (b : Basis) (g : Region) (x : Share) → g.number < 5 → F.post has b g x → (x.own ≤ 20_000_000) × (x.total ≤ 20_000_000) }
    ensures { (own total : ℕ → Entry) → HasOf (F.post has) own total → (result.own ≡ over_regions own r) × (result.total ≡ over_regions total r) }
{
    let basis = Basis::of(Service::of(r.service));
    let mut own: u64 = 0;
    let mut total: u64 = 0;
    let mut left = r.mask;
    // From set bit to set bit: there is no number to count.
    while 0 < Region::count_in(left) {
        let step = Region::first_in(left);
        let x = has(basis, step.region);
        own += x.own;
        total += x.total;
        left = step.rest;
    }
    Share { own, total }
}

// A constraint's share, both sums on one walk.
pub fn share_of(regions: &[u8], own: &Totals, r: Constraint) -> Share
    requires in_bounds { 60 ≤ length regions.now }
    requires by_index { (g : ℕ) → g < 5 → EntryRule (entry_row regions.now g) }
    requires by_index_2 { (g : ℕ) → g < 5 → EntryRule (entry_of own.now g) }
    ensures { (result.own ≡ over_regions (entry_of own.now) r) × (result.total ≡ over_regions (entry_row regions.now) r) }
{
    over_regions(
        r,
        |basis, region| Share {
            own: energy_in(own, basis, region),
            total: total_in(regions, basis, region),
        },
    )
}

// The total that a constraint divides by, over the regions of its mask.
pub fn divisor(regions: &[u8], r: Constraint) -> u64
    requires in_bounds { 60 ≤ length regions.now }
    requires by_index { (g : ℕ) → g < 5 → EntryRule (entry_row regions.now g) }
    ensures { result ≡ over_regions (entry_row regions.now) r }
{
    let share = over_regions(r, |basis, region| {
        let total = total_in(regions, basis, region);
        Share { own: 0, total }
    });
    share.total
}
