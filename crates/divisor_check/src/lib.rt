// Check 10: no total to divide by is zero, though the pool be 0.
#![tactic(auto)]

mod live; // live.rt: the regions that have energy, one bit each

ghost use Rattle.std.specs.Prelude.{◌≡◌, ◌+◌, ◌*◌, ◌≤◌, ◌<◌, length};
ghost use Rattle.sections.specs.First.{first_bad};
ghost use Rattle.sections.specs.Search.{all};
ghost use Rattle.records.specs.Rows.{entry_row, constraint_row, contract_row};
ghost use Rattle.rules.specs.Rules.{factor_of};
ghost use Rattle.ground.specs.Bytes.{part_from};
ghost use Rattle.locking.specs.Locking.{pick, settled_by};
ghost use Rattle.totals.specs.Divisors.{constraint_divides, funded_in, contract_divides};

use locking::Source;
use market::Region;
use records::rows;

// The first constraint whose total to divide by is 0.
pub fn constraints(regions: &[u8], cons: &[u8], n: usize) -> Option<usize>
    requires { (60 ≤ length regions.now) × (n * 40 ≤ length cons.now) }
    ensures { result ≡ first_bad (constraint_divides (entry_row regions.now) (constraint_row cons.now)) n }
{
    let live = live::live_of(regions);
    sections::first_bad(n, |j| live::divides(live, rows::constraint_row(cons, j)))
}

// A region with a benefit factor has consumers and generators to recover from.
fn funded(regions: &[u8], f: [u32; 5], region: Region) -> bool
    requires { (60 ≤ length regions.now) × (region.number < 5) }
    ensures { result ≡ funded_in (entry_row regions.now) (factor_of f region.number) region.number }
{
    let e = rows::entry_row(regions, region.number as usize);
    (f[region.number as usize] == 0) | ((e.ace != 0) & (e.asoe != 0))
}

// Each region that a contract benefits has.
fn all_funded(regions: &[u8], f: [u32; 5]) -> bool
    requires { 60 ≤ length regions.now }
    ensures { result ≡ all (λ g. funded_in (entry_row regions.now) (factor_of f g) g) 5 }
{
    sections::all(Region::COUNT, |g| funded(regions, f, Region::of(g as u8)))
}

// Whether all regions that contract k benefits are funded in the book that settles it.
fn contract_divides<'a>(book: &'a [u8], locked: &'a [u8], contracts: &[u8], k: usize) -> bool
    requires { (84 ≤ length book.now) × ((84 ≤ length locked.now) × ((k + 1) * 36 ≤ length contracts.now)) }
    ensures { result ≡ contract_divides (pick (settled_by (contract_row contracts.now k)) (entry_row (part_from 24 book.now)) (entry_row (part_from 24 locked.now))) (contract_row contracts.now) k }
{
    let r = rows::contract_row(contracts, k);
    let regions = locking::energies_of(Source::of(r.kind), book, locked);
    let factors = r.factors;
    all_funded(regions, factors)
}

// The first contract that benefits a region in which ACE or ASOE is 0 in the book that settles the contract.
pub fn contracts<'a>(book: &'a [u8], locked: &'a [u8], contracts: &[u8], n: usize) -> Option<usize>
    requires { (84 ≤ length book.now) × ((84 ≤ length locked.now) × (n * 36 ≤ length contracts.now)) }
    ensures { result ≡ first_bad (λ k. contract_divides (pick (settled_by (contract_row contracts.now k)) (entry_row (part_from 24 book.now)) (entry_row (part_from 24 locked.now))) (contract_row contracts.now) k) n }
{
    sections::first_bad(n, |k| contract_divides(book, locked, contracts, k))
}
