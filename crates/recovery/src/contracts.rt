// What all accounts pay for a contract, in one pass over the energy rows.
ghost use Rattle.std.specs.Prelude.{◌≡◌, ◌+◌, ◌*◌, ◌≤◌, ◌<◌, cond, eqb, length};
ghost use Rattle.sections.specs.Total.{total};
ghost use Rattle.records.specs.Rows.{energy_row};
ghost use Rattle.accounts.specs.Inner.Lent.{lent};
ghost use Rattle.recovery.specs.Inner.Shapes.{region_paid};
ghost use Rattle.recovery.specs.Inner.Rests.{PaidBy, PaidIs, part_in, Payable, AllPayable, row_pays};

use accounts::energies::BookEnergies;
use amounts::{pools, shares};
use market::Region;
use records::rows;
use records::rows::{Contract, EnergyRow};

// What a contract recovers in one region, where its factor is not 0: the two halves of its payment there, each with the energy that shares it.
#[derive(Clone, Copy)]
struct Recovered {
    factor: u32,
    consumed: u64,
    sent: u64,
    ace: u64,
    asoe: u64,
}

// What a contract recovers in region g.
fn part_in(e: BookEnergies, k: Contract, g: usize) -> Recovered
    requires { PaidBy (lent e).entry k × (g < 5) }
    ensures { result ≡ part_in (lent e.entry).entry k g }
{
    let factors = k.factors;
    let x = pools::halves_of(k.payment, factors[g]);
    let entry = rows::entry_row(e.bytes, g);
    Recovered {
        factor: factors[g],
        consumed: x.consumed,
        sent: x.sent,
        ace: entry.ace as u64,
        asoe: entry.asoe as u64,
    }
}

// What the account of an energy row pays for its region, where the contract benefits it. An account has one row for a region, so that its two
// lines there are this row's two shares.
fn row_pays(parts: &[Recovered; 5], r: EnergyRow) -> u64
    requires { Payable parts.now r }
    ensures { result ≡ row_pays parts.now r }
{
    let g = r.region as usize;
    let p = parts[g];
    if p.factor == 0 {
        return 0;
    }
    shares::owned_share(p.consumed, r.ace as u64, p.ace).whole
        + shares::owned_share(p.sent, r.asoe as u64, p.asoe).whole
}

// What all accounts pay, in one pass over the energy rows.
fn pays(energy: &[u8], n: usize, parts: &[Recovered; 5]) -> u64
    requires n_in_bounds { n * 24 ≤ length energy.now }
    requires all_payable { AllPayable parts.now (energy_row energy.now) n }
    ensures { (result ≡ total (λ i. row_pays parts.now (energy_row energy.now i)) n) × (result ≤ 102_400_000_000_000) }
{
    let mut sum: u64 = 0;
    for i in 0..n {
        sum += row_pays(parts, rows::energy_row(energy, i));
    }
    sum
}

// What all accounts pay in the regions that a contract benefits.
fn charges(e: BookEnergies, k: Contract) -> u64
    requires { PaidBy (lent e).entry k }
    ensures { (result ≡ total (region_paid (lent e.entry) k) 5) × (result ≤ 102_400_000_000_000) }
{
    let mut parts = [Recovered {
        factor: 0,
        consumed: 0,
        sent: 0,
        ace: 0,
        asoe: 0,
    }; 5];
    for g in 0..Region::COUNT {
        parts[g] = part_in(e, k, g);
    }
    let from = e.part.from;
    pays(&e.bytes[from..], e.part.rows, &parts)
}

// How many regions a contract benefits, and what all accounts pay in them.
#[derive(Clone, Copy)]
pub struct Paid {
    pub regions: usize,
    pub charge: u64,
}

// 1 for a region that a contract benefits, else 0.
fn benefits(factor: u32) -> usize
    ensures { (result ≡ cond (eqb factor 0) 0 1) × (result ≤ 1) }
{
    usize::from(factor != 0)
}

pub fn payments(e: BookEnergies, k: Contract) -> Paid
    requires { PaidBy (lent e).entry k }
    ensures { PaidIs (lent e.entry) k result }
{
    let mut regions = 0;
    for factor in k.factors {
        regions += benefits(factor);
    }
    Paid {
        regions,
        charge: charges(e, k),
    }
}
