// A part of a pool that is shared by energy: what the rounded shares of all accounts sum to, and what was cut off them, in one pass over the energy rows.
ghost use Rattle.std.specs.Prelude.{◌≡◌, ◌*◌, ◌≤◌, ◌<◌, nat_abs, length};
ghost use Rattle.sections.specs.Inner.Walk.{Stands};
ghost use Rattle.rules.specs.Inner.Facts.{EnergyRule};
ghost use Rattle.records.specs.Rows.{energy_row};
ghost use Rattle.sharing.specs.Inner.Groups.{GroupIs, Adds, MadeOver};
ghost use Rattle.sharing.specs.Accounts.{energy_account};
ghost use Rattle.sharing.specs.Inner.Shares.{energy_in, part_sum, part_cut, Sorted, Shareable};

use amounts::shares;
use market::{Basis, Region};
use numbers::sign;
use records::rows;
use records::rows::EnergyRow;
use totals::entries;

// An amount that is shared by the energy of one kind in the regions of a mask, which together is the whole.
#[derive(Clone, Copy)]
pub struct Part {
    pub amount: u64,
    pub whole: u64,
    pub mask: u8,
    pub basis: Basis,
}

// What one account owns in a part, and the row behind its last.
#[derive(Clone, Copy)]
struct Group {
    own: u64,
    end: usize,
}

// The energy of a row that a part counts. It is a product and no branch: which rows a part counts, the processor's branch prediction would
// often guess wrong.
fn energy_in(p: Part, r: EnergyRow) -> u64
    requires { EnergyRule r }
    ensures { result ≡ energy_in p r }
{
    let basis = p.basis;
    (Region::of(r.region).is_in(p.mask) as u64) * entries::row_by(basis, r)
}

// The rows of one account, from the first of them on: they stand side by side.
fn gather(energy: &[u8], n: usize, from: usize, p: Part) -> Group
    requires n_in_bounds { (n * 24 ≤ length energy.now) × (from < n) }
    requires sorted { Sorted (energy_row energy.now) n }
    requires stands { Stands (energy_account (energy_row energy.now)) n (energy_row energy.now from).account from }
    ensures { GroupIs p (energy_row energy.now) n from result }
{
    let account = rows::energy_row(energy, from).account;
    let mut own: u64 = 0;
    for j in from..n {
        let r = rows::energy_row(energy, j);
        if r.account != account {
            return Group { own, end: j };
        }
        own += energy_in(p, r);
    }
    Group { own, end: n }
}

// What a function makes of a value, called once for each account with what the account owns. The energy rows are sorted by account, so that one pass
// has each account's rows side by side.
fn over_accounts<T: Copy, F: Fn(T, u64) -> T>(
    energy: &[u8],
    n: usize,
    p: Part,
    start: T,
    add: F,
) -> T
    requires n_in_bounds { n * 24 ≤ length energy.now }
    requires sorted { Sorted (energy_row energy.now) n }
    requires shareable { Shareable p (energy_row energy.now) n }
    requires adds { Adds p (energy_row energy.now) n (F.pre add) (F.post add) start }
    ensures { MadeOver p (energy_row energy.now) n (F.post add) start result }
{
    // A pool of 0 needs no pass.
    if p.amount == 0 {
        return start;
    }
    let mut made = start;
    let mut i = 0;
    // An account's rows at a turn: the next one begins behind them.
    while i < n {
        let g = gather(energy, n, i, p);
        made = add(made, g.own);
        i = g.end;
    }
    made
}

// The rounded shares of all accounts, summed.
pub fn part_sum(energy: &[u8], n: usize, p: Part) -> u64
    requires n_in_bounds { n * 24 ≤ length energy.now }
    requires sorted { Sorted (energy_row energy.now) n }
    requires shareable { Shareable p (energy_row energy.now) n }
    ensures { (result ≡ part_sum p (energy_row energy.now) n) × (result ≤ 51_200_000_000_000) }
{
    over_accounts(energy, n, p, 0, |sum, own| {
        sum + shares::owned_share(p.amount, own, p.whole).whole
    })
}

// What was cut off these shares, over the whole. Who wants the sum of the shares alone does not pay for it. Who owns nothing is divided for too: which
// accounts do not, a branch would often guess wrong.
pub fn part_cut(energy: &[u8], n: usize, p: Part) -> i64
    requires n_in_bounds { n * 24 ≤ length energy.now }
    requires sorted { Sorted (energy_row energy.now) n }
    requires shareable { Shareable p (energy_row energy.now) n }
    ensures { (result ≡ part_cut p (energy_row energy.now) n) × (nat_abs result ≤ 51_200_000_000) }
{
    over_accounts(energy, n, p, 0, |cut, own| {
        sign::plus(cut, shares::rounded_share(p.amount, own, p.whole).cut)
    })
}
