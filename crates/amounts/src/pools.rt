// What a constraint or a contract has to recover, before it is shared.
ghost use Rattle.std.specs.Prelude.{◌≡◌, ◌*◌, ◌≤◌};
ghost use Rattle.numbers.specs.Round.{Rounds};
ghost use Rattle.ground.specs.Units.{million, money_limit};
ghost use Rattle.rules.specs.Inner.Facts.{ConstraintRule};
ghost use Rattle.amounts.specs.Pools.{pools_of, pool_cuts_of, residual_pools, halves_of};
ghost use Rattle.amounts.specs.Inner.Bounds.{SmallPools};

use crate::shares;
use market::Mode;
use numbers::round;
use numbers::round::Rounded;
use records::rows::Constraint;

// The three pools of a regulation constraint.
#[derive(Clone, Copy)]
pub struct Pools {
    pub fpp: u64,
    pub used: u64,
    pub unused: u64,
}

// The residual's part of each pool, by its size. That of FPP is a credit or a charge; the others are charges.
#[derive(Clone, Copy)]
pub struct Residual {
    pub credit: u64,
    pub charge: u64,
    pub used: u64,
    pub unused: u64,
}

// The two halves of a contract's payment in one region.
#[derive(Clone, Copy)]
pub struct Halves {
    pub consumed: u64,
    pub sent: u64,
}

// What rounding the pools of a regulation constraint cut off. Unused is what used leaves, and not rounded itself.
#[derive(Clone, Copy)]
pub struct PoolCuts {
    pub fpp: i64,
    pub used: i64,
}

// The FPP pool of a price and a response.
fn fpp_pool(price: u32, response: u32) -> Rounded
    ensures { Rounds (price * response) 120 result }
{
    round::nearest((price as u64) * (response as u64), 120)
}

// Only a factored constraint's price, response and usage are read.
pub fn pools_of(r: Constraint) -> Pools
    requires { ConstraintRule r }
    ensures { result ≡ pools_of r }
{
    let mode = Mode::of(r.mode, r.price, r.rcr, r.usage);
    let Mode::Factored {
        price,
        response,
        usage,
    } = mode
    else {
        return Pools {
            fpp: 0,
            used: 0,
            unused: r.cost,
        };
    };
    let used = shares::share(r.cost, usage as u64, 1_000_000);
    Pools {
        fpp: fpp_pool(price, response).whole,
        used,
        unused: r.cost - used,
    }
}

// What was cut off them; where nothing is rounded, nothing.
pub fn pool_cuts(r: Constraint) -> PoolCuts
    requires { ConstraintRule r }
    ensures { result ≡ pool_cuts_of r }
{
    let mode = Mode::of(r.mode, r.price, r.rcr, r.usage);
    let Mode::Factored {
        price,
        response,
        usage,
    } = mode
    else {
        return PoolCuts { fpp: 0, used: 0 };
    };
    PoolCuts {
        fpp: fpp_pool(price, response).cut,
        used: shares::rounded_share(r.cost, usage as u64, 1_000_000).cut,
    }
}

pub fn residual_of(r: Constraint, p: Pools) -> Residual
    requires constraint_rule { ConstraintRule r }
    requires small_pools { SmallPools p }
    ensures { result ≡ residual_pools r p }
{
    Residual {
        credit: shares::share(p.fpp, r.prcf as u64, 1_000_000),
        charge: shares::share(p.fpp, r.nrcf as u64, 1_000_000),
        used: shares::share(p.used, r.nrcf as u64, 1_000_000),
        unused: shares::share(p.unused, r.drcf as u64, 1_000_000),
    }
}

// The consumed half of a region's part: the odd unit of money goes to it.
pub fn half_of(part: u64) -> Rounded
    requires { part ≤ money_limit }
    ensures { Rounds part 2 result }
{
    round::nearest(part, 2)
}

// A region's part of a payment in two: the sent-out half is what the consumed one leaves.
pub fn halves_of(payment: u64, factor: u32) -> Halves
    requires { (payment ≤ money_limit) × (factor ≤ million) }
    ensures { result ≡ halves_of payment factor }
{
    let part = shares::share(payment, factor as u64, 1_000_000);
    let consumed = half_of(part).whole;
    Halves {
        consumed,
        sent: part - consumed,
    }
}
