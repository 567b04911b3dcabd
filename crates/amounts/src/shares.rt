// A rounded part of a pool, by a factor or by energy. What is credited and what is charged are rounded by their sizes, and the
// signed amount is made once, here.
ghost use Rattle.std.specs.Prelude.{◌≡◌, ◌*◌, ◌≤◌, ◌<◌};
ghost use Rattle.numbers.specs.Round.{round_n, Rounds};
ghost use Rattle.numbers.specs.Sign.{less};
ghost use Rattle.ground.specs.Units.{million, money_limit, total_limit};
ghost use Rattle.amounts.specs.Shares.{by_factor, by_energy};

use numbers::round::Rounded;
use numbers::{round, sign};

// pool x own / total, to the nearest, and what that cut off. The product fits, since pools and totals are small.
pub fn rounded_share(pool: u64, own: u64, total: u64) -> Rounded
    requires { (pool ≤ money_limit) × ((own ≤ total) × ((0 < total) × (total ≤ total_limit))) }
    ensures { Rounds (pool * own) total result }
{
    round::nearest(pool * own, total)
}

// The whole number alone.
pub fn share(pool: u64, own: u64, total: u64) -> u64
    requires { (pool ≤ money_limit) × ((own ≤ total) × ((0 < total) × (total ≤ total_limit))) }
    ensures { result ≡ round_n (pool * own) total }
{
    rounded_share(pool, own, total).whole
}

// Both for an account that may own nothing, as many do of one kind of energy: its share is then 0, with nothing cut off, and needs no division.
pub fn owned_share(pool: u64, own: u64, total: u64) -> Rounded
    requires { (pool ≤ money_limit) × ((own ≤ total) × ((0 < total) × (total ≤ total_limit))) }
    ensures { Rounds (pool * own) total result }
{
    if own == 0 {
        return Rounded { whole: 0, cut: 0 };
    }
    rounded_share(pool, own, total)
}

// What is credited less what is charged: of one line, or summed over lines.
pub fn net(credit: u64, charge: u64) -> i64
    requires { (credit ≤ 1_000_000_000_000_000) × (charge ≤ 1_000_000_000_000_000) }
    ensures { result ≡ less credit charge }
{
    sign::plus(sign::signed(false, credit), sign::signed(true, charge))
}

// A unit's part of a pool: a positive factor credits, a negative one charges. Every unit row's factor has one side, and is then rounded once.
pub fn by_factor(pool: u64, above: u32, below: u32) -> i64
    requires { (pool ≤ money_limit) × ((above ≤ million) × (below ≤ million)) }
    ensures { result ≡ by_factor pool above below }
{
    if (above == 0) | (below == 0) {
        return sign::signed(above == 0, share(pool, (above + below) as u64, 1_000_000));
    }
    net(
        share(pool, above as u64, 1_000_000),
        share(pool, below as u64, 1_000_000),
    )
}

// An account's part of a pool by its energy. The pool itself is a credit or a charge: as a rule it has one side, and is then divided
// once.
pub fn by_energy(credit: u64, charge: u64, own: u64, total: u64) -> i64
    requires { (credit ≤ money_limit) × ((charge ≤ money_limit) × ((own ≤ total) × ((0 < total) × (total ≤ total_limit)))) }
    ensures { result ≡ by_energy credit charge own total }
{
    if (credit == 0) | (charge == 0) {
        return sign::signed(credit == 0, share(credit + charge, own, total));
    }
    net(share(credit, own, total), share(charge, own, total))
}
