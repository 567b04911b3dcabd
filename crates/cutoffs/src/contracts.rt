// The stages of a contract's pool, region by region, by the energies of the book that settles it.
ghost use Rattle.std.specs.Prelude.{◌≡◌, cond, ◌≤◌, ◌<◌, eqb, Ok};
ghost use Rattle.ground.specs.Units.{million, money_limit};
ghost use Rattle.rules.specs.Rules.{factor_of};
ghost use Rattle.accounts.specs.Inner.Lent.{lent};
ghost use Rattle.sharing.specs.Inner.Shares.{part_cut, Shareable};
ghost use Rattle.recovery.specs.Inner.Rests.{PaidBy};
ghost use Rattle.cutoffs.specs.Cutoffs.{whole_stage, half_stage, stage_at};
ghost use Rattle.cutoffs.specs.Inner.Shapes.{half_part, region_shapes, contract_shapes};

use crate::{Cut, Stage};
use accounts::energies::BookEnergies;
use amounts::{pools, shares};
use market::{Basis, Region};
use records::rows;
use records::rows::Contract;
use recovery::regions;
use sections::Refusal;
use sharing::shares::Part;

// The halves of a region's part of the payment.
#[derive(Clone, Copy)]
enum Side {
    Consumed,
    SentOut,
}

// The region's part of the payment.
fn whole(k: Contract, g: usize) -> Cut
    requires { (g < 5) × ((k.payment ≤ money_limit) × (factor_of k.factors g ≤ million)) }
    ensures { result ≡ whole_stage k g }
{
    let factors = k.factors;
    let part = shares::rounded_share(k.payment, factors[g] as u64, 1_000_000);
    Cut {
        stage: Stage::Whole,
        region: g as u8,
        divisor: 1_000_000,
        cut: part.cut,
    }
}

// That part halved.
fn half(k: Contract, g: usize) -> Cut
    requires { (g < 5) × ((k.payment ≤ money_limit) × (factor_of k.factors g ≤ million)) }
    ensures { result ≡ half_stage k g }
{
    let factors = k.factors;
    let part = shares::share(k.payment, factors[g] as u64, 1_000_000);
    let consumed = pools::half_of(part);
    Cut {
        stage: Stage::Half,
        region: g as u8,
        divisor: 2,
        cut: consumed.cut,
    }
}

// The lines of a half in a region: a share of it for each account.
fn lines(e: BookEnergies, g: usize, stage: Stage, p: Part) -> Cut
    requires { Shareable p (lent e).row (lent e).rows × (g < 5) }
    ensures { result ≡ record { stage = stage; region = g; divisor = p.whole; cut = part_cut p (lent e.entry).row (lent e.entry).rows } }
{
    Cut {
        stage,
        region: g as u8,
        divisor: p.whole,
        cut: regions::shared_cut(e, p),
    }
}

// A half of a region's part as its lines share it: the consumed one by ACE, the sent-out one by ASOE.
fn half_part(e: BookEnergies, k: Contract, g: usize, side: Side) -> Part
    requires { PaidBy (lent e).entry k × (g < 5) }
    ensures { result ≡ half_part side (lent e.entry).entry k g }
{
    let factors = k.factors;
    let x = pools::halves_of(k.payment, factors[g]);
    let entry = rows::entry_row(e.bytes, g);
    let mask = Region::of(g as u8).bit();
    match side {
        Side::Consumed => Part {
            amount: x.consumed,
            whole: entry.ace as u64,
            mask,
            basis: Basis::Ace,
        },
        Side::SentOut => Part {
            amount: x.sent,
            whole: entry.asoe as u64,
            mask,
            basis: Basis::Asoe,
        },
    }
}

// The stage of a number among the four of a region that the contract benefits.
fn in_region(e: BookEnergies, k: Contract, g: usize, left: u64) -> Cut
    requires paid_by { PaidBy (lent e).entry k × ((g < 5) × (factor_of k.factors g ≡ 0 → ⊥)) }
    requires left_bound { left < 4 }
    ensures { Ok result ≡ stage_at (region_shapes (lent e.entry) k g) left }
{
    match left {
        0 => whole(k, g),
        1 => half(k, g),
        2 => lines(e, g, Stage::Ace, half_part(e, k, g, Side::Consumed)),
        _ => lines(e, g, Stage::Asoe, half_part(e, k, g, Side::SentOut)),
    }
}

// How many stages a region has.
fn stages_in(factor: u32) -> u64
    ensures { result ≡ cond (eqb factor 0) 0 4 }
{
    if factor == 0 { 0 } else { 4 }
}

// The stage of a number in a contract's pool.
pub(crate) fn stage(e: BookEnergies, k: Contract, index: u64) -> Result<Cut, Refusal>
    requires { PaidBy (lent e).entry k }
    ensures { result ≡ stage_at (contract_shapes (lent e.entry) k) index }
{
    let factors = k.factors;
    let mut left = index;
    for g in 0..Region::COUNT {
        let stages = stages_in(factors[g]);
        if left < stages {
            return Ok(in_region(e, k, g, left));
        }
        left -= stages;
    }
    Err(Refusal {
        number: 15,
        place: 0,
    })
}
