// What the roundings of a pool cut off: for each rounding stage the sum over all accounts, a signed numerator over the stage's divisor.
#![tactic(auto)]

mod constraints; // constraints.rt: the stages of a constraint's pools
mod contracts; // contracts.rt: the stages of a contract's pool

ghost use Rattle.std.specs.Prelude.{◌≡◌, true, ◌<◌};
ghost use Rattle.totals.specs.Divisors.{over_regions};
ghost use Rattle.locking.specs.Locking.{settled_by, pick};
ghost use Rattle.book.specs.Laid.{book_at};
ghost use Rattle.book.specs.Table.{entries_by};
ghost use Rattle.book.specs.Inner.Accepted.{Sound, Promise};
ghost use Rattle.accounts.specs.Inner.Energies.{energies_of};
ghost use Rattle.recovery.specs.Inner.Rests.{PaidBy};
ghost use Rattle.balance.specs.Inner.Shapes.{belongs};
ghost use Rattle.cutoffs.specs.Cutoffs.{stage_at, cuts_in, cut_of};
ghost use Rattle.cutoffs.specs.Inner.Shapes.{constraint_shapes, contract_shapes};

use accounts::energies::BookEnergies;
use balance::places;
use balance::places::Place;
use book::laid::LaidBook;
use locking::Source;
use market::Mode;
use records::rows;
use records::rows::Contract;
use recovery::kinds::Kind;
use sections::Refusal;

// The rounding stages: a contingency's lines; a regulation pool, its unit lines, its residual pool and that one's shares; and of a contract, region by
// region, its part of the payment, that part halved, and the lines by ACE and by ASOE.
#[derive(Clone, Copy)]
pub enum Stage {
    Line,
    Pool,
    Unit,
    Residual,
    Share,
    Whole,
    Half,
    Ace,
    Asoe,
}

// What the roundings of one stage cut off, summed, over their divisor. The region is 0 but in a contract's stages.
#[derive(Clone, Copy)]
pub struct Cut {
    pub stage: Stage,
    pub region: u8,
    pub divisor: u64,
    pub cut: i64,
}

// The stage of a number in one of constraint j's pools.
fn constraint_cut(book: &LaidBook, j: usize, kind: Kind, index: u64) -> Result<Cut, Refusal>
    requires sound { Sound (book_at book.now) × (0 < over_regions (book_at book.now).entry ((book_at book.now).constraint j)) }
    requires j_lt_constraints { (j < book.now.header.constraints) × (belongs ((book_at book.now).constraint j) kind ≡ true) }
    ensures { result ≡ stage_at (constraint_shapes (book_at book.now) ((book_at book.now).constraint j) kind) index }
{
    let r = rows::constraint_row(book.constraints(), j);
    if r.mode != Mode::CONTINGENCY {
        return constraints::regulation(book, r, kind, index);
    }
    if index == 0 {
        return Ok(constraints::line(BookEnergies::of(book), r));
    }
    Err(Refusal {
        number: 15,
        place: 0,
    })
}

// The stage of a number in a contract's pool, by the energies of the book that settles it.
fn contract_cut<'a>(
    book: &LaidBook<'a>,
    second: &LaidBook<'a>,
    k: Contract,
    index: u64,
) -> Result<Cut, Refusal>
    requires sound { Sound (book_at book.now) × Sound (book_at second.now) }
    requires paid_by { PaidBy (entries_by (book_at book.now) (book_at second.now) k) k }
    ensures { result ≡ stage_at (contract_shapes (energies_of (pick (settled_by k) (book_at book.now) (book_at second.now))) k) index }
{
    let e = BookEnergies::settling(Source::of(k.kind), book, second);
    contracts::stage(e, k, index)
}

// The stage of a number in the pool of a number of an accepted book, or 15.
// Not inlined, so that the checks run before there is room for a pool's records on the stack.
#[inline(never)]
fn cut_at<'a>(
    book: &LaidBook<'a>,
    second: &LaidBook<'a>,
    number: u64,
    index: u64,
) -> Result<Cut, Refusal>
    requires { Promise (book_at book.now) (book_at second.now) }
    ensures { result ≡ cuts_in (book_at book.now) (book_at second.now) number index }
{
    let h = book.header;
    let Some(place) = places::place_of(
        book.constraints(),
        h.constraints as usize,
        h.contracts as usize,
        number,
    ) else {
        return Err(Refusal {
            number: 15,
            place: 0,
        });
    };
    match place {
        Place::Constraint(j, kind) => constraint_cut(book, j, kind, index),
        Place::Contract(i) => {
            let k = rows::contract_row(book.contracts(), i);
            contract_cut(book, second, k, index)
        }
    }
}

// What a stage of a pool cut off, both by their numbers from 0, from any bytes: 1 to 10, 17 and 18, then 15.
pub fn stage_cut<'a>(
    book: &'a [u8],
    locked: &'a [u8],
    number: u64,
    index: u64,
) -> Result<Cut, Refusal>
    ensures { result ≡ cut_of book.now locked.now number index }
{
    let both = verdict::accepted(book, locked)?;
    cut_at(&both.book, &both.second, number, index)
}
