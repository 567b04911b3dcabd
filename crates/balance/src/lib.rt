// The balance of a pool: what it has to recover, how many lines all accounts have in it, and what they sum to.
#![tactic(auto)]

pub mod places; // places.rt: where the pool of a number stands
mod pools; // pools.rt: the balance of each kind of pool

ghost use Rattle.std.specs.Prelude.{◌≡◌, ◌≤◌, ◌<◌, true};
ghost use Rattle.totals.specs.Divisors.{over_regions};
ghost use Rattle.locking.specs.Locking.{settled_by, pick};
ghost use Rattle.book.specs.Header.{header_of};
ghost use Rattle.book.specs.Laid.{book_at};
ghost use Rattle.book.specs.Table.{entries_by};
ghost use Rattle.book.specs.Inner.Accepted.{Sound, StandsIn, Promise};
ghost use Rattle.accounts.specs.Inner.Energies.{energies_of};
ghost use Rattle.recovery.specs.Inner.Rests.{PaidBy};
ghost use Rattle.balance.specs.Balance.{balances_in, balance_of};
ghost use Rattle.balance.specs.Inner.Shapes.{belongs, constraint_shape, contract_shape};

use crate::places::Place;
use accounts::energies::BookEnergies;
use book::laid::LaidBook;
use locking::Source;
use market::Mode;
use records::rows;
use records::rows::Contract;
use recovery::kinds::Kind;
use sections::Refusal;

// A pool's balance. Money is in ten-thousandths of a dollar.
#[derive(Clone, Copy)]
pub struct Balance {
    pub amount: i64,
    pub lines: usize,
    pub sum: i64,
}

// The balance of one of constraint j's pools, where the books have so many accounts.
// Not inlined, here and below, so that a pool's records have no room on the stack while the accounts are counted.
#[inline(never)]
fn constraint_balance(book: &LaidBook, j: usize, kind: Kind, count: usize) -> Balance
    requires count_bound { count ≤ 3248 }
    requires sound { Sound (book_at book.now) × (0 < over_regions (book_at book.now).entry ((book_at book.now).constraint j)) }
    requires j_lt_constraints { (j < book.now.header.constraints) × (belongs ((book_at book.now).constraint j) kind ≡ true) }
    ensures { result ≡ constraint_shape (book_at book.now) count ((book_at book.now).constraint j) kind }
{
    let r = rows::constraint_row(book.constraints(), j);
    if r.mode == Mode::CONTINGENCY {
        return pools::contingency(BookEnergies::of(book), r, count);
    }
    pools::regulation(book, r, kind, count)
}

// The balance of a contract's pool, by the energies of the book that settles it.
#[inline(never)]
fn contract_balance<'a>(
    book: &LaidBook<'a>,
    second: &LaidBook<'a>,
    k: Contract,
    count: usize,
) -> Balance
    requires count_bound { count ≤ 3248 }
    requires sound { Sound (book_at book.now) × Sound (book_at second.now) }
    requires paid_by { PaidBy (entries_by (book_at book.now) (book_at second.now) k) k }
    ensures { result ≡ contract_shape (energies_of (pick (settled_by k) (book_at book.now) (book_at second.now))) count k }
{
    let e = BookEnergies::settling(Source::of(k.kind), book, second);
    pools::contract(e, k, count)
}

// The balance of the pool of a number in an accepted book, or 15.
fn balance_at<'a>(
    book: &LaidBook<'a>,
    second: &LaidBook<'a>,
    number: u64,
) -> Result<Balance, Refusal>
    requires headed { (book.now.header ≡ header_of book.now.bytes.now) × (second.now.header ≡ header_of second.now.bytes.now) }
    requires promise { Promise (book_at book.now) (book_at second.now) }
    requires stands_in { StandsIn book.now.bytes.now book.now.header second.now.bytes.now }
    ensures { result ≡ balances_in (book_at book.now) (book_at second.now) number }
{
    let h = book.header;
    let Some(place) = places::place_of(
        book.constraints(),
        h.constraints as usize,
        h.contracts as usize,
        number,
    ) else {
        return Err(Refusal {
            number: 15,
            place: 0,
        });
    };
    let count = pools::accounts(book, second);
    match place {
        Place::Constraint(j, kind) => Ok(constraint_balance(book, j, kind, count)),
        Place::Contract(i) => {
            let k = rows::contract_row(book.contracts(), i);
            Ok(contract_balance(book, second, k, count))
        }
    }
}

// The balance of the pool of a number from 0, from any bytes: 1 to 10, 17 and 18, then 15.
pub fn pool_balance<'a>(book: &'a [u8], locked: &'a [u8], number: u64) -> Result<Balance, Refusal>
    ensures { result ≡ balance_of book.now locked.now number }
{
    let both = verdict::accepted(book, locked)?;
    balance_at(&both.book, &both.second, number)
}
