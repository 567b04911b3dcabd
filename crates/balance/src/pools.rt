// The balance of each kind of pool, of a book that the checks have accepted.
ghost use Rattle.std.specs.Prelude.{◌≡◌, ◌+◌, ◌*◌, ◌≤◌, ◌<◌};
ghost use Rattle.ground.specs.Units.{money_limit};
ghost use Rattle.totals.specs.Divisors.{over_regions};
ghost use Rattle.book.specs.Header.{header_of};
ghost use Rattle.book.specs.Laid.{book_at};
ghost use Rattle.book.specs.Inner.Accepted.{Sound, StandsIn};
ghost use Rattle.accounts.specs.Inner.Lent.{lent};
ghost use Rattle.balance.specs.Inner.Shapes.{contingency_shape, regulation_shape, contract_shape};
ghost use Rattle.balance.specs.Inner.Rests.{OfConstraint, Counted, NamesOf};
ghost use Rattle.recovery.specs.Inner.Rests.{PaidBy};

use crate::Balance;
use accounts::energies::BookEnergies;
use amounts::shares;
use book::header::Header;
use book::laid::LaidBook;
use joint::NamingRows;
use numbers::sign;
use records::rows;
use records::rows::{Constraint, Contract};
use recovery::kinds::Kind;
use recovery::{contracts, kinds, regions, units};

// How many accounts a book has.
fn in_book(book: &LaidBook) -> usize
    requires { Sound (book_at book.now) }
    ensures { Counted (book_at book.now) (book_at book.now) result }
{
    let h = book.header;
    census::all_accounts(
        book.energies(),
        h.energies as usize,
        book.units(),
        h.units as usize,
    )
}

// Where the rows that name a book's accounts stand.
fn naming_rows(h: Header) -> NamingRows
    ensures { NamesOf h result }
{
    NamingRows {
        energies: h.energies_at(),
        n: h.energies as usize,
        units: h.units_at(),
        m: h.units as usize,
    }
}

// How many accounts the book has together with the one that test payments are settled by. Where there are none of those it is the book itself,
// and its accounts are counted once.
// Not inlined, so that the checks run before there is room for a tree of accounts on the stack, and the pool is made when it is there no more.
#[inline(never)]
pub(crate) fn accounts(book: &LaidBook, second: &LaidBook) -> usize
    requires sound { Sound (book_at book.now) × Sound (book_at second.now) }
    requires stands_in { StandsIn book.now.bytes.now book.now.header second.now.bytes.now }
    requires headed { (book.now.header ≡ header_of book.now.bytes.now) × (second.now.header ≡ header_of second.now.bytes.now) }
    ensures { Counted (book_at book.now) (book_at second.now) result }
{
    match locking::first_test(book.contracts(), book.header.contracts as usize) {
        None => in_book(book),
        Some(_) => {
            let p = naming_rows(book.header);
            joint::both_accounts(book.bytes, p, second.bytes, naming_rows(second.header))
        }
    }
}

// A contingency pool: a line of each account.
pub(crate) fn contingency(e: BookEnergies, r: Constraint, count: usize) -> Balance
    requires { (0 < over_regions (lent e).entry r) × (r.cost ≤ money_limit) }
    ensures { result ≡ contingency_shape (lent e.entry) count r }
{
    let whole = divisors::divisor(e.bytes, r);
    let charge = regions::over_regions(e, r, whole, r.cost);
    Balance {
        amount: sign::signed(false, r.cost),
        lines: count,
        sum: shares::net(0, charge),
    }
}

// A regulation pool: a line of each unit row, by its factor, and a residual line of each account.
pub(crate) fn regulation(book: &LaidBook, r: Constraint, kind: Kind, count: usize) -> Balance
    requires sound { Sound (book_at book.now) }
    requires of_constraint { OfConstraint (book_at book.now) r × (0 < over_regions (book_at book.now).entry r) }
    requires count_bound { count ≤ 3248 }
    ensures { result ≡ regulation_shape (book_at book.now) count r kind }
{
    let x = kinds::recovery_of(r, kind);
    let u = units::unit_sums(book.units(), book.header.units as usize, r.id, kind, x.pool);
    let e = BookEnergies::of(book);
    let whole = divisors::divisor(e.bytes, r);
    let credit = regions::over_regions(e, r, whole, x.credit);
    let charge = regions::over_regions(e, r, whole, x.charge);
    Balance {
        amount: sign::signed(false, x.amount),
        lines: u.rows + count,
        sum: shares::net(u.credit + credit, u.charge + charge),
    }
}

// A contract's pool: two lines of each account in each benefiting region.
pub(crate) fn contract(e: BookEnergies, k: Contract, count: usize) -> Balance
    requires { PaidBy (lent e).entry k × (count ≤ 3248) }
    ensures { result ≡ contract_shape (lent e.entry) count k }
{
    let x = contracts::payments(e, k);
    Balance {
        amount: sign::signed(false, k.payment),
        lines: x.regions * (2 * count),
        sum: shares::net(0, x.charge),
    }
}
