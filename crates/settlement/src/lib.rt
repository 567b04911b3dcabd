// The statement of an account, its lines in order and the header before them: how long it is, and its bytes.
#![tactic(auto)]

ghost use Rattle.std.specs.Prelude.{◌≡◌, not, ◌||◌, ◌*◌, ◌≤◌, length, eqb};
ghost use Rattle.records.specs.Rows.{unit_row};
ghost use Rattle.book.specs.Header.{header_of};
ghost use Rattle.book.specs.Laid.{book_at};
ghost use Rattle.book.specs.Inner.Accepted.{Sound, StandsIn, Promise};
ghost use Rattle.accounts.specs.Rows.{rows_of, keep, none};
ghost use Rattle.accounts.specs.Account.{rows_of_account, locked_of, unknown, unnamed};
ghost use Rattle.accounts.specs.Inner.Held.{HeldIs};
ghost use Rattle.statement.specs.Lent.{Lent, length_for};
ghost use Rattle.settlement.specs.Settle.{settled_in, outcome};
ghost use Rattle.settlement.specs.Inner.Own.{OwnIn, OwnIs};

use accounts::energies::{BookEnergies, OwnEnergies};
use book::laid::LaidBook;
use sections::Refusal;
use totals::entries::Totals;

// Whether a row names the account, where it is known whether an energy row does. The unit rows are asked only where none does.
fn is_known(units: &[u8], m: usize, held: bool, account: u32) -> bool
    requires { m * 20 ≤ length units.now }
    ensures { result ≡ (held || not (none (keep (λ r. eqb r.account account) (rows_of (unit_row units.now) m)))) }
{
    if held {
        return true;
    }
    accounts::has_units(units, m, account)
}

// What the account has by the energy rows of a book, put where it is lent; and whether one of them names it.
pub fn held_by(book: &LaidBook, account: u32, own: &mut Totals) -> bool
    requires { Sound (book_at book.now) }
    ensures { HeldIs (book_at book.now).energy book.now.header.energies account own.new result }
{
    accounts::own_energy(BookEnergies::of(book), account, own)
}

// Whether a row of a book names the account.
fn names(book: &LaidBook, held: bool, account: u32) -> bool
    requires { held ≡ not (none (keep (λ r. eqb r.account account) (rows_of (book_at book.now).energy book.now.header.energies))) }
    ensures { result ≡ not (unknown (rows_of_account (book_at book.now) account)) }
{
    is_known(book.units(), book.header.units as usize, held, account)
}

// Whether a row of either book names the account, where it is known whether an energy row of the first does. The second book's are asked only
// where the first's do not.
fn is_named(book: &LaidBook, held: bool, second: &LaidBook, account: u32) -> bool
    requires sound { Sound (book_at second.now) }
    requires held_value { held ≡ not (none (keep (λ r. eqb r.account account) (rows_of (book_at book.now).energy book.now.header.energies))) }
    ensures { result ≡ not (unnamed (rows_of_account (book_at book.now) account) (locked_of (book_at second.now) account)) }
{
    if names(book, held, account) {
        return true;
    }
    let mut there = Totals::NONE;
    let held_there = held_by(second, account, &mut there);
    names(second, held_there, account)
}

// The account's own energies in the second book, beside those in the first. Where no contract is a test payment the second book is the first.
fn own_in_second(book: &LaidBook, second: &LaidBook, account: u32, own: &mut OwnEnergies)
    requires headed { (book.now.header ≡ header_of book.now.bytes.now) × (second.now.header ≡ header_of second.now.bytes.now) }
    requires stands_in { StandsIn book.now.bytes.now book.now.header second.now.bytes.now × Sound (book_at second.now) }
    requires own_in { OwnIn (book_at book.now) account own.old.current }
    ensures { OwnIs (book_at book.now) (book_at second.now) account own.new }
{
    match locking::first_test(book.contracts(), book.header.contracts as usize) {
        None => {
            own.locked = own.current;
        }
        Some(_) => {
            held_by(second, account, &mut own.locked);
        }
    }
}

// The length of the statement of an accepted book, where it is known whether an energy row names the account: 11, then 12, then the lines
// counted. None of them needs a buffer.
pub fn sized(book: &LaidBook, held: bool, second: &LaidBook, account: u32) -> Result<usize, Refusal>
    requires promise { Promise (book_at book.now) (book_at second.now) }
    requires held_value { held ≡ not (none (keep (λ r. eqb r.account account) (rows_of (book_at book.now).energy book.now.header.energies))) }
    ensures { result ≡ length_for (settled_in (book_at book.now) (book_at second.now) account) }
{
    sections::unless(is_named(book, held, second, account), 11)?;
    sections::unless(!limit::passed(book), 12)?;
    Ok(whole::length_of(book, account))
}

// The statement of an accepted book: what its length is refused for, then 13, before the first byte is written.
// Not inlined, so that the checks run before there is room for the account's energies on the stack.
#[inline(never)]
fn settle(
    book: &LaidBook,
    second: &LaidBook,
    account: u32,
    buffer: &mut [u8],
) -> Result<usize, Refusal>
    requires headed { (book.now.header ≡ header_of book.now.bytes.now) × (second.now.header ≡ header_of second.now.bytes.now) }
    requires promise { Promise (book_at book.now) (book_at second.now) × StandsIn book.now.bytes.now book.now.header second.now.bytes.now }
    ensures { Lent (settled_in (book_at book.now) (book_at second.now) account) buffer.old result buffer.new }
{
    let mut own = OwnEnergies::NONE;
    let held = held_by(book, account, &mut own.current);
    let n = sized(book, held, second, account)?;
    sections::unless(n <= buffer.len(), 13)?;
    own_in_second(book, second, account, &mut own);
    Ok(whole::write(buffer, book, second.bytes, &own, account))
}

// How long the statement of an account of an accepted book is.
// Not inlined, so that the checks run before there is room for the account's energies on the stack.
#[inline(never)]
fn measure(book: &LaidBook, second: &LaidBook, account: u32) -> Result<usize, Refusal>
    requires { Promise (book_at book.now) (book_at second.now) }
    ensures { result ≡ length_for (settled_in (book_at book.now) (book_at second.now) account) }
{
    let mut own = Totals::NONE;
    let held = held_by(book, account, &mut own);
    sized(book, held, second, account)
}

// How long the statement of any account from any bytes is, whatever is lent as the locked book.
pub fn length<'a>(book: &'a [u8], locked: &'a [u8], account: u32) -> Result<usize, Refusal>
    ensures { result ≡ length_for (outcome book.now locked.now account) }
{
    let both = verdict::accepted(book, locked)?; // no buffer is lent, and so there is no 13
    measure(&both.book, &both.second, account)
}

// The statement of any account from any bytes, into any buffer.
pub fn statement<'a>(
    book: &'a [u8],
    locked: &'a [u8],
    account: u32,
    buffer: &mut [u8],
) -> Result<usize, Refusal>
    ensures { Lent (outcome book.now locked.now account) buffer.old result buffer.new }
{
    let both = verdict::accepted(book, locked)?; // before the buffer is looked at
    settle(&both.book, &both.second, account, buffer)
}
