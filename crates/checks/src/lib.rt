// Checks 5 to 9 one by one, and check 10, each over the whole book. Each section is lent on from its offset, and nothing is copied.
// What the checks before have shown stands in the requires of those after them.
#![tactic(auto)]

ghost use Rattle.std.specs.Prelude.{◌≡◌, [], ◌∷◌, ◌≤◌, length};
ghost use Rattle.sections.specs.Refusal.{first_of};
ghost use Rattle.book.specs.Book.{book_of};
ghost use Rattle.book.specs.Laid.{book_at};
ghost use Rattle.book.specs.Table.{check5, check6, check7, check8, check9, check10, record_checks};
ghost use Rattle.book.specs.Inner.Facts.{Fields, Ordered, Named};

use book::laid::LaidBook;
use factors::{naming, sums};
use records::rows::{Constraint, Contract, EnergyRow, Entry, UnitRow};
use sections::Refusal;
use totals::entries;

// 5: a field outside the rules.
fn fields(book: &LaidBook) -> Result<(), Refusal>
    ensures { result ≡ check5 (book_at book.now) }
{
    let bytes = book.bytes;
    let h = book.header;
    section_check::fields::<Entry>(bytes, 24, 5)?;
    section_check::fields::<Constraint>(bytes, 84, h.constraints as usize)?;
    section_check::fields::<UnitRow>(bytes, h.units_at(), h.units as usize)?;
    section_check::fields::<EnergyRow>(bytes, h.energies_at(), h.energies as usize)?;
    section_check::fields::<Contract>(bytes, h.contracts_at(), h.contracts as usize)
}

// 6: a section that is not strictly rising.
fn order(book: &LaidBook) -> Result<(), Refusal>
    ensures { result ≡ check6 (book_at book.now) }
{
    let bytes = book.bytes;
    let h = book.header;
    section_check::order::<Constraint>(bytes, 84, h.constraints as usize)?;
    section_check::order::<UnitRow>(bytes, h.units_at(), h.units as usize)?;
    section_check::order::<EnergyRow>(bytes, h.energies_at(), h.energies as usize)?;
    section_check::order::<Contract>(bytes, h.contracts_at(), h.contracts as usize)
}

// 7: a unit row that names no constraint here, or one of mode 0.
fn names(book: &LaidBook) -> Result<(), Refusal>
    requires { Ordered (book_at book.now) }
    ensures { result ≡ check7 (book_at book.now) }
{
    let h = book.header;
    let found = naming::names(
        book.constraints(),
        h.constraints as usize,
        book.units(),
        h.units as usize,
    );
    sections::at_record(7, h.units_at(), 20, found)
}

// 8: factor sums that fail.
fn factor_sums(book: &LaidBook) -> Result<(), Refusal>
    requires fields { Fields (book_at book.now) }
    requires ordered { Ordered (book_at book.now) }
    requires named { Named (book_at book.now) }
    ensures { result ≡ check8 (book_at book.now) }
{
    let h = book.header;
    let found = sums::factors(
        book.constraints(),
        h.constraints as usize,
        book.units(),
        h.units as usize,
    );
    sections::at_record(8, 84, 40, found)
}

// 9: a region entry that differs from its rows' sums.
// Not inlined, so that the sums of the energy rows have no room on the stack while 5 to 8 are asked.
#[inline(never)]
fn region_sums(book: &LaidBook) -> Result<(), Refusal>
    requires { Fields (book_at book.now) }
    ensures { result ≡ check9 (book_at book.now) }
{
    let n = book.header.energies as usize;
    let found = entries::entries(book.entries(), book.energies(), n);
    sections::at_record(9, 24, 12, found)
}

// 10: a total to divide by that is zero, of a contract in the book that settles it.
pub fn zero_totals(book: &LaidBook, locked: &[u8]) -> Result<(), Refusal>
    requires { 84 ≤ length locked.now }
    ensures { result ≡ check10 (book_at book.now) (book_of locked.now) }
{
    let h = book.header;
    let n = h.contracts as usize;
    let shared = divisor_check::constraints(
        book.entries(),
        book.constraints(),
        h.constraints as usize,
    );
    let paid = divisor_check::contracts(book.bytes, locked, book.contracts(), n);
    sections::earlier(
        sections::at_record(10, 84, 40, shared),
        sections::at_record(10, h.contracts_at(), 36, paid),
    )
}

// Checks 5 to 8 one by one: the first that refuses decides.
// Not inlined, so that what they want of the stack is gone before 9 is asked.
#[inline(never)]
fn up_to_factors(book: &LaidBook) -> Result<(), Refusal>
    ensures { result ≡ first_of (check5 (book_at book.now) ∷ check6 (book_at book.now) ∷ check7 (book_at book.now) ∷ check8 (book_at book.now) ∷ []) }
{
    fields(book)?;
    order(book)?;
    names(book)?;
    factor_sums(book)
}

// Checks 5 to 9 one by one: the first that refuses decides.
// Not inlined, so that a book that is accepted needs no room for them on the stack.
#[inline(never)]
pub fn one_by_one(book: &LaidBook) -> Result<(), Refusal>
    ensures { result ≡ first_of (record_checks (book_at book.now)) }
{
    up_to_factors(book)?;
    region_sums(book)
}
