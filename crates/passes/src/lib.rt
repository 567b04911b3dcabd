// Whether none of checks 5 to 9 refuses a book, each long section in one pass. Books are accepted far more often than not, and which check
// refuses one, and where, is looked for only then.
#![tactic(auto)]

ghost use Rattle.std.specs.Prelude.{◌≡◌};
ghost use Rattle.sections.specs.Refusal.{first_of};
ghost use Rattle.book.specs.Laid.{book_at};
ghost use Rattle.book.specs.Table.{record_checks};
ghost use Rattle.passes.specs.Inner.Passes.{short_checks, accepts};

use book::laid::LaidBook;
use records::rows::{Constraint, Contract, Entry};
use sections::Refusal;

// 5 and 6 of the short sections: region entries, constraints, contracts.
fn short_sections(book: &LaidBook) -> Result<(), Refusal>
    ensures { result ≡ first_of (short_checks (book_at book.now)) }
{
    let bytes = book.bytes;
    let h = book.header;
    let from = h.contracts_at();
    let paid = h.contracts as usize;
    let count = h.constraints as usize;
    section_check::fields::<Entry>(bytes, 24, 5)?;
    section_check::fields::<Constraint>(bytes, 84, count)?;
    section_check::fields::<Contract>(bytes, from, paid)?;
    section_check::order::<Constraint>(bytes, 84, count)?;
    section_check::order::<Contract>(bytes, from, paid)
}

// Whether none of checks 5 to 9 refuses the book.
// Not inlined, so that its sums have room on the stack no longer than it looks.
#[inline(never)]
pub fn none_refuses(book: &LaidBook) -> bool
    ensures { result ≡ accepts (first_of (record_checks (book_at book.now))) }
{
    if short_sections(book).is_err() {
        return false;
    }
    let h = book.header;
    let count = h.constraints as usize;
    if !unit_pass::units_hold(book.constraints(), count, book.units(), h.units as usize) {
        return false;
    }
    if !energy_pass::energies_hold(book.entries(), book.energies(), h.energies as usize) {
        return false;
    }
    true
}
