// Test payments keep the energy of the final run: whose energies settle a contract, the current book's or the locked one's, and whether the
// locked one is read at all.
#![tactic(auto)]

ghost use Rattle.std.specs.Prelude.{◌≡◌, not, cond, ◌+◌, ◌*◌, ◌≤◌, length};
ghost use Rattle.ground.specs.Bytes.{part_from};
ghost use Rattle.sections.specs.First.{first_bad};
ghost use Rattle.records.specs.Rows.{contract_row};
ghost use Rattle.locking.specs.Locking.{source_of, is_test, reads_locked};
ghost use Rattle.locking.specs.Inner.Handed.{Handed};

use records::rows;

// Whose energies and region totals settle a contract.
#[derive(Clone, Copy, PartialEq, Eq)]
pub enum Source {
    Current,
    Locked,
}

impl Source {
    // By the contract's kind, 1 ordinary or 2 test. Where energies are concerned the kind is asked for here and nowhere else.
    pub fn of(kind: u8) -> Source
        ensures { result ≡ source_of kind }
    {
        if kind == 2 {
            return Source::Locked;
        }
        Source::Current
    }
}

// The energy section of one of two lent books: the bytes from the region entries on, in which the energy rows stand too.
pub fn energies_of<'a>(source: Source, book: &'a [u8], locked: &'a [u8]) -> &'a [u8]
    requires { (24 ≤ length book.now) × (24 ≤ length locked.now) }
    ensures { Handed source book.now locked.now result.now }
{
    match source {
        Source::Current => &book[24..],
        Source::Locked => &locked[24..],
    }
}

// Whether contract k is settled by the current book.
fn is_ordinary(contracts: &[u8], k: usize) -> bool
    requires { (k + 1) * 36 ≤ length contracts.now }
    ensures { result ≡ not (is_test (contract_row contracts.now k)) }
{
    Source::of(rows::contract_row(contracts, k).kind) == Source::Current
}

// The first of n contracts that is a test payment.
pub fn first_test(contracts: &[u8], n: usize) -> Option<usize>
    requires { n * 36 ≤ length contracts.now }
    ensures { result ≡ first_bad (λ k. not (is_test (contract_row contracts.now k))) n }
{
    sections::first_bad(n, |k| is_ordinary(contracts, k))
}

// The book that test payments are settled by: the locked one where one of the book's n contracts is a test payment. Where none is, the locked
// one is not read, and the book itself stands in its place.
pub fn settles_tests<'a>(book: &'a [u8], from: usize, n: usize, locked: &'a [u8]) -> &'a [u8]
    requires { from + n * 36 ≤ length book.now }
    ensures { result.now ≡ cond (reads_locked (contract_row (part_from from book.now)) n) locked.now book.now }
{
    match first_test(&book[from..], n) {
        None => book,
        Some(_) => locked,
    }
}
