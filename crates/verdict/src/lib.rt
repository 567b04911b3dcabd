// The verdict on a whole book, from any bytes: accepted, or the number and the place of the first refusal. Checks 1 to 9 say whether it is
// a sound book, 17 and 18 whether test payments have a locked book that fits, and 10 whether every total to divide by is there; here they come
// together.
#![tactic(auto)]

ghost use Rattle.std.specs.Prelude.{◌≡◌};
ghost use Rattle.sections.specs.Refusal.{first_of};
ghost use Rattle.book.specs.Laid.{book_at};
ghost use Rattle.book.specs.Table.{record_checks, soundness, locks, locked_checks, verdict};
ghost use Rattle.book.specs.Inner.Accepted.{SettlesTests};
ghost use Rattle.verdict.specs.Accepted.{AcceptedIs};

use book::header;
use book::header::Header;
use book::laid::LaidBook;
use sections::Refusal;

// Checks 5 to 9: the first that refuses decides. Which one, and where, is looked for only where one does.
#[inline(always)] // no room of its own on the stack
fn records(book: &LaidBook) -> Result<(), Refusal>
    ensures { result ≡ first_of (record_checks (book_at book.now)) }
{
    if passes::none_refuses(book) {
        return Ok(());
    }
    checks::one_by_one(book)
}

// Checks 1 to 9, in order, for any bytes at all.
pub fn soundness(book: &[u8]) -> Result<(), Refusal>
    ensures { result ≡ soundness book.now }
{
    sections::unless(84 <= book.len(), 1)?;
    sections::unless(header::is_marked(book), 2)?;
    let h = header::header_of(book);
    sections::unless(h.in_range(), 3)?;
    sections::unless(book.len() == h.whole_length(), 4)?;
    let laid = LaidBook {
        bytes: book,
        header: h,
    };
    records(&laid)
}

// Whether a locked book, of any bytes, is sound and fits beside a book with this header: its date and interval, and no later run.
fn locks(locked: &[u8], h: Header) -> bool
    ensures { result ≡ locks h locked.now }
{
    match soundness(locked) {
        Ok(()) => {
            let l = header::header_of(locked);
            (l.date == h.date) & (l.interval == h.interval) & (l.run <= h.run)
        }
        Err(_) => false,
    }
}

// 17, then 18, both at the first test payment. The locked book is looked at only where there is one.
fn lent(book: &LaidBook, locked: &[u8]) -> Result<(), Refusal>
    ensures { result ≡ first_of (locked_checks (book_at book.now) locked.now) }
{
    let h = book.header;
    let from = h.contracts_at();
    let found = locking::first_test(book.contracts(), h.contracts as usize);
    match found {
        None => Ok(()),
        Some(_) => {
            if locked.is_empty() {
                return sections::at_record(17, from, 36, found);
            }
            if !locks(locked, h) {
                return sections::at_record(18, from, 36, found);
            }
            Ok(())
        }
    }
}

// The book that test payments are settled by: the locked one where a contract of the book is one, else the book itself.
pub fn settles_tests<'a>(book: &LaidBook<'a>, locked: &'a [u8]) -> &'a [u8]
    ensures { SettlesTests book.now.bytes.now book.now.header locked.now result.now }
{
    let h = book.header;
    locking::settles_tests(book.bytes, h.contracts_at(), h.contracts as usize, locked)
}

// All checks, in order, for any bytes at all.
pub fn check<'a>(book: &'a [u8], locked: &'a [u8]) -> Result<(), Refusal>
    ensures { result ≡ verdict book.now locked.now }
{
    soundness(book)?;
    let laid = LaidBook {
        bytes: book,
        header: header::header_of(book),
    };
    lent(&laid, locked)?;
    checks::zero_totals(&laid, settles_tests(&laid, locked))
}

// A book that all checks accept, and the second one, which its test payments are settled by.
#[derive(Clone, Copy)]
pub struct BothBooks<'a> {
    pub book: LaidBook<'a>,
    pub second: LaidBook<'a>,
}

// The two books of a request, or the refusal of the first check that refuses one.
pub fn accepted<'a>(book: &'a [u8], locked: &'a [u8]) -> Result<BothBooks<'a>, Refusal>
    ensures { AcceptedIs book.now locked.now result }
{
    check(book, locked)?;
    let first = LaidBook {
        bytes: book,
        header: header::header_of(book),
    };
    let bytes = settles_tests(&first, locked);
    let second = LaidBook {
        bytes,
        header: header::header_of(bytes),
    };
    Ok(BothBooks {
        book: first,
        second,
    })
}
