// The whole statement of an account: how long it is, and its lines and header written into a buffer that has room for them.
#![tactic(auto)]

ghost use Rattle.std.specs.Prelude.{◌≡◌, ◌+◌, ◌*◌, ◌≤◌, length};
ghost use Rattle.ground.specs.Inner.Put.{Wrote};
ghost use Rattle.accounts.specs.declared.energies.OwnEnergies.{OwnEnergies};
ghost use Rattle.book.specs.Book.{Book, book_of};
ghost use Rattle.book.specs.Laid.{book_at};
ghost use Rattle.book.specs.Inner.Accepted.{Sound};
ghost use Rattle.lines.specs.Inner.Walks.{book_lines, Walkable};
ghost use Rattle.whole.specs.Inner.Whole.{whole_of, Fits};

use accounts::energies::OwnEnergies;
use book::laid::LaidBook;
use statement::Heading;

// The lines, and then the header, which says how many they are, into a buffer that has room for them. Answers where they end.
pub fn write<'a>(
    buffer: &mut [u8],
    book: &LaidBook<'a>,
    locked: &'a [u8],
    own: &OwnEnergies,
    account: u32,
) -> usize
    requires in_bounds { 84 ≤ length locked.now }
    requires walkable { Walkable (book_at book.now) (book_of locked.now) own.now }
    requires fits { Fits (book_lines (book_at book.now) (book_of locked.now) account own.now) (length buffer.old) }
    ensures { Wrote buffer.old 0 (whole_of account (book_at book.now) (book_of locked.now) own.now) buffer.new result }
{
    let end = walk::all_lines(buffer, book, locked, own, account);
    let h = book.header;
    let heading = Heading {
        account,
        date: h.date,
        interval: h.interval,
        run: h.run,
        lines: (end / 24 - 1) as u16,
    };
    statement::put_heading(buffer, heading);
    end
}

// How many bytes the statement has: 24 of its header, and 24 of each line. The lines are counted, and none is made.
pub fn length_of(book: &LaidBook, account: u32) -> usize
    requires { Sound (book_at book.now) }
    ensures { (L : Book) (own : OwnEnergies) → result ≡ 24 + length (book_lines (book_at book.now) L account own) * 24 }
{
    24 + count::all_lines(book, account) * 24
}
