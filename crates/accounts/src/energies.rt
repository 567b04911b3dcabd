// A book's energies, handed on as a part of its bytes: the bytes from the region entries on, and where the energy rows stand there. A contract
// is settled by those of one of two books, and an account has its own in both.
ghost use Rattle.std.specs.Prelude.{◌≡◌};
ghost use Rattle.std.proofs.Props.{props};
ghost use Rattle.totals.specs.Inner.Energies.{energies_in, PartLaid, EnergiesSound};
ghost use Rattle.locking.specs.Locking.{pick};
ghost use Rattle.book.specs.Laid.{book_at};
ghost use Rattle.book.specs.Inner.Accepted.{Sound};
ghost use Rattle.accounts.specs.Inner.Energies.{energies_of, PartOf};

use book::header::Header;
use book::laid::LaidBook;
use locking::Source;
use totals::entries::{EnergyPart, Totals};

// Where a book's energies lie in its bytes from the region entries on.
pub fn part_of(h: Header) -> EnergyPart
    ensures { PartOf h result }
{
    EnergyPart {
        from: h.energies_at() - Header::ENTRIES,
        rows: h.energies as usize,
    }
}

// Where those of the book that settles a contract lie.
pub fn part_in(source: Source, h: Header, locked: Header) -> EnergyPart
    ensures { PartOf (pick source h locked) result }
{
    match source {
        Source::Current => part_of(h),
        Source::Locked => part_of(locked),
    }
}

// A book's energies: its bytes from the region entries on, and where the energy rows lie in them. They keep checks 5, 6 and 9.
#[derive(Clone, Copy)]
pub struct BookEnergies<'a> {
    pub bytes: &'a [u8],
    pub part: EnergyPart,
    pub ghost laid: { PartLaid bytes.now part } by { Prim.hlevel props },
    pub ghost sound: { EnergiesSound (energies_in bytes.now part) } by { Prim.hlevel props },
}

impl<'a> BookEnergies<'a> {
    ghost use Rattle.accounts.specs.Inner.Lent.{lent};

    // Those of a book that checks 1 to 9 let pass.
    pub fn of(book: &LaidBook<'a>) -> BookEnergies<'a>
        requires { Sound (book_at book.now) }
        ensures { lent result ≡ energies_of (book_at book.now) }
    {
        BookEnergies {
            bytes: book.entries(),
            part: part_of(book.header),
        }
    }

    // Those of the book that settles a contract.
    pub fn settling(source: Source, book: &LaidBook<'a>, locked: &LaidBook<'a>) -> BookEnergies<'a>
        requires { Sound (book_at book.now) × Sound (book_at locked.now) }
        ensures { lent result ≡ energies_of (pick source (book_at book.now) (book_at locked.now)) }
    {
        BookEnergies {
            bytes: locking::energies_of(source, book.bytes, locked.bytes),
            part: part_in(source, book.header, locked.header),
        }
    }
}

// An account's own energies in the book, and in the one that test payments are settled by.
#[derive(Clone, Copy)]
pub struct OwnEnergies {
    pub current: Totals,
    pub locked: Totals,
}

impl OwnEnergies {
    // No energy in either book.
    pub const NONE: OwnEnergies = OwnEnergies {
        current: Totals::NONE,
        locked: Totals::NONE,
    };

    // Those of the book that settles a contract.
    pub fn by(&self, source: Source) -> &Totals
        ensures { result.now ≡ pick source self.now.current self.now.locked }
    {
        match source {
            Source::Current => &self.current,
            Source::Locked => &self.locked,
        }
    }
}
