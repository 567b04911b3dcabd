// All lines of an account, made and written in one walk, in the statement's order: constraint by constraint, then contract by contract.
#![tactic(auto)]

ghost use Rattle.std.specs.Prelude.{ℕ, ◌*◌, ◌≤◌, ◌<◌, length};
ghost use Rattle.records.specs.Rows.{entry_row, constraint_row, unit_row, contract_row};
ghost use Rattle.ground.specs.Bytes.{part_from};
ghost use Rattle.accounts.specs.Rows.{joined};
ghost use Rattle.lines.specs.Inner.Walks.{con_lines_at, contract_lines_at, settled_lines, totals_from, own_from, book_lines, Ready, SettledIn, Walkable};
ghost use Rattle.emission.specs.Inner.Emitted.{Emitted, LineRoom};
ghost use Rattle.book.specs.Book.{book_of};
ghost use Rattle.book.specs.Laid.{book_at};

use accounts::energies::OwnEnergies;
use book::laid::LaidBook;
use locking::Source;
use records::rows;
use records::rows::Contract;
use totals::entries::Totals;
use units::Cursor;

// The lines of the n constraints. The cursor over the unit rows only moves forward.
fn constraints(
    buf: &mut [u8],
    place: usize,
    regions: &[u8],
    cons: &[u8],
    n: usize,
    units: &[u8],
    m: usize,
    own: &Totals,
    account: u32,
) -> usize
    requires in_bounds { (60 ≤ length regions.now) × ((n * 40 ≤ length cons.now) × (m * 20 ≤ length units.now)) }
    requires ready { Ready (entry_row regions.now) (constraint_row cons.now) n (unit_row units.now) m own.now }
    requires line_room { LineRoom buf.old place (length (joined (con_lines_at (entry_row regions.now) (constraint_row cons.now) (unit_row units.now) m account own.now) n)) }
    ensures { Emitted buf.old place (joined (con_lines_at (entry_row regions.now) (constraint_row cons.now) (unit_row units.now) m account own.now) n) buf.new result }
{
    let mut here = Cursor { next: 0, place };
    for j in 0..n {
        let r = rows::constraint_row(cons, j);
        let share = divisors::share_of(regions, own, r);
        here = units::constraint_lines(buf, units, m, here, r, share, account);
    }
    here.place
}

// The lines of one contract, by the energies of the book that settles it.
fn contract<'a>(
    buf: &mut [u8],
    place: usize,
    book: &'a [u8],
    locked: &'a [u8],
    k: Contract,
    own: &OwnEnergies,
) -> usize
    requires in_bounds { (84 ≤ length book.now) × (84 ≤ length locked.now) }
    requires settled_in { SettledIn (entry_row (part_from 24 book.now)) (entry_row (part_from 24 locked.now)) own.now k }
    requires line_room { LineRoom buf.old place (length (settled_lines (entry_row (part_from 24 book.now)) (entry_row (part_from 24 locked.now)) own.now k)) }
    ensures { Emitted buf.old place (settled_lines (entry_row (part_from 24 book.now)) (entry_row (part_from 24 locked.now)) own.now k) buf.new result }
{
    let source = Source::of(k.kind);
    let regions = locking::energies_of(source, book, locked);
    payments::contract_lines(buf, place, regions, k, own.by(source))
}

// The lines of the n contracts.
fn contracts<'a>(
    buf: &mut [u8],
    place: usize,
    book: &'a [u8],
    locked: &'a [u8],
    contracts: &[u8],
    n: usize,
    own: &OwnEnergies,
) -> usize
    requires in_bounds { (84 ≤ length book.now) × ((84 ≤ length locked.now) × (n * 36 ≤ length contracts.now)) }
    requires by_index { (k : ℕ) → k < n → SettledIn (entry_row (part_from 24 book.now)) (entry_row (part_from 24 locked.now)) own.now (contract_row contracts.now k) }
    requires line_room { LineRoom buf.old place (length (joined (contract_lines_at (totals_from (entry_row (part_from 24 book.now)) (entry_row (part_from 24 locked.now))) (own_from own.now) (contract_row contracts.now)) n)) }
    ensures { Emitted buf.old place (joined (contract_lines_at (totals_from (entry_row (part_from 24 book.now)) (entry_row (part_from 24 locked.now))) (own_from own.now) (contract_row contracts.now)) n) buf.new result }
{
    let mut end = place;
    for i in 0..n {
        let k = rows::contract_row(contracts, i);
        end = contract(buf, end, book, locked, k, own);
    }
    end
}

// All lines of the account, behind the header: those of the constraints, then those of the contracts, by the book or by the one that test
// payments are settled by. Answers where they end.
pub fn all_lines<'a>(
    buf: &mut [u8],
    book: &LaidBook<'a>,
    locked: &'a [u8],
    own: &OwnEnergies,
    account: u32,
) -> usize
    requires in_bounds { 84 ≤ length locked.now }
    requires walkable { Walkable (book_at book.now) (book_of locked.now) own.now }
    requires line_room { LineRoom buf.old 24 (length (book_lines (book_at book.now) (book_of locked.now) account own.now)) }
    ensures { Emitted buf.old 24 (book_lines (book_at book.now) (book_of locked.now) account own.now) buf.new result }
{
    let h = book.header;
    let first = constraints(
        buf,
        24,
        book.entries(),
        book.constraints(),
        h.constraints as usize,
        book.units(),
        h.units as usize,
        &own.current,
        account,
    );
    contracts(
        buf,
        first,
        book.bytes,
        locked,
        book.contracts(),
        h.contracts as usize,
        own,
    )
}
