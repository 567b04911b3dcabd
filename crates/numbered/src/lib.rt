// One line of an account by its number, from 0 in the statement's order. What lies before it is counted, and only the one line is made. Where
// there are fewer lines, the error says what the number has beyond the last.
#![tactic(auto)]

ghost use Rattle.std.specs.Prelude.{◌≡◌, ℕ, ◌*◌, ◌≤◌, ◌<◌, length};
ghost use Rattle.records.specs.Rows.{entry_row, constraint_row, unit_row, contract_row};
ghost use Rattle.ground.specs.Bytes.{part_from};
ghost use Rattle.accounts.specs.Rows.{joined};
ghost use Rattle.book.specs.Book.{book_of};
ghost use Rattle.book.specs.Laid.{book_at};
ghost use Rattle.lines.specs.Inner.Walks.{con_lines_at, contract_lines_at, settled_lines, totals_from, own_from, book_lines, Ready, SettledIn, Walkable};
ghost use Rattle.lookup.specs.ByNumber.{numbered_in};

use accounts::energies::OwnEnergies;
use book::laid::LaidBook;
use locking::Source;
use lookup::constraint::Asked;
use lookup::{constraint, contract};
use records::rows;
use records::rows::Contract;
use statement::Line;
use totals::entries::Totals;

// The line of a number among those of the n constraints. The search among the unit rows only moves forward.
fn in_constraints(
    regions: &[u8],
    cons: &[u8],
    n: usize,
    units: &[u8],
    m: usize,
    own: Totals,
    account: u32,
    number: usize,
) -> Result<Line, usize>
    requires in_bounds { (60 ≤ length regions.now) × ((n * 40 ≤ length cons.now) × (m * 20 ≤ length units.now)) }
    requires ready { Ready (entry_row regions.now) (constraint_row cons.now) n (unit_row units.now) m own }
    ensures { result ≡ numbered_in (joined (con_lines_at (entry_row regions.now) (constraint_row cons.now) (unit_row units.now) m account own) n) number }
{
    let mut left = number;
    let mut row = 0;
    for j in 0..n {
        let r = rows::constraint_row(cons, j);
        let asked = Asked {
            account,
            row,
            number: left,
        };
        match constraint::constraint_line(regions, units, m, r, own, asked) {
            Ok(line) => {
                return Ok(line);
            }
            Err(p) => {
                row = p.row;
                left = p.left;
            }
        }
    }
    Err(left)
}

// The line of a number among those of one contract, by the energies of the book that settles it.
fn in_contract<'a>(
    book: &'a [u8],
    locked: &'a [u8],
    k: Contract,
    own: OwnEnergies,
    number: usize,
) -> Result<Line, usize>
    requires in_bounds { (84 ≤ length book.now) × (84 ≤ length locked.now) }
    requires settled_in { SettledIn (entry_row (part_from 24 book.now)) (entry_row (part_from 24 locked.now)) own k }
    ensures { result ≡ numbered_in (settled_lines (entry_row (part_from 24 book.now)) (entry_row (part_from 24 locked.now)) own k) number }
{
    let source = Source::of(k.kind);
    let regions = locking::energies_of(source, book, locked);
    contract::contract_line(regions, k, *own.by(source), number)
}

// The line of a number among those of the n contracts.
fn in_contracts<'a>(
    book: &'a [u8],
    locked: &'a [u8],
    contracts: &[u8],
    n: usize,
    own: OwnEnergies,
    number: usize,
) -> Result<Line, usize>
    requires in_bounds { (84 ≤ length book.now) × ((84 ≤ length locked.now) × (n * 36 ≤ length contracts.now)) }
    requires by_index { (k : ℕ) → k < n → SettledIn (entry_row (part_from 24 book.now)) (entry_row (part_from 24 locked.now)) own (contract_row contracts.now k) }
    ensures { result ≡ numbered_in (joined (contract_lines_at (totals_from (entry_row (part_from 24 book.now)) (entry_row (part_from 24 locked.now))) (own_from own) (contract_row contracts.now)) n) number }
{
    let mut left = number;
    for i in 0..n {
        let k = rows::contract_row(contracts, i);
        match in_contract(book, locked, k, own, left) {
            Ok(line) => {
                return Ok(line);
            }
            Err(rest) => {
                left = rest;
            }
        }
    }
    Err(left)
}

// The account's line of a number, of an accepted book: among the constraints' lines, and behind them among the contracts'.
pub fn line_at<'a>(
    book: &LaidBook<'a>,
    locked: &'a [u8],
    own: OwnEnergies,
    account: u32,
    number: usize,
) -> Result<Line, usize>
    requires in_bounds { 84 ≤ length locked.now }
    requires walkable { Walkable (book_at book.now) (book_of locked.now) own }
    ensures { result ≡ numbered_in (book_lines (book_at book.now) (book_of locked.now) account own) number }
{
    let h = book.header;
    let first = in_constraints(
        book.entries(),
        book.constraints(),
        h.constraints as usize,
        book.units(),
        h.units as usize,
        own.current,
        account,
        number,
    );
    match first {
        Ok(line) => Ok(line),
        Err(left) => in_contracts(
            book.bytes,
            locked,
            book.contracts(),
            h.contracts as usize,
            own,
            left,
        ),
    }
}
