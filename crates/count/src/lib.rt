// How many lines an account has, without making one: its unit rows are told by their accounts, and the mode says how many lines each has.
#![tactic(auto)]

ghost use Rattle.std.specs.Prelude.{◌≡◌, cond, ◌+◌, ◌*◌, ◌≤◌, ◌<◌, leb, length};
ghost use Rattle.sections.specs.Search.{all};
ghost use Rattle.sections.specs.Total.{total};
ghost use Rattle.records.specs.Rows.{constraint_row, unit_row, contract_row};
ghost use Rattle.book.specs.Laid.{book_at};
ghost use Rattle.groups.specs.Inner.Each.{each_of};
ghost use Rattle.count.specs.Inner.Counts.{own_row, UnitsCounted, Countable, MetAt, ConstraintsCounted, ContractCounted, ContractsCounted, BookCounted};

use book::laid::LaidBook;
use factors::naming;
use market::Mode;
use records::rows;
use records::rows::{Constraint, Contract};

// Where a search among the constraints stands, and how many lines there are so far.
#[derive(Clone, Copy)]
pub struct Met {
    pub cursor: usize,
    pub lines: usize,
}

// Unit row u with its lines, where the account owns it. The constraint that it names is looked for from the last one on, since rows and
// constraints stand in the same order.
fn with_row(cons: &[u8], n: usize, units: &[u8], m: usize, u: usize, met: Met, account: u32) -> Met
    requires n_in_bounds { (n * 40 ≤ length cons.now) × ((m * 20 ≤ length units.now) × (u < m)) }
    requires countable { Countable (constraint_row cons.now) n (unit_row units.now) m }
    requires met_at { MetAt (constraint_row cons.now) n (unit_row units.now) m account u met }
    ensures { MetAt (constraint_row cons.now) n (unit_row units.now) m account (u + 1) result }
{
    let q = rows::unit_row(units, u);
    if q.account != account {
        return met;
    }
    let cursor = naming::seek(cons, n, met.cursor, q.constraint);
    let lines = met.lines + groups::lines_each(rows::constraint_row(cons, cursor));
    Met { cursor, lines }
}

// The lines of the account's unit rows, row by row.
fn row_by_row(cons: &[u8], n: usize, units: &[u8], m: usize, account: u32) -> usize
    requires n_in_bounds { (n * 40 ≤ length cons.now) × (m * 20 ≤ length units.now) }
    requires countable { Countable (constraint_row cons.now) n (unit_row units.now) m }
    ensures { UnitsCounted (constraint_row cons.now) n (unit_row units.now) account m result }
{
    let mut met = Met {
        cursor: 0,
        lines: 0,
    };
    for u in 0..m {
        met = with_row(cons, n, units, m, u, met, account);
    }
    met.lines
}

// How many unit rows are the account's, counted without a branch.
fn own_rows(units: &[u8], m: usize, account: u32) -> usize
    requires { (m * 20 ≤ length units.now) × (m ≤ 600) }
    ensures { (result ≡ total (own_row (unit_row units.now) account) m) × (result ≤ m) }
{
    sections::sum(
        m,
        |u| usize::from(rows::unit_row(units, u).account == account),
    )
}

// Whether no constraint is of mode 2.
fn none_default(cons: &[u8], n: usize) -> bool
    requires { n * 40 ≤ length cons.now }
    ensures { result ≡ all (λ j. leb (constraint_row cons.now j).mode 1) n }
{
    sections::all(n, |j| rows::constraint_row(cons, j).mode <= Mode::FACTORED)
}

// The lines of the account's unit rows. Where no constraint is of mode 2 each row has three, whichever it names.
fn unit_lines(cons: &[u8], n: usize, units: &[u8], m: usize, account: u32) -> usize
    requires n_in_bounds { (n * 40 ≤ length cons.now) × (m * 20 ≤ length units.now) }
    requires countable { Countable (constraint_row cons.now) n (unit_row units.now) m }
    ensures { UnitsCounted (constraint_row cons.now) n (unit_row units.now) account m result }
{
    if none_default(cons, n) {
        return own_rows(units, m, account) * 3;
    }
    row_by_row(cons, n, units, m, account)
}

// The lines that the n constraints have besides: a residual's, or the one of mode 0.
fn other_lines(cons: &[u8], n: usize) -> usize
    requires { (n * 40 ≤ length cons.now) × (n ≤ 64) }
    ensures { (result ≡ total (λ j. each_of (constraint_row cons.now j)) n) × (result ≤ 192) }
{
    sections::sum(n, |j| groups::lines_each(rows::constraint_row(cons, j)))
}

// The lines of the n constraints.
fn constraints(cons: &[u8], n: usize, units: &[u8], m: usize, account: u32) -> usize
    requires n_in_bounds { (n * 40 ≤ length cons.now) × (m * 20 ≤ length units.now) }
    requires countable { Countable (constraint_row cons.now) n (unit_row units.now) m }
    ensures { ConstraintsCounted (constraint_row cons.now) n (unit_row units.now) m account result }
{
    unit_lines(cons, n, units, m, account) + other_lines(cons, n)
}

fn contract_count(k: Contract) -> usize
    ensures { ContractCounted k result }
{
    let mut lines = 0;
    for factor in k.factors {
        lines += groups::region_count(factor);
    }
    lines
}

// The lines of the n contracts.
fn contracts(contracts: &[u8], n: usize) -> usize
    requires { (n * 36 ≤ length contracts.now) × (n ≤ 16) }
    ensures { ContractsCounted (contract_row contracts.now) n result }
{
    sections::sum(n, |i| contract_count(rows::contract_row(contracts, i)))
}

// All lines of the account.
pub fn all_lines(book: &LaidBook, account: u32) -> usize
    requires { Countable (book_at book.now).constraint book.now.header.constraints (book_at book.now).unit book.now.header.units }
    ensures { BookCounted (book_at book.now) account result }
{
    let h = book.header;
    let of_constraints = constraints(
        book.constraints(),
        h.constraints as usize,
        book.units(),
        h.units as usize,
        account,
    );
    of_constraints + contracts(book.contracts(), h.contracts as usize)
}
