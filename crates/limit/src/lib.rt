// 12: whether a line would pass 50,000,000,000 either way. A line is a share of a pool and is at most the pool, so it is the pools that are
// looked at, before the first line is made.
#![tactic(auto)]

ghost use Rattle.std.specs.Prelude.{◌≡◌, ℕ, ◌*◌, ◌≤◌, ◌<◌, length};
ghost use Rattle.sections.specs.Search.{some};
ghost use Rattle.records.specs.Rows.{constraint_row, contract_row};
ghost use Rattle.rules.specs.Inner.Facts.{ConstraintRule};
ghost use Rattle.book.specs.Laid.{book_at};
ghost use Rattle.book.specs.Inner.Accepted.{Sound};
ghost use Rattle.limit.specs.Inner.Limits.{constraint_over, contract_over, book_over};

use amounts::pools;
use book::laid::LaidBook;
use records::rows;
use records::rows::Constraint;

// The used and the unused pool are parts of the cost.
fn constraint_over(r: Constraint) -> bool
    requires { ConstraintRule r }
    ensures { result ≡ constraint_over r }
{
    (50_000_000_000 < r.cost) | (50_000_000_000 < pools::pools_of(r).fpp)
}

fn constraints(cons: &[u8], n: usize) -> bool
    requires n_in_bounds { n * 40 ≤ length cons.now }
    requires by_index { (j : ℕ) → j < n → ConstraintRule (constraint_row cons.now j) }
    ensures { result ≡ some (λ j. constraint_over (constraint_row cons.now j)) n }
{
    sections::some(n, |j| constraint_over(rows::constraint_row(cons, j)))
}

fn contracts(contracts: &[u8], n: usize) -> bool
    requires { n * 36 ≤ length contracts.now }
    ensures { result ≡ some (λ i. contract_over (contract_row contracts.now i)) n }
{
    sections::some(
        n,
        |i| 50_000_000_000 < rows::contract_row(contracts, i).payment,
    )
}

// Whether a pool of the book passes the limit.
pub fn passed(book: &LaidBook) -> bool
    requires { Sound (book_at book.now) }
    ensures { result ≡ book_over (book_at book.now) }
{
    let h = book.header;
    constraints(book.constraints(), h.constraints as usize)
        | contracts(book.contracts(), h.contracts as usize)
}
