// The stages of a constraint's pools, of a book that the checks have accepted.
ghost use Rattle.std.specs.Prelude.{◌≡◌, cond, ◌≤◌, ◌<◌, eqb};
ghost use Rattle.ground.specs.Units.{money_limit};
ghost use Rattle.rules.specs.Inner.Facts.{ConstraintRule};
ghost use Rattle.totals.specs.Divisors.{over_regions};
ghost use Rattle.book.specs.Laid.{book_at};
ghost use Rattle.book.specs.Inner.Accepted.{Sound};
ghost use Rattle.accounts.specs.Inner.Energies.{energies_of};
ghost use Rattle.accounts.specs.Inner.Lent.{lent};
ghost use Rattle.balance.specs.Inner.Rests.{OfConstraint};
ghost use Rattle.cutoffs.specs.Cutoffs.{pool_cut, pool_stage, residual_stage, stage_at};
ghost use Rattle.cutoffs.specs.Inner.Shapes.{line_shape, unit_shape, share_shape, regulation_shapes};

use crate::{Cut, Stage};
use accounts::energies::BookEnergies;
use amounts::{pools, shares};
use book::laid::LaidBook;
use market::Mode;
use numbers::sign;
use records::rows::Constraint;
use recovery::kinds::Kind;
use recovery::{kinds, regions, units};
use sections::Refusal;

// A contingency's lines: a share of the cost for each account.
pub(crate) fn line(e: BookEnergies, r: Constraint) -> Cut
    requires { (0 < over_regions (lent e).entry r) × (r.cost ≤ money_limit) }
    ensures { result ≡ line_shape (lent e.entry) r }
{
    let whole = divisors::divisor(e.bytes, r);
    Cut {
        stage: Stage::Line,
        region: 0,
        divisor: whole,
        cut: regions::cut_over_regions(e, r, whole, r.cost),
    }
}

// A pool as rounded.
fn pool_stage(divisor: u64, cut: i64) -> Cut
    ensures { result ≡ pool_cut divisor cut }
{
    Cut {
        stage: Stage::Pool,
        region: 0,
        divisor,
        cut,
    }
}

// The pool itself. Unused is what used leaves of the cost: it has more what used has less.
fn pool(r: Constraint, kind: Kind) -> Cut
    requires { ConstraintRule r }
    ensures { result ≡ pool_stage r kind }
{
    let rounded = pools::pool_cuts(r);
    match kind {
        Kind::Contingency => pool_stage(1_000_000, 0),
        Kind::Fpp => pool_stage(120, rounded.fpp),
        Kind::Used => pool_stage(1_000_000, rounded.used),
        Kind::Unused => pool_stage(1_000_000, sign::minus(0, rounded.used)),
        Kind::Payment => pool_stage(1_000_000, 0),
    }
}

// The unit lines.
fn unit(book: &LaidBook, r: Constraint, kind: Kind) -> Cut
    requires sound { Sound (book_at book.now) }
    requires of_constraint { OfConstraint (book_at book.now) r }
    ensures { result ≡ unit_shape (book_at book.now) r kind }
{
    let x = kinds::recovery_of(r, kind);
    Cut {
        stage: Stage::Unit,
        region: 0,
        divisor: 1_000_000,
        cut: units::unit_cut(book.units(), book.header.units as usize, r.id, kind, x.pool),
    }
}

// The residual pool, which is made as the units' shares are.
fn residual(r: Constraint, kind: Kind) -> Cut
    requires { ConstraintRule r }
    ensures { result ≡ residual_stage r kind }
{
    let x = kinds::recovery_of(r, kind);
    let credit = shares::rounded_share(x.pool, kind.above(r) as u64, 1_000_000);
    let charge = shares::rounded_share(x.pool, kind.below(r) as u64, 1_000_000);
    Cut {
        stage: Stage::Residual,
        region: 0,
        divisor: 1_000_000,
        cut: sign::minus(credit.cut, charge.cut),
    }
}

// The residual lines: a share of the residual pool for each account.
fn share(book: &LaidBook, r: Constraint, kind: Kind) -> Cut
    requires sound { Sound (book_at book.now) }
    requires of_constraint { OfConstraint (book_at book.now) r × (0 < over_regions (book_at book.now).entry r) }
    ensures { result ≡ share_shape (energies_of (book_at book.now)) r kind }
{
    let x = kinds::recovery_of(r, kind);
    let e = BookEnergies::of(book);
    let whole = divisors::divisor(e.bytes, r);
    let credit = regions::cut_over_regions(e, r, whole, x.credit);
    let charge = regions::cut_over_regions(e, r, whole, x.charge);
    Cut {
        stage: Stage::Share,
        region: 0,
        divisor: whole,
        cut: sign::minus(credit, charge),
    }
}

// How many stages come before the unit lines: only a factored constraint's pools are rounded.
fn pool_stages(r: Constraint) -> u64
    ensures { result ≡ cond (eqb r.mode 1) 1 0 }
{
    u64::from(r.mode == Mode::FACTORED)
}

// The stage of a number in a regulation pool.
pub(crate) fn regulation(
    book: &LaidBook,
    r: Constraint,
    kind: Kind,
    index: u64,
) -> Result<Cut, Refusal>
    requires sound { Sound (book_at book.now) }
    requires of_constraint { OfConstraint (book_at book.now) r × (0 < over_regions (book_at book.now).entry r) }
    ensures { result ≡ stage_at (regulation_shapes (book_at book.now) r kind) index }
{
    let first = pool_stages(r);
    if index < first {
        return Ok(pool(r, kind));
    }
    match index - first {
        0 => Ok(unit(book, r, kind)),
        1 => Ok(residual(r, kind)),
        2 => Ok(share(book, r, kind)),
        _ => Err(Refusal {
            number: 15,
            place: 0,
        }),
    }
}
