// A book lent with the rows that name its accounts, and with the tree of its unit rows. Each says by its type what a count rests on.
ghost use Rattle.sharing.specs.Accounts.{unit_account};
ghost use Rattle.census.specs.Inner.Tree.{Grown};
ghost use Rattle.joint.specs.Names.{units_of};
ghost use Rattle.joint.specs.Inner.Laid.{NamesLaid};

use crate::NamingRows;

// The rows lie in the book, no more than one may have, and its energy rows are in order.
#[derive(Clone, Copy)]
pub(crate) struct Named<'a> {
    pub(crate) book: &'a [u8],
    pub(crate) rows: NamingRows,
    pub(crate) ghost laid: { NamesLaid book.now rows },
}

// The links are the tree of all its unit rows. A ghost field can only say that there is one (∥ ∥₁); `grown_told` makes it the tree again.
#[derive(Clone, Copy)]
pub(crate) struct Planted<'a, 'b> {
    pub(crate) named: Named<'a>,
    pub(crate) links: &'b [u16; 1456],
    pub(crate) ghost grown: { ∥ Grown (unit_account (units_of named.book.now named.rows)) named.rows.m links.now ∥₁ },
}
