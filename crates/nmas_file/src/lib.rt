// The reconciliation file of an account: a row for each contract and benefiting region, written from an accepted book. The text is measured before
// its first byte is written.
#![tactic(auto)]

ghost use Rattle.std.specs.Prelude.{◌≡◌, ℕ, ◌+◌, ◌*◌, ◌≤◌, ◌<◌, length, nat_abs};
ghost use Rattle.ground.specs.Bytes.{AreBytes, part_from};
ghost use Rattle.records.specs.Rows.{entry_row, contract_row};
ghost use Rattle.rules.specs.Rules.{factor_of};
ghost use Rattle.totals.specs.Inner.Totals.{entry_of};
ghost use Rattle.book.specs.Header.{header_of};
ghost use Rattle.book.specs.Laid.{book_at};
ghost use Rattle.book.specs.Inner.Accepted.{Promise};
ghost use Rattle.accounts.specs.Rows.{joined};
ghost use Rattle.statement.specs.Lent.{Lent, gives};
ghost use Rattle.nmas.specs.Rows.{fields_of, text_of};
ghost use Rattle.nmas_file.specs.File.{row_with, region_rows, contract_rows, file_in, file_outcome};
ghost use Rattle.nmas_file.specs.Inner.Walks.{Fileable, FileableIn, settled_rows, rows_at, book_rows};

use accounts::energies::OwnEnergies;
use amounts::pools;
use book::header::Header;
use book::laid::LaidBook;
use lines::make;
use lines::portion::Portion;
use locking::Source;
use nmas::{Measured, Puts, Written};
use numbers::sign;
use records::rows;
use records::rows::Contract;
use sections::Refusal;
use statement::Line;
use totals::entries::Totals;

// What all rows of a file have in common.
#[derive(Clone, Copy)]
pub struct Head {
    pub date: u64,
    pub run: u64,
    pub interval: u64,
    pub account: u64,
    pub payment_type: u64,
}

// That of a book's header, for an account and a payment type.
fn head_of(h: Header, account: u32, payment_type: u64) -> Head
    ensures { result ≡ record { date = h.date; run = h.run; interval = h.interval; account = account; payment_type = payment_type } }
{
    Head {
        date: h.date as u64,
        run: h.run as u64,
        interval: h.interval as u64,
        account: account as u64,
        payment_type,
    }
}

// The size of what a line gives or takes.
fn size_of(line: Line) -> u64
    ensures { result ≡ nat_abs line.amount }
{
    sign::size(line.amount)
}

// The fields of a contract's row in region g, where it benefits, in the order of the columns.
fn fields_of(head: Head, regions: &[u8], k: Contract, g: usize, own: &Totals) -> [u64; 17]
    requires in_bounds { (60 ≤ length regions.now) × ((g < 5) × (factor_of k.factors g ≡ 0 → ⊥)) }
    requires fileable { Fileable head (entry_row regions.now) k own.now }
    ensures { result ≡ fields_of (row_with head (entry_row regions.now) (entry_of own.now) k g) }
{
    let factor = k.factors[g];
    let own_ace = own.ace[g];
    let own_asoe = own.asoe[g];
    let e = rows::entry_row(regions, g);
    let x = pools::halves_of(k.payment, factor);
    let consumed = Portion {
        own: own_ace,
        total: e.ace as u64,
    };
    let sent = Portion {
        own: own_asoe,
        total: e.asoe as u64,
    };
    let by_ace = size_of(make::ace_line(k.id, g, x, consumed));
    let by_asoe = size_of(make::asoe_line(k.id, g, x, sent));
    [
        head.date,
        head.run,
        head.interval,
        head.account,
        0,
        k.id as u64,
        head.payment_type,
        g as u64,
        factor as u64,
        k.payment,
        by_ace + by_asoe,
        own_ace,
        e.ace as u64,
        own_asoe,
        e.asoe as u64,
        by_ace,
        by_asoe,
    ]
}

// A contract's row in region g, none where it does not benefit, written or measured; the answer is where it ends.
fn put_region<P: Puts>(
    text: &mut [u8],
    place: usize,
    head: Head,
    regions: &[u8],
    k: Contract,
    g: usize,
    own: &Totals,
) -> usize
    requires in_bounds { (60 ≤ length regions.now) × (g < 5) }
    requires fileable { Fileable head (entry_row regions.now) k own.now }
    requires g_in_bounds { P.room text.old place (text_of (region_rows head (entry_row regions.now) (entry_of own.now) k g)) }
    ensures { P.puts text.old place (text_of (region_rows head (entry_row regions.now) (entry_of own.now) k g)) text.new result }
{
    if k.factors[g] == 0 {
        return place;
    }
    let fields = fields_of(head, regions, k, g, own);
    nmas::put_row::<P>(text, place, &fields)
}

// A contract's rows.
fn put_contract<P: Puts>(
    text: &mut [u8],
    place: usize,
    head: Head,
    regions: &[u8],
    k: Contract,
    own: &Totals,
) -> usize
    requires in_bounds { 60 ≤ length regions.now }
    requires fileable { Fileable head (entry_row regions.now) k own.now }
    requires k_in_bounds { P.room text.old place (text_of (contract_rows head (entry_row regions.now) (entry_of own.now) k)) }
    ensures { P.puts text.old place (text_of (contract_rows head (entry_row regions.now) (entry_of own.now) k)) text.new result }
{
    let mut end = place;
    for g in 0..5 {
        end = put_region::<P>(text, end, head, regions, k, g, own);
    }
    end
}

// A contract's rows, by the energies of the book that settles it.
fn put_settled<'a, P: Puts>(
    text: &mut [u8],
    place: usize,
    head: Head,
    book: &'a [u8],
    locked: &'a [u8],
    k: Contract,
    own: &OwnEnergies,
) -> usize
    requires in_bounds { (84 ≤ length book.now) × (84 ≤ length locked.now) }
    requires fileable_in { FileableIn head (entry_row (part_from 24 book.now)) (entry_row (part_from 24 locked.now)) own.now k }
    requires k_in_bounds { P.room text.old place (text_of (settled_rows head (entry_row (part_from 24 book.now)) (entry_row (part_from 24 locked.now)) own.now k)) }
    ensures { P.puts text.old place (text_of (settled_rows head (entry_row (part_from 24 book.now)) (entry_row (part_from 24 locked.now)) own.now k)) text.new result }
{
    let source = Source::of(k.kind);
    let regions = locking::energies_of(source, book, locked);
    put_contract::<P>(text, place, head, regions, k, own.by(source))
}

// The rows of the n contracts, from the first byte on.
fn put_rows<'a, P: Puts>(
    text: &mut [u8],
    head: Head,
    book: &'a [u8],
    locked: &'a [u8],
    contracts: &[u8],
    n: usize,
    own: &OwnEnergies,
) -> usize
    requires in_bounds { (84 ≤ length book.now) × ((84 ≤ length locked.now) × (n * 36 ≤ length contracts.now)) }
    requires by_index { (i : ℕ) → i < n → FileableIn head (entry_row (part_from 24 book.now)) (entry_row (part_from 24 locked.now)) own.now (contract_row contracts.now i) }
    requires n_in_bounds { P.room text.old 0 (text_of (joined (rows_at head (entry_row (part_from 24 book.now)) (entry_row (part_from 24 locked.now)) own.now (contract_row contracts.now)) n)) }
    ensures { P.puts text.old 0 (text_of (joined (rows_at head (entry_row (part_from 24 book.now)) (entry_row (part_from 24 locked.now)) own.now (contract_row contracts.now)) n)) text.new result }
{
    let mut end = 0;
    for i in 0..n {
        let k = rows::contract_row(contracts, i);
        end = put_settled::<P>(text, end, head, book, locked, k, own);
    }
    end
}

// The text of an accepted book: 13, by its length, before the first byte is written.
fn put_file<'a>(
    head: Head,
    book: &LaidBook<'a>,
    second: &LaidBook<'a>,
    own: &OwnEnergies,
    buffer: &mut [u8],
) -> Result<usize, Refusal>
    requires { (i : ℕ) → i < book.now.header.contracts → FileableIn head (book_at book.now).entry (book_at second.now).entry own.now ((book_at book.now).contract i) }
    ensures { Lent (gives (text_of (book_rows head (book_at book.now) (book_at second.now) own.now))) buffer.old result buffer.new }
{
    let b = book.bytes;
    let s = second.bytes;
    let contracts = book.contracts();
    let n = book.header.contracts as usize;
    let long = put_rows::<Measured>(&mut [], head, b, s, contracts, n, own);
    sections::unless(long <= buffer.len(), 13)?;
    Ok(put_rows::<Written>(buffer, head, b, s, contracts, n, own))
}

// The file of an accepted book: what its statement is refused for, then 13. The second book is the first where no contract is a test payment, and
// then both give the same energies.
// Not inlined, so that the checks run before there is room for a row's fields on the stack.
#[inline(never)]
fn settled_file<'a>(
    book: &LaidBook<'a>,
    second: &LaidBook<'a>,
    account: u32,
    payment_type: u64,
    buffer: &mut [u8],
) -> Result<usize, Refusal>
    requires headed { book.now.header ≡ header_of book.now.bytes.now }
    requires are_bytes { AreBytes book.now.bytes.now }
    requires promise { Promise (book_at book.now) (book_at second.now) × (payment_type ≤ 2) }
    ensures { Lent (file_in (book_at book.now) (book_at second.now) account payment_type) buffer.old result buffer.new }
{
    let mut own = OwnEnergies::NONE;
    let held = settlement::held_by(book, account, &mut own.current);
    settlement::sized(book, held, second, account)?;
    settlement::held_by(second, account, &mut own.locked);
    let head = head_of(book.header, account, payment_type);
    put_file(head, book, second, &own, buffer)
}

// The file of any account from any bytes, for one of the three payment types, into any buffer.
pub fn file<'a>(
    book: &'a [u8],
    locked: &'a [u8],
    account: u32,
    payment_type: u64,
    buffer: &mut [u8],
) -> Result<usize, Refusal>
    ensures { Lent (file_outcome book.now locked.now account payment_type) buffer.old result buffer.new }
{
    sections::unless(payment_type <= 2, 15)?;
    let both = verdict::accepted(book, locked)?;
    settled_file(&both.book, &both.second, account, payment_type, buffer)
}
