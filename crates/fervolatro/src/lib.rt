// The library's calls: numbers and byte slices in, plain structs out. Nothing is decided here. C sees them through `fervolatro_c`.
#![tactic(auto)]

ghost use Rattle.std.specs.Prelude.{◌≡◌};
ghost use Rattle.book.specs.Table.{verdict};
ghost use Rattle.statement.specs.Lent.{length_for};
ghost use Rattle.reading.specs.Calls.{heading_read, line_read};
ghost use Rattle.reading.specs.Rewriting.{rewritten};
ghost use Rattle.unpacking.specs.Unpacking.{unpacked};
ghost use Rattle.settlement.specs.Settle.{outcome};
ghost use Rattle.balance.specs.Balance.{balance_of};
ghost use Rattle.cutoffs.specs.Cutoffs.{cut_of};
ghost use Rattle.dispatch.specs.Dispatch.{payment, base_cost};
ghost use Rattle.nmas_file.specs.File.{file_outcome};
ghost use Rattle.answers.specs.Answers.{verdict_answer, written_answer, heading_answer, entry_answer, pool_answer, cut_answer, cost_answer, Called, SizeCalled, EntryCalled};

use answers::{
    CostAnswer, CutAnswer, EntryAnswer, HeadingAnswer, NmasEntryAnswer, NmasSizeAnswer, PoolAnswer,
    VerdictAnswer, WrittenAnswer,
};

// Whether these bytes are a book that all checks accept, and which refuses it where if not. An empty slice is no locked book, here as in the
// other calls on a book.
pub fn fervolatro_check<'a>(book: &'a [u8], locked: &'a [u8]) -> VerdictAnswer
    ensures { result ≡ verdict_answer (verdict book.now locked.now) }
{
    answers::answer(verdict::check(book, locked))
}

// How long the statement of an account is.
pub fn fervolatro_length<'a>(book: &'a [u8], locked: &'a [u8], account: u32) -> WrittenAnswer
    ensures { result ≡ written_answer (length_for (outcome book.now locked.now account)) }
{
    answers::written(settlement::length(book, locked, account))
}

// The statement of an account, written at the front of the buffer, or the refusal that leaves every byte of it.
pub fn fervolatro_statement<'a>(
    book: &'a [u8],
    locked: &'a [u8],
    account: u32,
    buffer: &mut [u8],
) -> WrittenAnswer
    ensures { Called (outcome book.now locked.now account) buffer.old result buffer.new }
{
    answers::written(settlement::statement(book, locked, account, buffer))
}

// The header of a statement.
pub fn fervolatro_header(bytes: &[u8]) -> HeadingAnswer
    ensures { result ≡ heading_answer (heading_read bytes.now) }
{
    answers::heading(reading::header(bytes))
}

// One line of a statement, by its number from 0.
pub fn fervolatro_line(bytes: &[u8], index: u64) -> EntryAnswer
    ensures { result ≡ entry_answer (line_read bytes.now index) }
{
    answers::entry(reading::line(bytes, index))
}

// All lines of a statement, handed out as numbers at the front of the buffer (`fervolatro_fields` each), or the refusal that leaves every byte of it.
pub fn fervolatro_lines(bytes: &[u8], buffer: &mut [u8]) -> WrittenAnswer
    ensures { Called (unpacked bytes.now) buffer.old result buffer.new }
{
    answers::written(unpacking::unpack(bytes, buffer))
}

// A statement that was read, written again at the front of the buffer, or the refusal that leaves every byte of it.
pub fn fervolatro_rewrite(bytes: &[u8], buffer: &mut [u8]) -> WrittenAnswer
    ensures { Called (rewritten bytes.now) buffer.old result buffer.new }
{
    answers::written(reading::rewriting::rewrite(bytes, buffer))
}

// The balance of the pool of a number from 0.
pub fn fervolatro_balance<'a>(book: &'a [u8], locked: &'a [u8], number: u64) -> PoolAnswer
    ensures { result ≡ pool_answer (balance_of book.now locked.now number) }
{
    answers::pool(balance::pool_balance(book, locked, number))
}

// What a rounding stage of a pool cut off, summed over all accounts, both by their numbers from 0.
pub fn fervolatro_cutoff<'a>(book: &'a [u8], locked: &'a [u8], number: u64, index: u64) -> CutAnswer
    ensures { result ≡ cut_answer (cut_of book.now locked.now number index) }
{
    answers::cut(cutoffs::stage_cut(book, locked, number, index))
}

// The payment of a service, from dispatch rows.
pub fn fervolatro_payment(rows: &[u8], service: u64) -> CostAnswer
    ensures { result ≡ cost_answer (payment rows.now service) }
{
    answers::cost(dispatch::payment(rows, service))
}

// The base cost of a constraint for a service, from dispatch rows.
pub fn fervolatro_base_cost(rows: &[u8], id: u32, service: u64) -> CostAnswer
    ensures { result ≡ cost_answer (base_cost rows.now id service) }
{
    answers::cost(dispatch::base_cost(rows, id, service))
}

// The reconciliation file of an account, for a payment type of 0 to 2, written at the front of the buffer, or the refusal that leaves every byte of it.
pub fn fervolatro_nmas<'a>(
    book: &'a [u8],
    locked: &'a [u8],
    account: u32,
    payment_type: u64,
    buffer: &mut [u8],
) -> WrittenAnswer
    ensures { Called (file_outcome book.now locked.now account payment_type) buffer.old result buffer.new }
{
    answers::written(nmas_file::file(book, locked, account, payment_type, buffer))
}

// How many rows a reconciliation file has.
pub fn fervolatro_nmas_rows(text: &[u8]) -> NmasSizeAnswer
    ensures { SizeCalled text.now result }
{
    answers::nmas_size(nmas_reading::rows(text))
}

// One row of a reconciliation file, by its number from 0.
pub fn fervolatro_nmas_row(text: &[u8], index: u64) -> NmasEntryAnswer
    ensures { EntryCalled text.now index result }
{
    answers::nmas_entry(nmas_reading::row(text, index))
}
