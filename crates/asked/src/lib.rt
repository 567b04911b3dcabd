// The three demands, asked of the library's calls themselves. Each function here makes one call or two, and its contract is the demand's own
// definition: nothing lies between a demand and the edge, and a call that loses its promise is refused here. Nobody calls these functions.
#![tactic(auto)]

ghost use Rattle.std.specs.Prelude.{◌≡◌, List, ℕ};
ghost use Rattle.reading.specs.Rewriting.{rewritten};
ghost use Rattle.unpacking.specs.Unpacking.{unpacked};
ghost use Rattle.book.specs.Table.{locked_for};
ghost use Rattle.settlement.specs.Settle.{outcome};
ghost use Rattle.nmas_file.specs.File.{file_outcome};
ghost use Rattle.answers.specs.declared.CutAnswer.{CutAnswer};
ghost use Rattle.demands.specs.Demand1.{CheckAnswered, LengthAnswered, PoolAnswered, CutAnswered, CutoffCall, HeadingAnswered, EntryAnswered, CostAnswered, NmasSizeAnswered, NmasEntryAnswered, Gives, Answered, on_a_statement, on_rewriting, on_a_file};
ghost use Rattle.demands.specs.Demand2.{NumbersAreTheGuides, StatementIsTheGuides, LinesAreTheLineCalls, PoolCloses};
ghost use Rattle.demands.specs.File.{WrittenAndRead, ReadAndWritten};
ghost use Rattle.demands.specs.Explained.{BalanceExplained};
ghost use Rattle.demands.specs.Length.{AskedFirst, AsLongAsTheGuides};
ghost use Rattle.demands.specs.Unread.{NoTestPayment};
ghost use Rattle.demands.specs.Demand3.{Agree, AgreeButForCosts, Way, CostsMade, Same};

use answers::{
    CostAnswer, CutAnswer, EntryAnswer, HeadingAnswer, NmasEntryAnswer, NmasSizeAnswer, PoolAnswer,
    VerdictAnswer, WrittenAnswer,
};

pub fn check<'a>(book: &'a [u8], locked: &'a [u8]) -> VerdictAnswer
    ensures check_answered { CheckAnswered book.now locked.now result }
    ensures numbers_are_the_guides { result.refusal ≡ 0 → NumbersAreTheGuides book.now × NumbersAreTheGuides (locked_for book.now locked.now) }
{
    fervolatro::fervolatro_check(book, locked)
}

pub fn length<'a>(book: &'a [u8], locked: &'a [u8], account: u32) -> WrittenAnswer
    ensures length_answered { LengthAnswered result }
    ensures as_long_as_the_guides { result.refusal ≡ 0 → AsLongAsTheGuides book.now locked.now account result }
{
    fervolatro::fervolatro_length(book, locked, account)
}

pub fn statement<'a>(
    book: &'a [u8],
    locked: &'a [u8],
    account: u32,
    buffer: &mut [u8],
) -> WrittenAnswer
    ensures answered { Answered on_a_statement (outcome book.now locked.now account) buffer.old result buffer.new }
    ensures statement_is_the_guides { result.refusal ≡ 0 → StatementIsTheGuides book.now locked.now account buffer.old result buffer.new }
{
    fervolatro::fervolatro_statement(book, locked, account, buffer)
}

pub fn balance<'a>(book: &'a [u8], locked: &'a [u8], number: u64) -> PoolAnswer
    ensures pool_answered { PoolAnswered result }
    ensures pool_closes { result.refusal ≡ 0 → PoolCloses book.now locked.now number result }
{
    fervolatro::fervolatro_balance(book, locked, number)
}

pub fn cutoff<'a>(book: &'a [u8], locked: &'a [u8], number: u64, index: u64) -> CutAnswer
    ensures cut_answered { CutAnswered result }
    ensures cutoff_call { CutoffCall book.now locked.now number index result }
{
    fervolatro::fervolatro_cutoff(book, locked, number, index)
}

// A balance, beside whatever answers keep to what is asked of `cutoff` for each number of a stage.
pub fn explained<'a>(book: &'a [u8], locked: &'a [u8], number: u64) -> PoolAnswer
    ensures { (c : ℕ → CutAnswer) → ((index : ℕ) → CutoffCall book.now locked.now number index (c index)) → result.refusal ≡ 0 → BalanceExplained book.now locked.now number result c }
{
    fervolatro::fervolatro_balance(book, locked, number)
}

pub fn header(bytes: &[u8]) -> HeadingAnswer
    ensures { HeadingAnswered result }
{
    fervolatro::fervolatro_header(bytes)
}

pub fn line(bytes: &[u8], index: u64) -> EntryAnswer
    ensures { EntryAnswered result }
{
    fervolatro::fervolatro_line(bytes, index)
}

pub fn rewrite(bytes: &[u8], buffer: &mut [u8]) -> WrittenAnswer
    ensures answered { Answered on_rewriting (rewritten bytes.now) buffer.old result buffer.new }
    ensures gives { result.refusal ≡ 0 → Gives bytes.now buffer.old result buffer.new }
{
    fervolatro::fervolatro_rewrite(bytes, buffer)
}

pub fn lines(bytes: &[u8], buffer: &mut [u8]) -> WrittenAnswer
    ensures answered { Answered on_rewriting (unpacked bytes.now) buffer.old result buffer.new }
    ensures lines_are_the_line_calls { result.refusal ≡ 0 → LinesAreTheLineCalls bytes.now result buffer.new }
{
    fervolatro::fervolatro_lines(bytes, buffer)
}

pub fn payment(rows: &[u8], service: u64) -> CostAnswer
    ensures { CostAnswered result }
{
    fervolatro::fervolatro_payment(rows, service)
}

pub fn base_cost(rows: &[u8], id: u32, service: u64) -> CostAnswer
    ensures { CostAnswered result }
{
    fervolatro::fervolatro_base_cost(rows, id, service)
}

// What two calls answer.
#[derive(Clone, Copy)]
pub struct Both {
    pub first: WrittenAnswer,
    pub second: WrittenAnswer,
}

// The length asked for, and then the statement: how the two answers stand to each other, whatever is lent.
pub fn asked_first<'a>(book: &'a [u8], locked: &'a [u8], account: u32, buffer: &mut [u8]) -> Both
    ensures { AskedFirst buffer.old result.first result.second buffer.new }
{
    let first = fervolatro::fervolatro_length(book, locked, account);
    let second = fervolatro::fervolatro_statement(book, locked, account, buffer);
    Both { first, second }
}

// The lengths of one account's statements from two books, each with a locked one.
pub fn lengths<'a>(
    book: &'a [u8],
    locked: &'a [u8],
    other: &'a [u8],
    beside: &'a [u8],
    account: u32,
) -> Both
    ensures { Agree book.now locked.now other.now beside.now account → result.first ≡ result.second }
{
    let first = fervolatro::fervolatro_length(book, locked, account);
    let second = fervolatro::fervolatro_length(other, beside, account);
    Both { first, second }
}

// The statements of one account from two books, each with a locked one, also from two whose costs are made from the same dispatch rows.
pub fn neighbours<'a>(
    book: &'a [u8],
    locked: &'a [u8],
    other: &'a [u8],
    beside: &'a [u8],
    account: u32,
    buffer: &mut [u8],
    another: &mut [u8],
) -> Both
    ensures same { Agree book.now locked.now other.now beside.now account → buffer.old ≡ another.old → Same result.first result.second buffer.new another.new }
    ensures by_index { (rows : List ℕ) (way : ℕ → Way) → AgreeButForCosts book.now locked.now other.now beside.now account → CostsMade rows way book.now → CostsMade rows way other.now → buffer.old ≡ another.old → Same result.first result.second buffer.new another.new }
{
    let first = fervolatro::fervolatro_statement(book, locked, account, buffer);
    let second = fervolatro::fervolatro_statement(other, beside, account, another);
    Both { first, second }
}

// The statements of one account from one book, with two slices lent as its locked one.
pub fn unread<'a>(
    book: &'a [u8],
    locked: &'a [u8],
    beside: &'a [u8],
    account: u32,
    buffer: &mut [u8],
    another: &mut [u8],
) -> Both
    ensures { NoTestPayment book.now → buffer.old ≡ another.old → Same result.first result.second buffer.new another.new }
{
    let first = fervolatro::fervolatro_statement(book, locked, account, buffer);
    let second = fervolatro::fervolatro_statement(book, beside, account, another);
    Both { first, second }
}

pub fn nmas<'a>(
    book: &'a [u8],
    locked: &'a [u8],
    account: u32,
    payment_type: u64,
    buffer: &mut [u8],
) -> WrittenAnswer
    ensures answered { Answered on_a_file (file_outcome book.now locked.now account payment_type) buffer.old result buffer.new }
    ensures written_and_read { result.refusal ≡ 0 → WrittenAndRead book.now locked.now account payment_type result buffer.new }
{
    fervolatro::fervolatro_nmas(book, locked, account, payment_type, buffer)
}

pub fn nmas_rows(text: &[u8]) -> NmasSizeAnswer
    ensures nmas_size_answered { NmasSizeAnswered result }
    ensures read_and_written { result.refusal ≡ 0 → ReadAndWritten text.now result }
{
    fervolatro::fervolatro_nmas_rows(text)
}

pub fn nmas_row(text: &[u8], index: u64) -> NmasEntryAnswer
    ensures { NmasEntryAnswered result }
{
    fervolatro::fervolatro_nmas_row(text, index)
}

// The files of one account from two books, each with a locked one.
pub fn nmas_neighbours<'a>(
    book: &'a [u8],
    locked: &'a [u8],
    other: &'a [u8],
    beside: &'a [u8],
    account: u32,
    payment_type: u64,
    buffer: &mut [u8],
    another: &mut [u8],
) -> Both
    ensures { Agree book.now locked.now other.now beside.now account → buffer.old ≡ another.old → Same result.first result.second buffer.new another.new }
{
    let first = fervolatro::fervolatro_nmas(book, locked, account, payment_type, buffer);
    let second = fervolatro::fervolatro_nmas(other, beside, account, payment_type, another);
    Both { first, second }
}
