// The listing's text, made into a lent slice: from the program's input to the last line feed.
// Each writer answers where its bytes end; every other byte is as it was.
#![tactic(auto)]

ghost use Rattle.std.specs.Prelude.{◌≡◌, true, [], ◌≤◌, length, Ok};
ghost use Rattle.parsing.specs.Parsing.{heading_at, lines_in, is_statement};
ghost use Rattle.statement.specs.Lent.{length_for};
ghost use Rattle.settlement.specs.Settle.{outcome};
ghost use Rattle.printing.specs.Inner.Said.{Said};
ghost use Rattle.printing.specs.Printing.{statement_text};
ghost use Rattle.text.specs.Listing.{outcome_text, listing_of};

use ground::read;

// A statement: its header, and all its lines.
pub fn put_statement(text: &mut [u8], s: &[u8]) -> usize
    requires s_value { is_statement s.now ≡ true }
    requires in_bounds { 114_128 ≤ length text.old }
    ensures { Said text.old (statement_text (heading_at s.now) (lines_in s.now (heading_at s.now).lines)) text.new result }
{
    let h = parsing::heading_at(s);
    let lines = h.lines as usize;
    let e = printing::put_heading(text, h);
    printing::put_lines(text, e, s, lines)
}

// Room for the longest statement: 24 bytes, and 24 for each of 2,152 lines.
fn room() -> [u8; 51_672]
    ensures { 51_672 ≡ length result }
{
    [0; 51_672]
}

// An account's statement from a book, of n bytes: just so many are lent, and so they are written. No locked book is lent.
fn put_settled(text: &mut [u8], account: u32, book: &[u8], n: usize) -> usize
    requires in_bounds { 114_128 ≤ length text.old }
    requires n_value { Ok n ≡ length_for (outcome book.now [] account) }
    ensures { Said text.old (outcome_text (outcome book.now [] account)) text.new result }
{
    let mut buffer = room();
    let _written = settlement::statement(book, b"", account, &mut buffer[..n]);
    put_statement(text, &buffer[..n])
}

// What is said of an account's statement from a book, where no locked book is lent. Its length is asked first: what refuses the statement refuses
// that.
fn put_outcome(text: &mut [u8], account: u32, book: &[u8]) -> usize
    requires { 114_128 ≤ length text.old }
    ensures { Said text.old (outcome_text (outcome book.now [] account)) text.new result }
{
    match settlement::length(book, b"", account) {
        Ok(n) => put_settled(text, account, book, n),
        Err(e) => printing::put_refusal(text, e.number, e.place),
    }
}

// The whole text, from the bytes of standard input: four of account, and then a book.
pub fn put_listing(text: &mut [u8], input: &[u8]) -> usize
    requires { 114_128 ≤ length text.old }
    ensures { Said text.old (listing_of input.now) text.new result }
{
    if input.len() < 4 {
        return put_outcome(text, 0, b"");
    }
    put_outcome(text, read::u32_at(input, 0), &input[4..])
}
