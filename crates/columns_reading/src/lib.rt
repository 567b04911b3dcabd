// A field of the reconciliation file, read where it stands in a text.
#![tactic(auto)]

ghost use Rattle.std.specs.Prelude.{◌≡◌, false, ℕ, ◌≤◌, ◌<◌, length};
ghost use Rattle.decimal.specs.Standing.{is_digit};
ghost use Rattle.decimal_reading.specs.Reads.{Reads};
ghost use Rattle.columns.specs.Inner.Cells.{Among};
ghost use Rattle.columns_reading.specs.Inner.Taking.{LettersTo, NumberTo, WordTo, CellAt};

use columns::{Form, Words};
use decimal_reading::Taken;

// ---- words

// Whether the letters of a word stand here, and then the byte.
fn letters_to(text: &[u8], at: usize, word: &[u8], end: u8) -> bool
    requires word_some { 1 ≤ length word.now }
    requires end_nonzero { 0 < end }
    ensures { LettersTo word.now end text.now at result }
{
    if !words::starts(text, at, word) {
        return false;
    }
    decimal_reading::byte_at(text, at + word.len()) == end
}

// The word that stands here, of those up to the last, by its number.
fn take_word(text: &[u8], at: usize, words: Words, last: u64, end: u8) -> Option<Taken>
    requires by_index { (x : ℕ) → x ≤ last → Among (Some words) x }
    requires last_bound { (last ≤ 4) × (0 < end) }
    ensures { Reads (WordTo words last end text.now at) result }
{
    for x in 0..last + 1 {
        let word = columns::word_of(Some(words), x);
        if letters_to(text, at, word, end) {
            return Some(Taken {
                value: x,
                next: at + word.len() + 1,
            });
        }
    }
    None
}

// ---- numbers

// The number that stands here, by its size.
fn take_number(text: &[u8], at: usize, f: Form, end: u8) -> Option<Taken>
    requires decimals_bound { (f.decimals ≤ 6) × (f.most < 1_000_000_000_000) }
    requires end_nonzero { (0 < end) × (is_digit end ≡ false) }
    ensures { Reads (NumberTo f end text.now at) result }
{
    let n = decimal_reading::take_sided(text, at, f.charge, f.decimals, f.most, end)?;
    (f.least <= n.value).then_some(n)
}

// ---- a field, in any column

// The field of a column that stands here: its size or, of a word, its number.
pub fn take_cell(text: &[u8], at: usize, column: usize) -> Option<Taken>
    requires { column < 17 }
    ensures { Reads (CellAt text.now at column) result }
{
    let f = Form::of(column);
    let end = columns::end_of(column);
    match f.words {
        None => take_number(text, at, f, end),
        Some(words) => take_word(text, at, words, f.most, end),
    }
}
