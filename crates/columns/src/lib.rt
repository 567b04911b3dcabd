// The columns of the reconciliation file: how a field is spelled in each, and its writing into a lent slice.
#![tactic(auto)]

ghost use Rattle.std.specs.Prelude.{◌≡◌, ℕ, ◌+◌, ◌^◌, ◌≤◌, ◌<◌, length};
ghost use Rattle.ground.specs.Inner.Put.{Wrote};
ghost use Rattle.columns.specs.Columns.{number_form, charge_form, word_form, form_of, end_of, spelled, cell_text, InRange};
ghost use Rattle.columns.specs.Inner.Cells.{Among, word_in};

use market::{PaymentType, Region};
use numbers::sign;

// Which words stand in a column.
#[derive(Clone, Copy)]
pub enum Words {
    Service,
    PaymentType,
    Region,
}

// How a column's fields are spelled, and which are in its range: words or, where there are none, numbers. A charge is at most 0, and held by its size.
#[derive(Clone, Copy)]
pub struct Form {
    pub words: Option<Words>,
    pub charge: bool,
    pub decimals: usize,
    pub least: u64,
    pub most: u64,
}

impl Form {
    fn number(decimals: usize, least: u64, most: u64) -> Form
        ensures { result ≡ number_form decimals least most }
    {
        Form {
            words: None,
            charge: false,
            decimals,
            least,
            most,
        }
    }

    fn charge(decimals: usize, most: u64) -> Form
        ensures { result ≡ charge_form decimals most }
    {
        Form {
            words: None,
            charge: true,
            decimals,
            least: 0,
            most,
        }
    }

    fn word(words: Words, most: u64) -> Form
        ensures { result ≡ word_form words most }
    {
        Form {
            words: Some(words),
            charge: false,
            decimals: 0,
            least: 0,
            most,
        }
    }

    // The columns in their order. What differs from column to column is asked here and nowhere else.
    pub fn of(column: usize) -> Form
        requires { column < 17 }
        ensures { result ≡ form_of column }
    {
        match column {
            0 => Form::number(0, 0, 99_999_999),
            1 => Form::number(0, 1, 99),
            2 => Form::number(0, 1, 288),
            3 => Form::number(0, 1, 4_294_967_295),
            4 => Form::word(Words::Service, 0),
            5 => Form::number(0, 1, 4_294_967_295),
            6 => Form::word(Words::PaymentType, 2),
            7 => Form::word(Words::Region, 4),
            8 => Form::number(6, 1, 1_000_000),
            9 => Form::number(4, 0, 50_000_000_000),
            10 => Form::charge(4, 100_000_000_000),
            11 => Form::charge(3, 20_000_000),
            12 => Form::charge(3, 20_000_000),
            13 => Form::number(3, 0, 20_000_000),
            14 => Form::number(3, 0, 20_000_000),
            15 => Form::charge(4, 50_000_000_000),
            _ => Form::charge(4, 50_000_000_000),
        }
    }
}

// The byte behind a column's field.
pub fn end_of(column: usize) -> u8
    ensures { result ≡ end_of column }
{
    if column == 16 { b'\n' } else { b',' }
}

// ---- words

// The word of a number.
pub fn word_of(words: Option<Words>, x: u64) -> &'static [u8]
    requires { Among words x }
    ensures { (result.now ≡ word_in words x) × (length result.now ≤ 12) }
{
    match words {
        None | Some(Words::Service) => market::restart(),
        Some(Words::PaymentType) => PaymentType::of(x as u8).name(),
        Some(Words::Region) => Region::of(x as u8).name(),
    }
}

// ---- a field, in any column

fn put_spelled(text: &mut [u8], at: usize, f: Form, x: u64) -> usize
    requires x_bound { (x < 2 ^ 63) × Among f.words x }
    requires x_in_bounds { at + length (spelled f x) ≤ length text.old }
    ensures { Wrote text.old at (spelled f x) text.new result }
{
    match f.words {
        None => decimal::put_signed(text, at, sign::signed(f.charge, x), f.decimals),
        Some(kind) => words::put_word(text, at, word_of(Some(kind), x)),
    }
}

// How many bytes that is: a number tells its length and a word has it. One function for both would need a trait of three methods for two calls.
fn spelled_length(f: Form, x: u64) -> usize
    requires x_bound { (x < 2 ^ 63) × Among f.words x }
    requires decimals_bound { f.decimals ≤ 20 }
    ensures { (result ≡ length (spelled f x)) × (result ≤ 42) }
{
    match f.words {
        None => decimal::signed_length(sign::signed(f.charge, x), f.decimals),
        Some(words) => word_of(Some(words), x).len(),
    }
}

// The field of a column, and the byte behind it; the answer is where it ends.
pub fn put_cell(text: &mut [u8], at: usize, column: usize, x: u64) -> usize
    requires column_bound { (column < 17) × InRange column x }
    requires x_in_bounds { at + length (cell_text column x) ≤ length text.old }
    ensures { Wrote text.old at (cell_text column x) text.new result }
{
    let e = put_spelled(text, at, Form::of(column), x);
    decimal::put_byte(text, e, end_of(column))
}

// How many bytes that is.
pub fn cell_length(column: usize, x: u64) -> usize
    requires { (column < 17) × InRange column x }
    ensures { (result ≡ length (cell_text column x)) × (result ≤ 43) }
{
    spelled_length(Form::of(column), x) + 1
}
