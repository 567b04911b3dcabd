// The reconciliation file, read: how many rows a text has, and each by its number, or the first line that is none.
#![tactic(auto)]

ghost use Rattle.std.specs.Prelude.{◌≡◌, cond, Some, ℕ, ◌+◌, ◌<◌, length};
ghost use Rattle.columns.specs.Columns.{InRange};
ghost use Rattle.nmas.specs.Inner.Cells.{held};
ghost use Rattle.nmas_reading.specs.Reading.{RowsOf, RowOf};
ghost use Rattle.nmas_reading.specs.Inner.Taking.{Goes, FieldsFound, row_keeps, RowFound, Walked};

use nmas::Row;
use sections::Refusal;

// The field of a column behind those before it; the answer is where it ends. A row's fields are read by a call for each column and by no loop: the
// column is then a constant wherever its form is asked, and nothing of the form is left to ask when the program runs.
fn take_next(text: &[u8], at: usize, column: usize, fields: &mut [u64; 17]) -> Option<usize>
    requires { column < 17 }
    ensures { Goes text.now column (column + 1) fields.old fields.new at result }
{
    let cell = columns_reading::take_cell(text, at, column)?;
    fields[column] = cell.value;
    Some(cell.next)
}

// Date, run and interval.
fn take_times(text: &[u8], at: usize, fields: &mut [u64; 17]) -> Option<usize>
    ensures { Goes text.now 0 3 fields.old fields.new at result }
{
    let a = take_next(text, at, 0, fields)?;
    let b = take_next(text, a, 1, fields)?;
    take_next(text, b, 2, fields)
}

// Account, service, contract, payment type and region.
fn take_names(text: &[u8], at: usize, fields: &mut [u64; 17]) -> Option<usize>
    ensures { Goes text.now 3 8 fields.old fields.new at result }
{
    let a = take_next(text, at, 3, fields)?;
    let b = take_next(text, a, 4, fields)?;
    let c = take_next(text, b, 5, fields)?;
    let d = take_next(text, c, 6, fields)?;
    take_next(text, d, 7, fields)
}

// Factor, payment and what is recovered.
fn take_amounts(text: &[u8], at: usize, fields: &mut [u64; 17]) -> Option<usize>
    ensures { Goes text.now 8 11 fields.old fields.new at result }
{
    let a = take_next(text, at, 8, fields)?;
    let b = take_next(text, a, 9, fields)?;
    take_next(text, b, 10, fields)
}

// The energies.
fn take_energies(text: &[u8], at: usize, fields: &mut [u64; 17]) -> Option<usize>
    ensures { Goes text.now 11 15 fields.old fields.new at result }
{
    let a = take_next(text, at, 11, fields)?;
    let b = take_next(text, a, 12, fields)?;
    let c = take_next(text, b, 13, fields)?;
    take_next(text, c, 14, fields)
}

// The two shares.
fn take_shares(text: &[u8], at: usize, fields: &mut [u64; 17]) -> Option<usize>
    ensures { Goes text.now 15 17 fields.old fields.new at result }
{
    let a = take_next(text, at, 15, fields)?;
    take_next(text, a, 16, fields)
}

// Seventeen fields, one behind the other.
fn take_fields(text: &[u8], at: usize, fields: &mut [u64; 17]) -> Option<usize>
    requires { length fields.old ≡ 17 }
    ensures fields_len { length fields.new ≡ 17 }
    ensures fields_found { FieldsFound text.now at fields.new result }
{
    let times = take_times(text, at, fields)?;
    let names = take_names(text, times, fields)?;
    let amounts = take_amounts(text, names, fields)?;
    let energies = take_energies(text, amounts, fields)?;
    take_shares(text, energies, fields)
}

// What is asked of a row besides its fields' ranges.
fn keeps(fields: &[u64; 17]) -> bool
    requires { (column : ℕ) → column < 17 → InRange column (held fields.now column) }
    ensures { result ≡ row_keeps (held fields.now 0) (held fields.now 10) (held fields.now 15) (held fields.now 16) }
{
    calendar::is_date(fields[0] as u32) & (fields[10] == fields[15] + fields[16])
}

// The row that stands here; the answer is where it ends.
fn take_row(text: &[u8], at: usize, fields: &mut [u64; 17]) -> Option<usize>
    requires { length fields.old ≡ 17 }
    ensures fields_len { length fields.new ≡ 17 }
    ensures row_found { RowFound text.now at fields.new result }
{
    let end = take_fields(text, at, fields)?;
    keeps(fields).then_some(end)
}

// Where a row that was asked for begins is kept.
fn kept(asked: Option<usize>, wanted: bool, at: usize) -> Option<usize>
    ensures { result ≡ cond wanted (Some at) asked }
{
    if wanted {
        return Some(at);
    }
    asked
}

// A text that is rows to its end: how many, and where the one of a number begins, if there are so many.
#[derive(Clone, Copy)]
pub struct Walk {
    pub rows: usize,
    pub asked: Option<usize>,
}

// The walk over a text, row by row, each into the fields that are lent; 19 at the first line that is none.
fn read_through(text: &[u8], index: u64, fields: &mut [u64; 17]) -> Result<Walk, Refusal>
    requires { length fields.old ≡ 17 }
    ensures fields_len { length fields.new ≡ 17 }
    ensures walked { Walked text.now index result }
{
    let mut asked = None;
    let mut at = 0;
    let mut rows = 0;
    // From row to row: where the next one begins is known when this one has been read.
    while at < text.len() {
        let Some(end) = take_row(text, at, fields) else {
            return Err(Refusal {
                number: 19,
                place: rows,
            });
        };
        asked = kept(asked, rows as u64 == index, at);
        at = end;
        rows += 1;
    }
    Ok(Walk { rows, asked })
}

// How many rows a text has; 19 at the first line that is none.
pub fn rows(text: &[u8]) -> Result<usize, Refusal>
    ensures { RowsOf text.now result }
{
    let mut fields = [0u64; 17];
    let w = read_through(text, 0, &mut fields)?;
    Ok(w.rows)
}

// The row of a number from 0; 19, then 15. The walk keeps where it begins and not its sixteen numbers, which would lie on the stack as often as they
// are handed on: the row is there, and is read once more.
pub fn row(text: &[u8], index: u64) -> Result<Row, Refusal>
    ensures { RowOf text.now index result }
{
    let mut fields = [0u64; 17];
    let w = read_through(text, index, &mut fields)?;
    let Some(at) = w.asked else {
        return Err(Refusal {
            number: 15,
            place: 0,
        });
    };
    take_row(text, at, &mut fields);
    Ok(nmas::row_of(&fields))
}
