// A row of the reconciliation file: seventeen fields with commas between and a line feed behind, written into a lent slice.
#![tactic(auto)]

ghost use Rattle.std.specs.Prelude.{◌≡◌, ℕ, ◌≤◌, ◌<◌, List, get_or, length};
ghost use Rattle.ground.specs.Inner.Put.{Wrote};
ghost use Rattle.columns.specs.Columns.{cell_text, InRange};
ghost use Rattle.nmas.specs.Rows.{fields_text};
ghost use Rattle.nmas.specs.Inner.Cells.{held, fields_run, row_in};
ghost use Rattle.nmas.specs.Inner.Puts.{HasRoom, Countable, Measures, InTurn, written_in_turn, measured_in_turn};

// A row's numbers. Energies are in kWh, amounts in units of money, ACE and what is recovered by their sizes: the text has their minus.
#[derive(Clone, Copy)]
pub struct Row {
    pub date: u64,
    pub run: u64,
    pub interval: u64,
    pub account: u64,
    pub contract: u64,
    pub payment_type: u64,
    pub region: u64,
    pub factor: u64,
    pub payment: u64,
    pub recovery: u64,
    pub own_ace: u64,
    pub region_ace: u64,
    pub own_asoe: u64,
    pub region_asoe: u64,
    pub by_ace: u64,
    pub by_asoe: u64,
}

// What becomes of a row's fields: they are written into a text, or only measured. A row, and a file of rows, goes through its fields once for both.
pub trait Puts {
    ghost room: { List ℕ → ℕ → List ℕ → Type 0 };

    ghost puts: { List ℕ → ℕ → List ℕ → List ℕ → ℕ → Type 0 };

    // The field of a column, and the byte behind it; the answer is where it ends.
    fn put_cell(text: &mut [u8], at: usize, column: usize, x: u64) -> usize
        requires column_bound { (column < 17) × InRange column x }
        requires x_in_bounds { room text.old at (cell_text column x) }
        ensures { puts text.old at (cell_text column x) text.new result };

    ghost in_turn: { InTurn room puts };
}

// Each byte is written where it comes to stand.
pub struct Written;

impl Puts for Written {
    ghost room = { HasRoom };

    ghost puts = { Wrote };

    ghost in_turn = { written_in_turn };

    fn put_cell(text: &mut [u8], at: usize, column: usize, x: u64) -> usize {
        columns::put_cell(text, at, column, x)
    }
}

// No byte is written: of any text, an empty one too, only the place is told where the bytes would end.
pub struct Measured;

impl Puts for Measured {
    ghost room = { Countable };

    ghost puts = { Measures };

    ghost in_turn = { measured_in_turn };

    fn put_cell(_text: &mut [u8], at: usize, column: usize, x: u64) -> usize {
        at + columns::cell_length(column, x)
    }
}

// A row's fields are put by a call for each column and by no loop: the column is then a constant wherever its form is asked, and nothing of the form
// is left to ask when the program runs.

// Date, run, interval, account, service and contract; the answer is where they end.
fn put_front<P: Puts>(text: &mut [u8], at: usize, fields: &[u64; 17]) -> usize
    requires by_index { (column : ℕ) → column < 17 → InRange column (held fields.now column) }
    requires fields_in_bounds { P.room text.old at (fields_run (held fields.now) 0 6) }
    ensures { P.puts text.old at (fields_run (held fields.now) 0 6) text.new result }
{
    let v = P::put_cell(text, at, 0, fields[0]);
    let w = P::put_cell(text, v, 1, fields[1]);
    let x = P::put_cell(text, w, 2, fields[2]);
    let y = P::put_cell(text, x, 3, fields[3]);
    let z = P::put_cell(text, y, 4, fields[4]);
    P::put_cell(text, z, 5, fields[5])
}

// Payment type, region, factor, payment and what is recovered; the answer is where they end.
fn put_middle<P: Puts>(text: &mut [u8], at: usize, fields: &[u64; 17]) -> usize
    requires by_index { (column : ℕ) → column < 17 → InRange column (held fields.now column) }
    requires fields_in_bounds { P.room text.old at (fields_run (held fields.now) 6 5) }
    ensures { P.puts text.old at (fields_run (held fields.now) 6 5) text.new result }
{
    let v = P::put_cell(text, at, 6, fields[6]);
    let w = P::put_cell(text, v, 7, fields[7]);
    let x = P::put_cell(text, w, 8, fields[8]);
    let y = P::put_cell(text, x, 9, fields[9]);
    P::put_cell(text, y, 10, fields[10])
}

// The energies and the two shares; the answer is where they end.
fn put_rest<P: Puts>(text: &mut [u8], at: usize, fields: &[u64; 17]) -> usize
    requires by_index { (column : ℕ) → column < 17 → InRange column (held fields.now column) }
    requires fields_in_bounds { P.room text.old at (fields_run (held fields.now) 11 6) }
    ensures { P.puts text.old at (fields_run (held fields.now) 11 6) text.new result }
{
    let v = P::put_cell(text, at, 11, fields[11]);
    let w = P::put_cell(text, v, 12, fields[12]);
    let x = P::put_cell(text, w, 13, fields[13]);
    let y = P::put_cell(text, x, 14, fields[14]);
    let z = P::put_cell(text, y, 15, fields[15]);
    P::put_cell(text, z, 16, fields[16])
}

// The row of these fields; the answer is where it ends.
pub fn put_row<P: Puts>(text: &mut [u8], at: usize, fields: &[u64; 17]) -> usize
    requires by_index { (column : ℕ) → column < 17 → InRange column (held fields.now column) }
    requires fields_in_bounds { P.room text.old at (fields_text (held fields.now) 17) }
    ensures { P.puts text.old at (fields_text (held fields.now) 17) text.new result }
{
    let middle = put_front::<P>(text, at, fields);
    let rest = put_middle::<P>(text, middle, fields);
    put_rest::<P>(text, rest, fields)
}

// How many bytes the row of these fields has.
pub fn row_length(fields: &[u64; 17]) -> usize
    requires { (column : ℕ) → column < 17 → InRange column (held fields.now column) }
    ensures { (result ≡ length (fields_text (held fields.now) 17)) × (result ≤ 731) }
{
    put_row::<Measured>(&mut [], 0, fields)
}

// The row that the fields make.
pub fn row_of(fields: &[u64; 17]) -> Row
    ensures { result ≡ row_in fields.now }
{
    Row {
        date: fields[0],
        run: fields[1],
        interval: fields[2],
        account: fields[3],
        contract: fields[5],
        payment_type: fields[6],
        region: fields[7],
        factor: fields[8],
        payment: fields[9],
        recovery: fields[10],
        own_ace: fields[11],
        region_ace: fields[12],
        own_asoe: fields[13],
        region_asoe: fields[14],
        by_ace: fields[15],
        by_asoe: fields[16],
    }
}
