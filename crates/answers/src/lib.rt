// What a caller in C or Rust is answered (include/fervolatro.h): plain structs of numbers, and how each case of an answer fills them.
#![tactic(auto)]

ghost use Rattle.std.specs.Prelude.{◌≡◌};
ghost use Rattle.answers.specs.Answers.{verdict_answer, written_answer, heading_answer, entry_answer, pool_answer, stage_number, cut_answer, cost_answer, nmas_size_answer, nmas_row_answer, nmas_entry_answer, no_row_answer};
ghost use Rattle.nmas_reading.specs.Inner.Sized.{Sized, RowSized};

use balance::Balance;
use cutoffs::{Cut, Stage};
use nmas::Row;
use numbers::sign;
use sections::Refusal;
use statement::{Heading, Line};

// `fervolatro_verdict`: refusal 0 is acceptance, and its place is 0.
#[repr(C)]
#[derive(Clone, Copy)]
pub struct VerdictAnswer {
    pub refusal: u64,
    pub place: u64,
}

pub fn answer(v: Result<(), Refusal>) -> VerdictAnswer
    ensures { result ≡ verdict_answer v }
{
    match v {
        Ok(()) => VerdictAnswer {
            refusal: 0, // no check refuses it
            place: 0, // so no place either
        },
        Err(e) => VerdictAnswer {
            refusal: e.number as u64,
            place: e.place as u64,
        },
    }
}

// `fervolatro_written`: refusal 0 is success, and then length is how many bytes were written, or how many there will be.
#[repr(C)]
#[derive(Clone, Copy)]
pub struct WrittenAnswer {
    pub refusal: u64,
    pub place: u64,
    pub length: u64,
}

pub fn written(w: Result<usize, Refusal>) -> WrittenAnswer
    ensures { result ≡ written_answer w }
{
    match w {
        Ok(length) => WrittenAnswer {
            refusal: 0,
            place: 0,
            length: length as u64,
        },
        Err(e) => WrittenAnswer {
            refusal: e.number as u64,
            place: e.place as u64,
            length: 0,
        },
    }
}

// `fervolatro_heading`: refusal 0 is success, and then the other fields are the header's.
#[repr(C)]
#[derive(Clone, Copy, Default)]
pub struct HeadingAnswer {
    pub refusal: u64,
    pub place: u64,
    pub account: u64,
    pub date: u64,
    pub interval: u64,
    pub run: u64,
    pub lines: u64,
}

pub fn heading(h: Result<Heading, Refusal>) -> HeadingAnswer
    ensures { result ≡ heading_answer h }
{
    match h {
        Ok(x) => HeadingAnswer {
            refusal: 0,
            place: 0,
            account: x.account as u64,
            date: x.date as u64,
            interval: x.interval as u64,
            run: x.run as u64,
            lines: x.lines as u64,
        },
        Err(e) => HeadingAnswer {
            refusal: e.number as u64,
            place: e.place as u64,
            ..HeadingAnswer::default()
        },
    }
}

// `fervolatro_entry`: refusal 0 is success, and then the other fields are the line's.
#[repr(C)]
#[derive(Clone, Copy, Default)]
pub struct EntryAnswer {
    pub refusal: u64,
    pub place: u64,
    pub id: u64,
    pub part: u64,
    pub regions: u64,
    pub unit: u64,
    pub amount: i64,
}

pub fn entry(l: Result<Line, Refusal>) -> EntryAnswer
    ensures { result ≡ entry_answer l }
{
    match l {
        Ok(x) => EntryAnswer {
            refusal: 0,
            place: 0,
            id: x.id as u64,
            part: x.part as u64,
            regions: x.regions as u64,
            unit: x.unit as u64,
            amount: x.amount,
        },
        Err(e) => EntryAnswer {
            refusal: e.number as u64,
            place: e.place as u64,
            ..EntryAnswer::default()
        },
    }
}

// `fervolatro_pool`: refusal 0 is success, and then the other fields are the pool's balance.
#[repr(C)]
#[derive(Clone, Copy, Default)]
pub struct PoolAnswer {
    pub refusal: u64,
    pub place: u64,
    pub amount: i64,
    pub lines: u64,
    pub sum: i64,
}

pub fn pool(b: Result<Balance, Refusal>) -> PoolAnswer
    ensures { result ≡ pool_answer b }
{
    match b {
        Ok(x) => PoolAnswer {
            refusal: 0,
            place: 0,
            amount: x.amount,
            lines: x.lines as u64,
            sum: x.sum,
        },
        Err(e) => PoolAnswer {
            refusal: e.number as u64,
            place: e.place as u64,
            ..PoolAnswer::default()
        },
    }
}

// `fervolatro_cut`: refusal 0 is success, and then the other fields are the stage's: its number, its region, and what its roundings cut off over
// the divisor.
#[repr(C)]
#[derive(Clone, Copy, Default)]
pub struct CutAnswer {
    pub refusal: u64,
    pub place: u64,
    pub stage: u64,
    pub region: u64,
    pub divisor: u64,
    pub cut: i64,
}

fn stage_number(stage: Stage) -> u64
    ensures { result ≡ stage_number stage }
{
    match stage {
        Stage::Line => 1,
        Stage::Pool => 2,
        Stage::Unit => 3,
        Stage::Residual => 4,
        Stage::Share => 5,
        Stage::Whole => 6,
        Stage::Half => 7,
        Stage::Ace => 8,
        Stage::Asoe => 9,
    }
}

pub fn cut(found: Result<Cut, Refusal>) -> CutAnswer
    ensures { result ≡ cut_answer found }
{
    match found {
        Ok(x) => {
            let stage = x.stage;
            CutAnswer {
                refusal: 0,
                place: 0,
                stage: stage_number(stage),
                region: x.region as u64,
                divisor: x.divisor,
                cut: x.cut,
            }
        }
        Err(e) => CutAnswer {
            refusal: e.number as u64,
            place: e.place as u64,
            ..CutAnswer::default() // no stage has number 0
        },
    }
}

// `fervolatro_cost`: refusal 0 is success, and then amount is the payment or the base cost.
#[repr(C)]
#[derive(Clone, Copy)]
pub struct CostAnswer {
    pub refusal: u64,
    pub place: u64,
    pub amount: u64,
}

pub fn cost(made: Result<u64, Refusal>) -> CostAnswer
    ensures { result ≡ cost_answer made }
{
    match made {
        Ok(amount) => CostAnswer {
            refusal: 0,
            place: 0,
            amount,
        },
        Err(e) => CostAnswer {
            refusal: e.number as u64,
            place: e.place as u64,
            amount: 0, // nothing came of the rows
        },
    }
}

// `fervolatro_nmas_size`: refusal 0 is success, and then rows is how many rows the text has.
#[repr(C)]
#[derive(Clone, Copy)]
pub struct NmasSizeAnswer {
    pub refusal: u64,
    pub place: u64,
    pub rows: u64,
}

pub fn nmas_size(read: Result<usize, Refusal>) -> NmasSizeAnswer
    ensures { result ≡ nmas_size_answer read }
{
    match read {
        Ok(rows) => NmasSizeAnswer {
            refusal: 0,
            place: 0,
            rows: rows as u64,
        },
        Err(e) => NmasSizeAnswer {
            refusal: e.number as u64,
            place: e.place as u64,
            rows: 0, // those before the refused line are not told
        },
    }
}

// `fervolatro_nmas_entry`: refusal 0 is success, and then the other fields are the row's, with their signs.
#[repr(C)]
#[derive(Clone, Copy, Default)]
pub struct NmasEntryAnswer {
    pub refusal: u64,
    pub place: u64,
    pub date: u64,
    pub run: u64,
    pub interval: u64,
    pub account: u64,
    pub contract: u64,
    pub payment_type: u64,
    pub region: u64,
    pub factor: u64,
    pub payment: u64,
    pub recovery: i64,
    pub own_ace: i64,
    pub region_ace: i64,
    pub own_asoe: i64,
    pub region_asoe: i64,
    pub by_ace: i64,
    pub by_asoe: i64,
}

// Energies consumed, and what is recovered, are at most 0.
fn nmas_row(r: Row) -> NmasEntryAnswer
    requires { Sized r }
    ensures { result ≡ nmas_row_answer r }
{
    NmasEntryAnswer {
        refusal: 0,
        place: 0,
        date: r.date,
        run: r.run,
        interval: r.interval,
        account: r.account,
        contract: r.contract,
        payment_type: r.payment_type,
        region: r.region,
        factor: r.factor,
        payment: r.payment,
        recovery: sign::signed(true, r.recovery),
        own_ace: sign::signed(true, r.own_ace),
        region_ace: sign::signed(true, r.region_ace),
        own_asoe: sign::signed(false, r.own_asoe),
        region_asoe: sign::signed(false, r.region_asoe),
        by_ace: sign::signed(true, r.by_ace),
        by_asoe: sign::signed(true, r.by_asoe),
    }
}

fn no_row(number: u8, place: usize) -> NmasEntryAnswer
    ensures { result ≡ no_row_answer number place }
{
    NmasEntryAnswer {
        refusal: number as u64,
        place: place as u64,
        ..NmasEntryAnswer::default()
    }
}

pub fn nmas_entry(read: Result<Row, Refusal>) -> NmasEntryAnswer
    requires { RowSized read }
    ensures { result ≡ nmas_entry_answer read }
{
    match read {
        Ok(r) => nmas_row(r),
        Err(e) => no_row(e.number, e.place),
    }
}
