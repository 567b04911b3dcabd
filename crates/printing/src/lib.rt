// The pieces of the listing's text, each written into a lent slice: a refusal, a statement's header, its lines.
// Each writer answers where its bytes end; every other byte is as it was.
#![tactic(auto)]

ghost use Rattle.std.specs.Prelude.{◌≡◌, ◌+◌, ◌*◌, ◌≤◌, length};
ghost use Rattle.ground.specs.Inner.Put.{Wrote};
ghost use Rattle.parsing.specs.Parsing.{lines_in};
ghost use Rattle.printing.specs.Inner.Said.{Said};
ghost use Rattle.printing.specs.Printing.{refusal_text, heading_text, line_text, lines_text};

use statement::{Heading, Line};

// `refused N at PLACE`. The longest has 36 bytes.
pub fn put_refusal(text: &mut [u8], number: u8, place: usize) -> usize
    requires { 36 ≤ length text.old }
    ensures { Said text.old (refusal_text number place) text.new result }
{
    let n = words::put_named(text, 0, b"refused ", number as u64);
    let p = words::put_named(text, n, b" at ", place as u64);
    decimal::put_byte(text, p, b'\n')
}

// The header, at the text's front.
pub fn put_heading(text: &mut [u8], h: Heading) -> usize
    requires { length (heading_text h) ≤ length text.old }
    ensures { Wrote text.old 0 (heading_text h) text.new result }
{
    let account = words::put_named(text, 0, b"account ", h.account as u64);
    let date = words::put_named(text, account, b" date ", h.date as u64);
    let interval = words::put_named(text, date, b" interval ", h.interval as u64);
    let run = words::put_named(text, interval, b" run ", h.run as u64);
    let lines = words::put_named(text, run, b" lines ", h.lines as u64);
    decimal::put_byte(text, lines, b'\n')
}

// A line, at a place of the text.
pub fn put_line(text: &mut [u8], at: usize, l: Line) -> usize
    requires { at + length (line_text l) ≤ length text.old }
    ensures { Wrote text.old at (line_text l) text.new result }
{
    let id = decimal::put_whole(text, at, l.id as u64);
    let part = words::put_named(text, id, b" ", l.part as u64);
    let regions = words::put_named(text, part, b" ", l.regions as u64);
    let unit = words::put_named(text, regions, b" ", l.unit as u64);
    let blank = decimal::put_byte(text, unit, b' ');
    let dollars = decimal::put_signed(text, blank, l.amount, 4);
    decimal::put_byte(text, dollars, b'\n')
}

// The first n lines of a statement, each behind the one before. None is longer than 53 bytes.
pub fn put_lines(text: &mut [u8], at: usize, s: &[u8], n: usize) -> usize
    requires { (24 + n * 24 ≤ length s.now) × (at + n * 53 ≤ length text.old) }
    ensures { Wrote text.old at (lines_text (lines_in s.now n)) text.new result }
{
    let mut e = at;
    for i in 0..n {
        e = put_line(text, e, parsing::line_at(s, i));
    }
    e
}
