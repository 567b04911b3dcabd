// Bytes taken apart: whether they are a statement, its header, and each of its lines.
#![tactic(auto)]

ghost use Rattle.std.specs.Prelude.{◌≡◌, ◌+◌, ◌*◌, ◌≤◌, length};
ghost use Rattle.sections.specs.Search.{all};
ghost use Rattle.parsing.specs.Parsing.{statement_marked, heading_at, heading_ok, line_from, line_at, spare_clear, one_bit, regions_ok, unit_field_ok, amount_ok, line_ok, line_holds, headed, is_statement};

use ground::read;
use numbers::sign;
use statement::{Heading, Line};

// The mark, the version and the reserved bytes.
fn is_marked(s: &[u8]) -> bool
    requires { 24 ≤ length s.now }
    ensures { result ≡ statement_marked s.now }
{
    s.starts_with(b"RCS\0") & (read::u16_at(s, 4) == 1) & (read::u32_at(s, 20) == 0)
}

pub fn heading_at(s: &[u8]) -> Heading
    requires { 24 ≤ length s.now }
    ensures { result ≡ heading_at s.now }
{
    Heading {
        account: read::u32_at(s, 16),
        date: read::u32_at(s, 8),
        interval: read::u16_at(s, 6),
        run: read::u16_at(s, 12),
        lines: read::u16_at(s, 14),
    }
}

fn heading_ok(h: Heading) -> bool
    ensures { result ≡ heading_ok h }
{
    calendar::is_period(h.interval, h.date, h.run) & (h.lines <= 2152) & (1 <= h.account)
}

pub fn line_at(s: &[u8], i: usize) -> Line
    requires { 24 + (i + 1) * 24 ≤ length s.now }
    ensures { result ≡ line_at s.now i }
{
    let at = 24 + i * 24;
    Line {
        id: read::u32_at(s, at),
        part: s[at + 4],
        regions: s[at + 5],
        unit: read::u32_at(s, at + 8),
        amount: read::i64_at(s, at + 16),
    }
}

// A line's reserved bytes are 0.
fn spare_clear(s: &[u8], i: usize) -> bool
    requires { 24 + (i + 1) * 24 ≤ length s.now }
    ensures { result ≡ spare_clear s.now i }
{
    let at = 24 + i * 24;
    (read::u16_at(s, at + 6) == 0) & (read::u32_at(s, at + 12) == 0)
}

fn one_bit(m: u8) -> bool
    ensures { result ≡ one_bit m }
{
    (m == 1) | (m == 2) | (m == 4) | (m == 8) | (m == 16)
}

fn regions_ok(part: u8, m: u8) -> bool
    ensures { result ≡ regions_ok part m }
{
    (1 <= m) & (m <= 31) & ((part <= 8) | one_bit(m))
}

fn unit_ok(part: u8, unit: u32) -> bool
    ensures { result ≡ unit_field_ok part unit }
{
    if (3 <= part) & (part <= 5) {
        1 <= unit
    } else {
        unit == 0
    }
}

fn amount_ok(part: u8, amount: i64) -> bool
    ensures { result ≡ amount_ok part amount }
{
    let size = sign::size(amount);
    (size <= 50_000_000_000) & ((part == 3) | (part == 6) | (size == 0) | sign::is_negative(amount))
}

fn line_ok(l: Line) -> bool
    ensures { result ≡ line_ok l }
{
    (1 <= l.id)
        & (1 <= l.part)
        & (l.part <= 10)
        & regions_ok(l.part, l.regions)
        & unit_ok(l.part, l.unit)
        & amount_ok(l.part, l.amount)
}

fn line_holds(s: &[u8], i: usize) -> bool
    requires { 24 + (i + 1) * 24 ≤ length s.now }
    ensures { result ≡ line_holds s.now i }
{
    spare_clear(s, i) & line_ok(line_at(s, i))
}

// Every line is looked at, though one that fails decides: a loop that never ends early is faster.
fn lines_hold(s: &[u8], n: usize) -> bool
    requires { 24 + n * 24 ≤ length s.now }
    ensures { result ≡ all (line_holds s.now) n }
{
    let mut holds = true;
    for i in 0..n {
        holds &= line_holds(s, i);
    }
    holds
}

fn is_headed(s: &[u8]) -> bool
    requires { 24 ≤ length s.now }
    ensures { result ≡ headed s.now }
{
    let h = heading_at(s);
    is_marked(s) & heading_ok(h) & (s.len() == 24 + (h.lines as usize) * 24)
}

// Whether the bytes are a statement.
pub fn is_statement(s: &[u8]) -> bool
    ensures { result ≡ is_statement s.now }
{
    if s.len() < 24 {
        return false;
    }
    if !is_headed(s) {
        return false;
    }
    lines_hold(s, heading_at(s).lines as usize)
}
