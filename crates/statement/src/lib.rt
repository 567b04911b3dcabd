// The bytes of a statement, written into a lent buffer: its header and its lines.
// Each writer answers where its bytes end; every other byte of the buffer is as it was.
#![tactic(auto)]

ghost use Rattle.std.specs.Prelude.{◌≡◌, [], ◌∷◌, ◌++◌, ◌+◌, ◌≤◌, length};
ghost use Rattle.ground.specs.Le.{le16, le32};
ghost use Rattle.ground.specs.Put.{put};
ghost use Rattle.ground.specs.Inner.Put.{Wrote};
ghost use Rattle.statement.specs.Statement.{rcs, heading_bytes, line_bytes};

use ground::write;

// What a statement's header says.
#[derive(Clone, Copy)]
pub struct Heading {
    pub account: u32,
    pub date: u32,
    pub interval: u16,
    pub run: u16,
    pub lines: u16,
}

// One line of a statement. The amount is in ten-thousandths of a dollar.
#[derive(Clone, Copy)]
pub struct Line {
    pub id: u32,
    pub part: u8,
    pub regions: u8,
    pub unit: u32,
    pub amount: i64,
}

// The three letters of the mark.
fn put_mark(buf: &mut [u8])
    requires { 3 ≤ length buf.old }
    ensures { buf.new ≡ put buf.old 0 rcs }
{
    buf[..3].copy_from_slice(b"RCS");
}

// The mark, the reserved byte and the version.
fn put_opening(buf: &mut [u8])
    requires { 6 ≤ length buf.old }
    ensures { buf.new ≡ put buf.old 0 (rcs ++ (0 ∷ []) ++ le16 1) }
{
    put_mark(buf);
    write::put_u8(buf, 3, 0);
    write::put_u16(buf, 4, 1);
}

// Interval, date and run, from byte 6.
fn put_period(buf: &mut [u8], interval: u16, date: u32, run: u16)
    requires { 14 ≤ length buf.old }
    ensures { buf.new ≡ put buf.old 6 (le16 interval ++ le32 date ++ le16 run) }
{
    write::put_u16(buf, 6, interval);
    write::put_u32(buf, 8, date);
    write::put_u16(buf, 12, run);
}

// The header, at the buffer's front.
pub fn put_heading(buf: &mut [u8], h: Heading) -> usize
    requires { 24 ≤ length buf.old }
    ensures { Wrote buf.old 0 (heading_bytes h) buf.new result }
{
    put_opening(buf);
    put_period(buf, h.interval, h.date, h.run);
    write::put_u16(buf, 14, h.lines);
    write::put_u32(buf, 16, h.account);
    write::put_u32(buf, 20, 0);
    24
}

// The first 8 bytes of a line: what the amount is for. Written as one number, so that they are one store.
fn put_names(buf: &mut [u8], at: usize, id: u32, part: u8, regions: u8)
    requires { at + 8 ≤ length buf.old }
    ensures { buf.new ≡ put buf.old at (le32 id ++ (part ∷ []) ++ (regions ∷ []) ++ le16 0) }
{
    write::put_u64(
        buf,
        at,
        (id as u64) + 4_294_967_296 * (part as u64) + 1_099_511_627_776 * (regions as u64),
    );
}

// The next 8 bytes: the unit, and the reserved bytes. Likewise one number.
fn put_unit(buf: &mut [u8], at: usize, unit: u32)
    requires { at + 8 ≤ length buf.old }
    ensures { buf.new ≡ put buf.old at (le32 unit ++ le32 0) }
{
    write::put_u64(buf, at, unit as u64);
}

// A line, at a place of the buffer.
pub fn put_line(buf: &mut [u8], at: usize, line: Line) -> usize
    requires { at + 24 ≤ length buf.old }
    ensures { Wrote buf.old at (line_bytes line) buf.new result }
{
    put_names(buf, at, line.id, line.part, line.regions);
    put_unit(buf, at + 8, line.unit);
    write::put_i64(buf, at + 16, line.amount);
    at + 24
}
