// The lines of a statement, checked once and handed out as numbers into a lent buffer.
#![tactic(auto)]

ghost use Rattle.std.specs.Prelude.{◌≡◌, ◌+◌, ◌*◌, ◌≤◌, length};
ghost use Rattle.ground.specs.Put.{put};
ghost use Rattle.parsing.specs.Parsing.{lines_in};
ghost use Rattle.statement.specs.Lent.{Lent};
ghost use Rattle.unpacking.specs.Unpacking.{fields_bytes, all_fields, unpacked};

use ground::write;
use sections::Refusal;
use statement::Line;

// A line's five numbers, at a place of the buffer.
fn put_fields(buf: &mut [u8], at: usize, line: Line)
    requires { at + 40 ≤ length buf.old }
    ensures { buf.new ≡ put buf.old at (fields_bytes line) }
{
    write::put_u64(buf, at, line.id as u64);
    write::put_u64(buf, at + 8, line.part as u64);
    write::put_u64(buf, at + 16, line.regions as u64);
    write::put_u64(buf, at + 24, line.unit as u64);
    write::put_i64(buf, at + 32, line.amount);
}

// The first n lines, each behind the one before.
fn put_lines(buffer: &mut [u8], s: &[u8], n: usize)
    requires { (24 + n * 24 ≤ length s.now) × (n * 40 ≤ length buffer.old) }
    ensures { buffer.new ≡ put buffer.old 0 (all_fields (lines_in s.now n)) }
{
    for i in 0..n {
        put_fields(buffer, i * 40, parsing::line_at(s, i));
    }
}

// The length that was written, or the refusal: 14, then 13.
pub fn unpack(s: &[u8], buffer: &mut [u8]) -> Result<usize, Refusal>
    ensures { Lent (unpacked s.now) buffer.old result buffer.new }
{
    sections::unless(parsing::is_statement(s), 14)?;
    let lines = parsing::heading_at(s).lines as usize;
    sections::unless(lines * 40 <= buffer.len(), 13)?;
    put_lines(buffer, s, lines);
    Ok(lines * 40)
}
