// A statement that was read, written again: header and lines in their order, into a lent buffer.
ghost use Rattle.std.specs.Prelude.{◌≡◌, ◌+◌, ◌*◌, ◌≤◌, length};
ghost use Rattle.ground.specs.Put.{put};
ghost use Rattle.statement.specs.Statement.{lines_bytes};
ghost use Rattle.parsing.specs.Parsing.{lines_in};
ghost use Rattle.statement.specs.Lent.{Lent};
ghost use Rattle.reading.specs.Rewriting.{rewritten};

use sections::Refusal;

// The first n lines, each behind the one before.
fn put_lines(buffer: &mut [u8], s: &[u8], n: usize)
    requires { (24 + n * 24 ≤ length s.now) × (24 + n * 24 ≤ length buffer.old) }
    ensures { buffer.new ≡ put buffer.old 24 (lines_bytes (lines_in s.now n)) }
{
    for i in 0..n {
        statement::put_line(buffer, 24 + i * 24, parsing::line_at(s, i));
    }
}

// The length that was written, or the refusal: 14, then 13.
pub fn rewrite(s: &[u8], buffer: &mut [u8]) -> Result<usize, Refusal>
    ensures { Lent (rewritten s.now) buffer.old result buffer.new }
{
    sections::unless(parsing::is_statement(s), 14)?;
    sections::unless(s.len() <= buffer.len(), 13)?;
    let heading = parsing::heading_at(s);
    let lines = heading.lines as usize;
    statement::put_heading(buffer, heading);
    put_lines(buffer, s, lines);
    Ok(s.len())
}
