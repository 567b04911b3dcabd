// Statements read back: the header, one line by its number, and the whole written again.
#![tactic(auto)]

ghost use Rattle.std.specs.Prelude.{◌≡◌};
ghost use Rattle.reading.specs.Calls.{heading_read, line_read};

use sections::Refusal;
use statement::{Heading, Line};

pub mod rewriting; // rewriting.rt: a statement that was read, written again

// The header, where the bytes are a statement.
pub fn header(s: &[u8]) -> Result<Heading, Refusal>
    ensures { result ≡ heading_read s.now }
{
    sections::unless(parsing::is_statement(s), 14)?;
    Ok(parsing::heading_at(s))
}

// The line of a number from 0: 14 is looked for first, then 15.
pub fn line(s: &[u8], index: u64) -> Result<Line, Refusal>
    ensures { result ≡ line_read s.now index }
{
    sections::unless(parsing::is_statement(s), 14)?;
    sections::unless(index < (parsing::heading_at(s).lines as u64), 15)?;
    Ok(parsing::line_at(s, index as usize))
}
