// Reads four bytes of account and then a book from standard input, and writes the account's statement line by line, or `refused N at PLACE`.
// Every byte of the text is in the contract of `text::put_listing`; this program only reads and writes.
#![tactic(auto)]

ghost use Rattle.std.specs.Prelude.{◌≡◌, length};

use std::io::{self, Read, Write};

// Room for the longest text: a header of 72 bytes, and 2,152 lines of 53.
fn page() -> [u8; 114_128]
    ensures { 114_128 ≡ length result }
{
    [0; 114_128]
}

// The input's buffer is longer than an account and any book (39,796 bytes). Of longer input the part that fits is refused by 2, 3 or 4, as
// all of it would be.
fn main(rt: HostRuntime) -> io::Result<()> {
    let mut input = [0; 65_536];
    let mut stdin = rt.stdin();
    let mut n = 0;
    // A read may give less than there is room for, and std has none that goes on until a slice is full or nothing more comes.
    while n < 65_536 {
        let more = stdin.read(&mut input[n..])?;
        if more == 0 {
            break;
        }
        n += more;
    }
    let mut page = page();
    let end = text::put_listing(&mut page, &input[..n]);
    rt.stdout().write_all(&page[..end])
}
