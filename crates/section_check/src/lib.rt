// Checks 5 and 6 over one section: the first record that is refused, and the verdict it comes to.
#![tactic(auto)]

ghost use Rattle.std.specs.Prelude.{◌≡◌, ◌+◌, ◌*◌, ◌≤◌, ◌<◌, ℕ, Bool, Some, length};
ghost use Rattle.ground.specs.Bytes.{part_from};
ghost use Rattle.sections.specs.First.{first_bad};
ghost use Rattle.sections.specs.Order.{rises_by};
ghost use Rattle.sections.specs.Refusal.{at_record};

use rules::fields::Ruled;
use rules::order::{self, Ordered};
use sections::Refusal;

// 5: the fields of the n records of the section that starts at an offset of the book.
// Not inlined, here and below, so that the checks of many sections have the room of one on the stack.
#[inline(never)]
pub fn fields<R: Ruled>(book: &[u8], offset: usize, n: usize) -> Result<(), Refusal>
    requires { (offset ≤ 65_536) × ((n ≤ 65_536) × (offset + n * R.SIZE ≤ length book.now)) }
    ensures { result ≡ at_record 5 offset R.SIZE (first_bad (λ i. R.ok (R.read (part_from offset book.now) i)) n) }
{
    let s = &book[offset..];
    let found = sections::first_bad(n, |i| R::read(s, i).ok());
    sections::at_record(5, offset, R::SIZE, found)
}

// 6: the order of the n records of the section that starts at an offset of the book.
#[inline(never)]
pub fn order<R: Ordered>(book: &[u8], offset: usize, n: usize) -> Result<(), Refusal>
    requires { (offset ≤ 65_536) × ((n ≤ 65_536) × (offset + n * R.SIZE ≤ length book.now)) }
    ensures { result ≡ at_record 6 offset R.SIZE (first_bad (rises_by R.below (R.read (part_from offset book.now))) n) }
{
    let s = &book[offset..];
    let found = sections::first_bad(n, |i| order::rises::<R>(s, i));
    sections::at_record(6, offset, R::SIZE, found)
}
