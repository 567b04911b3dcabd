// Quotients to the nearest whole number, halves away from zero, and what that cuts off.
ghost use Rattle.numbers.specs.Round.{Rounds};
ghost use Rattle.numbers.specs.Inner.Round.{Roundable};

use crate::sign;

// A quotient as rounded, and what was cut off: exact less rounded, over the divisor.
#[derive(Clone, Copy)]
pub struct Rounded {
    pub whole: u64,
    pub cut: i64,
}

// The one rounding: of pools, shares, halves and dispatch rows. Half of the divisor is added first, where that fits: one division and no test, where
// quotient and remainder take a division or a product more. The remainder, less that half, is what was cut off; a caller that wants the whole number
// alone pays nothing for it, since the compiler leaves out what nobody reads.
pub fn nearest(n: u64, d: u64) -> Rounded
    requires { Roundable n d }
    ensures { Rounds n d result }
{
    let half = d / 2;
    let m = n + half;
    Rounded {
        whole: m / d,
        cut: sign::difference(m % d, half),
    }
}
