// Whole numbers by their sign and size, so that no layer above needs an operator on signed numbers.
// A layer works in sizes, and makes the signed number once, where it is written.
ghost use Rattle.std.specs.Prelude.{◌≡◌, ◌+◌, ◌<◌, ◌^◌, nat_abs, ◌+ℤ◌, ◌-ℤ◌};
ghost use Rattle.numbers.specs.Sign.{signed, negative, less};

pub fn is_negative(x: i64) -> bool
    ensures { result ≡ negative x }
{
    x < 0
}

// The size of any number: of the lowest, 2^63, which no i64 holds.
pub fn size(x: i64) -> u64
    ensures { result ≡ nat_abs x }
{
    x.unsigned_abs()
}

// The number of a sign and a size. A size of 0 gives 0 with either sign.
pub fn signed(negative: bool, size: u64) -> i64
    requires { size < 2 ^ 63 }
    ensures { result ≡ signed negative size }
{
    if negative {
        -(size as i64)
    } else {
        size as i64
    }
}

pub fn plus(a: i64, b: i64) -> i64
    requires { nat_abs a + nat_abs b < 2 ^ 63 }
    ensures { result ≡ a +ℤ b }
{
    a + b
}

pub fn minus(a: i64, b: i64) -> i64
    requires { nat_abs a + nat_abs b < 2 ^ 63 }
    ensures { result ≡ a -ℤ b }
{
    a - b
}

// What one size is less another.
pub fn difference(a: u64, b: u64) -> i64
    requires { (a < 2 ^ 63) × (b < 2 ^ 63) }
    ensures { result ≡ less a b }
{
    (a as i64) - (b as i64)
}
