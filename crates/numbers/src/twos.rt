// Two's complement: the number of given bits, the bits of a number, and the sizes of an i32 by its bits.
ghost use Rattle.std.specs.Prelude.{◌≡◌, cond, ltb};
ghost use Rattle.std.specs.Int.{w64};
ghost use Rattle.std.proofs.Common.{to_z, of_z};
ghost use Rattle.numbers.specs.Sizes.{size_below, above_of, below_of};

pub fn from_bits64(u: u64) -> i64
    ensures { result ≡ to_z w64 u }
{
    u.cast_signed()
}

pub fn bits64(x: i64) -> u64
    ensures { result ≡ of_z w64 x }
{
    x.cast_unsigned()
}

// The size of an i32 that is 0 or below. Of one above 0 the answer is larger than any size that a rule allows.
pub fn size_of(w: u32) -> u32
    ensures { result ≡ size_below w }
{
    w.wrapping_neg()
}

// How far an i32 lies above 0.
pub fn above_of(w: u32) -> u32
    ensures { result ≡ above_of w }
{
    if w < 2_147_483_648 { w } else { 0 }
}

// The bits of an i32 that lies below 0, and of any other those of 0.
fn below_bits(w: u32) -> u32
    ensures { result ≡ cond (ltb w 2_147_483_648) 0 w }
{
    if w < 2_147_483_648 { 0 } else { w }
}

// How far an i32 lies below 0. The size is taken of what was chosen, and not the other way round: so the compiler sees that of a number's two
// sides one is 0, and leaves out what is written for both.
pub fn below_of(w: u32) -> u32
    ensures { result ≡ below_of w }
{
    size_of(below_bits(w))
}
