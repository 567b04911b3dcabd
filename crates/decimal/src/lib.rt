// Numbers as decimal text, written into a lent slice. Each writer answers where its bytes end; every other byte is as it was.
#![tactic(auto)]

ghost use Rattle.std.specs.Prelude.{◌≡◌, [], ◌∷◌, ◌+◌, ◌/◌, ◌%◌, ◌^◌, ◌≤◌, ◌<◌, length};
ghost use Rattle.ground.specs.Put.{put};
ghost use Rattle.ground.specs.Inner.Put.{Wrote};
ghost use Rattle.decimal.specs.Decimal.{decimal_of, number_text, signed_text};
ghost use Rattle.decimal.specs.Inner.Filled.{Filled};

use ground::write;
use numbers::sign;

pub fn put_byte(text: &mut [u8], at: usize, b: u8) -> usize
    requires { at + 1 ≤ length text.old }
    ensures { Wrote text.old at (b ∷ []) text.new result }
{
    write::put_u8(text, at, b);
    at + 1
}

fn digit(x: u64) -> u8
    requires { x < 10 }
    ensures { result ≡ 48 + x }
{
    b'0' + (x as u8)
}

// How many digits x has: 0 has one, as 1 has.
fn width(x: u64) -> usize
    ensures { result ≡ length (decimal_of x) }
{
    x.max(1).ilog10() as usize + 1
}

// How many digits x is written with where `decimals` of them stand behind a point: at least one stands before it.
fn places(x: u64, decimals: usize) -> usize
    requires { decimals < 2 ^ 63 }
    ensures { result ≡ length (decimal_of (x / 10 ^ decimals)) + decimals }
{
    width(x).max(decimals + 1)
}

// How many bytes `put_number` writes. A sum of its own, beside the writing: the width of x tells it, and no digit is walked over.
pub fn number_length(x: u64, decimals: usize) -> usize
    requires { decimals ≤ 20 }
    ensures { (result ≡ length (number_text x decimals)) × (result ≤ 41) }
{
    let n = places(x, decimals);
    if decimals == 0 {
        return n;
    }
    n + 1
}

// How many bytes `put_signed` writes.
pub fn signed_length(x: i64, decimals: usize) -> usize
    requires { decimals ≤ 20 }
    ensures { (result ≡ length (signed_text x decimals)) × (result ≤ 42) }
{
    let n = number_length(sign::size(x), decimals);
    if sign::is_negative(x) {
        return n + 1;
    }
    n
}

// A number below 100 by two digits, as the one number of 16 bits that their bytes are: so they are one store. Twice the byte of 0 is 12,336.
fn put_pair(text: &mut [u8], at: usize, x: u64)
    requires { (at + 2 ≤ length text.old) × (x < 100) }
    ensures { text.new ≡ put text.old at ((48 + x / 10) ∷ (48 + x % 10) ∷ []) }
{
    write::put_u16(text, at, (12_336 + x / 10 + x % 10 * 256) as u16);
}

// The last n digits of x, two by two from the last to the first; the answer is what is left of x above them.
fn put_last(text: &mut [u8], at: usize, n: usize, x: u64) -> u64
    requires { at + n ≤ length text.old }
    ensures { Filled text.old at n x text.new result }
{
    let mut rest = x;
    let mut free = n;
    // Two digits at a turn, from the last: a range would have to be halved and turned round, and say no more.
    while 2 <= free {
        free -= 2;
        put_pair(text, at + free, rest % 100);
        rest /= 100;
    }
    if free == 1 {
        write::put_u8(text, at, digit(rest % 10));
        return rest / 10;
    }
    rest
}

// The digits of x.
pub fn put_whole(text: &mut [u8], at: usize, x: u64) -> usize
    requires { at + length (decimal_of x) ≤ length text.old }
    ensures { Wrote text.old at (decimal_of x) text.new result }
{
    let n = width(x);
    put_last(text, at, n, x);
    at + n
}

// x with a point before its last digits, as many as `decimals` says. The digits are taken from the last on, so that each is divided off once.
pub fn put_number(text: &mut [u8], at: usize, x: u64, decimals: usize) -> usize
    requires { at + length (number_text x decimals) ≤ length text.old }
    ensures { Wrote text.old at (number_text x decimals) text.new result }
{
    if decimals == 0 {
        return put_whole(text, at, x);
    }
    let point = at + (places(x, decimals) - decimals);
    let rest = put_last(text, point + 1, decimals, x);
    write::put_u8(text, point, b'.');
    put_last(text, at, point - at, rest);
    point + 1 + decimals
}

// The same of a number with a sign: a minus first where it is below 0.
pub fn put_signed(text: &mut [u8], at: usize, x: i64, decimals: usize) -> usize
    requires { at + length (signed_text x decimals) ≤ length text.old }
    ensures { Wrote text.old at (signed_text x decimals) text.new result }
{
    let size = sign::size(x);
    let below = sign::is_negative(x);
    if below {
        let p = put_byte(text, at, b'-');
        return put_number(text, p, size, decimals);
    }
    put_number(text, at, size, decimals)
}
