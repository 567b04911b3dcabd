// Numbers as decimal text, read where they stand. Each digit is looked at once. Every loop ends after as many turns as its caller says: where
// these are constants, the compiler writes the turns out one by one.
#![tactic(auto)]

ghost use Rattle.std.specs.Prelude.{◌≡◌, true, false, cond, ◌+◌, ◌-◌, ◌*◌, ◌^◌, ◌≤◌, ◌<◌, length};
ghost use Rattle.ground.specs.Bytes.{byte_at};
ghost use Rattle.decimal.specs.Standing.{is_digit};
ghost use Rattle.decimal_reading.specs.Inner.Taking.{spare_zero, far, SumAt, Front, PlacesAt, Rest, NumberThen, is_minus, is_sided};
ghost use Rattle.decimal_reading.specs.Reads.{Reads};
ghost use Rattle.decimal_reading.specs.Sided.{SidedThen};

// What was read: its value, and where it ends.
#[derive(Clone, Copy)]
pub struct Taken {
    pub value: u64,
    pub next: usize,
}

// The byte at a place; past the end 0, which is no digit.
pub fn byte_at(text: &[u8], at: usize) -> u8
    ensures { result ≡ byte_at text.now at }
{
    text.get(at).copied().unwrap_or(0)
}

// A byte as wide as the sum that its digit goes into: it is tested and added as the same number.
fn wide(b: u8) -> u64
    ensures { result ≡ b }
{
    b as u64
}

fn is_digit(x: u64) -> bool
    ensures { result ≡ is_digit x }
{
    (48 <= x) & (x <= 57)
}

// A number with one digit more.
fn with_digit(sum: u64, x: u64) -> u64
    requires { (sum < far) × (is_digit x ≡ true) }
    ensures { result ≡ 10 * sum + (x - 48) }
{
    10 * sum + (x - 48)
}

fn spare_zero(first: u8, count: usize) -> bool
    ensures { result ≡ spare_zero first count }
{
    (first == b'0') & (1 < count)
}

// The digits that stand here, fewer than room, with another byte behind them.
fn take_digits(text: &[u8], at: usize, room: usize) -> Option<Taken>
    requires { room ≤ 19 }
    ensures { Reads (SumAt text.now at room) result }
{
    let n = text.len().saturating_sub(at);
    let mut sum = 0;
    for i in 0..room {
        if n <= i {
            return None;
        }
        let x = wide(text[at + i]);
        if !is_digit(x) {
            return Some(Taken {
                value: sum,
                next: at + i,
            });
        }
        sum = with_digit(sum, x);
    }
    None
}

// A whole number that stands here, of fewer digits than room, with another byte behind it.
fn take_whole(text: &[u8], at: usize, room: usize) -> Option<Taken>
    requires { room ≤ 19 }
    ensures { Reads (Front text.now at room) result }
{
    let w = take_digits(text, at, room)?;
    if w.next <= at {
        return None;
    }
    if spare_zero(text[at], w.next - at) {
        return None;
    }
    Some(w)
}

// So many digits that stand here, behind those of v, and then the byte.
fn take_places(text: &[u8], at: usize, decimals: usize, v: u64, end: u8) -> Option<Taken>
    requires at_in_bounds { (at ≤ length text.now) × (0 < end) }
    requires decimals_bound { (v + 1) * 10 ^ decimals ≤ far }
    ensures { Reads (PlacesAt text.now at v decimals end) result }
{
    if text.len() - at <= decimals {
        return None;
    }
    let mut sum = v;
    for i in 0..decimals {
        let x = wide(text[at + i]);
        if !is_digit(x) {
            return None;
        }
        sum = with_digit(sum, x);
    }
    (text[at + decimals] == end).then_some(Taken {
        value: sum,
        next: at + decimals + 1,
    })
}

// The rest of a number whose digits before the point are v: the point and the decimals, and then the byte.
fn take_rest(text: &[u8], at: usize, decimals: usize, v: u64, end: u8) -> Option<Taken>
    requires at_in_bounds { (at < length text.now) × (is_digit (byte_at text.now at) ≡ false) }
    requires v_le_far { (v ≤ far) × ((v + 1) * 10 ^ decimals ≤ far) }
    requires end_nonzero { (0 < end) × (is_digit end ≡ false) }
    ensures { Reads (Rest text.now at v decimals end) result }
{
    let b = text[at];
    if decimals == 0 {
        return (b == end).then_some(Taken {
            value: v,
            next: at + 1,
        });
    }
    if b != b'.' {
        return None;
    }
    take_places(text, at + 1, decimals, v, end)
}

// A number with decimals that stands here, at most limit, and then the byte.
fn take_number(text: &[u8], at: usize, decimals: usize, limit: u64, end: u8) -> Option<Taken>
    requires decimals_bound { (decimals ≤ 6) × (limit < 1_000_000_000_000) }
    requires end_nonzero { (0 < end) × (is_digit end ≡ false) }
    ensures { Reads (NumberThen text.now at decimals limit end) result }
{
    let w = take_whole(text, at, 19 - decimals)?;
    let x = take_rest(text, w.next, decimals, w.value, end)?;
    (x.value <= limit).then_some(x)
}

// Whether a minus stands here, of a number that is at most 0.
fn is_minus(text: &[u8], at: usize, charge: bool) -> bool
    ensures { result ≡ is_minus charge text.now at }
{
    charge & (byte_at(text, at) == b'-')
}

// Where the digits begin.
fn past(at: usize, minus: bool) -> usize
    requires { minus ≡ true → at + 1 < 2 ^ 64 }
    ensures { result ≡ cond minus (at + 1) at }
{
    if minus { at + 1 } else { at }
}

// Whether a size has the sign that it must have: a charge has a minus unless it is 0.
fn is_sided(charge: bool, minus: bool, size: u64) -> bool
    ensures { result ≡ is_sided charge minus size }
{
    !charge | (minus != (size == 0))
}

// A number with decimals that stands here, and then the byte: 0 or above or, of a charge, 0 or below. It is given by its size.
pub fn take_sided(
    text: &[u8],
    at: usize,
    charge: bool,
    decimals: usize,
    limit: u64,
    end: u8,
) -> Option<Taken>
    requires decimals_bound { (decimals ≤ 6) × (limit < 1_000_000_000_000) }
    requires end_nonzero { (0 < end) × (is_digit end ≡ false) }
    ensures { Reads (SidedThen charge decimals limit end text.now at) result }
{
    let minus = is_minus(text, at, charge);
    let n = take_number(text, past(at, minus), decimals, limit, end)?;
    is_sided(charge, minus, n.value).then_some(n)
}
