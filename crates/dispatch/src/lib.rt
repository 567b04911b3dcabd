// Payments and base costs, made from dispatch rows: the sum over the rows that the question names, or 16 at the first row at fault.
// One pass, and no row is kept: rows of one id and service stand side by side, so a row asks for two numbers of those before it, and for one as long
// as all rows are ordinary, since no sum can then pass the limit.
#![tactic(auto)]

ghost use Rattle.std.specs.Prelude.{◌≡◌, true, cond, ◌&&◌, ◌+◌, ◌*◌, ◌/◌, ◌≤◌, eqb, leb, ltb, length, None};
ghost use Rattle.ground.specs.Units.{money_limit};
ghost use Rattle.sections.specs.First.{first_bad};
ghost use Rattle.dispatch.specs.Dispatch.{dispatch_row, rows_in, row_in_range, product_of, product_limit, amount_of, sum_with, row_ok, rows_verdict, cost_if, payment, base_cost};
ghost use Rattle.dispatch.specs.Inner.Keys.{id_service_region};
ghost use Rattle.dispatch.specs.Inner.Pass.{last_key, last_sum, ordinary_product, FrontIs, amountless};

use ground::read;
use numbers::{round, wide};
use sections::Refusal;

// 16 bytes. Of a payment row, which has id 0, price is the service's price in the region; of any other it is the constraint's marginal value.
#[derive(Clone, Copy)]
pub struct DispatchRow {
    pub id: u32,
    pub service: u8,
    pub region: u8,
    pub spare: u16,
    pub price: u32,
    pub enablement: u32,
}

fn dispatch_row(s: &[u8], i: usize) -> DispatchRow
    requires { (i + 1) * 16 ≤ length s.now }
    ensures { result ≡ dispatch_row s.now i }
{
    let at = i * 16;
    DispatchRow {
        id: read::u32_at(s, at),
        service: s[at + 4],
        region: s[at + 5],
        spare: read::u16_at(s, at + 6),
        price: read::u32_at(s, at + 8),
        enablement: read::u32_at(s, at + 12),
    }
}

impl DispatchRow {
    fn in_range(self) -> bool
        ensures { result ≡ row_in_range self }
    {
        (1 <= self.service)
            & (self.service <= 10)
            & (self.region <= 4)
            & (self.spare == 0)
            & (self.price <= 2_500_000)
            & (self.enablement <= 1_000_000)
    }

    // The whole product, whatever the row holds.
    fn product(self) -> u64
        ensures { result ≡ product_of self }
    {
        wide::product(self.price, self.enablement)
    }

    // In units of money, rounded as pools and shares are.
    fn amount(self) -> u64
        ensures { result ≡ amount_of self }
    {
        round::nearest(self.product(), 12).whole
    }

    // Rows rise where these numbers do; divided by 256 they are id and service.
    fn key(self) -> u64
        ensures { result ≡ id_service_region self }
    {
        (self.id as u64) * 65_536 + ((self.service as u64) * 256 + (self.region as u64))
    }
}

// What the row's id and service come to with it: `before` is the key of the row before it, `run` what that row's id and service came to.
fn sum_with(r: DispatchRow, before: u64, run: u64) -> u64
    requires { run ≤ money_limit }
    ensures { result ≡ cond (eqb (id_service_region r / 256) (before / 256)) run 0 + amount_of r }
{
    if r.key() / 256 == before / 256 {
        run + r.amount()
    } else {
        r.amount()
    }
}

// Whether a row that is not cut short has no fault.
fn row_holds(r: DispatchRow, before: u64, sum: u64) -> bool
    ensures { result ≡ row_in_range r && ltb before (id_service_region r) && leb (product_of r) product_limit && leb sum money_limit }
{
    r.in_range() & (before < r.key()) & (r.product() <= 600_000_000_000) & (sum <= 50_000_000_000)
}

// Whether the question names the row.
fn is_asked(r: DispatchRow, id: u32, service: u64) -> bool
    ensures { result ≡ eqb r.id id && eqb r.service service }
{
    (r.id == id) & ((r.service as u64) == service)
}

// The sum asked for, with a row if that is named.
fn with_row(asked: u64, r: DispatchRow, named: bool) -> u64
    requires { named ≡ true → asked + amount_of r ≤ money_limit }
    ensures { result ≡ cond named (asked + amount_of r) asked }
{
    if named { asked + r.amount() } else { asked }
}

// Whether a row that is not cut short is in range, above the one before it, and of an amount that is at most a fifth of the limit.
fn is_ordinary(r: DispatchRow, before: u64) -> bool
    ensures { result ≡ leb (product_of r) ordinary_product && ltb before (id_service_region r) && row_in_range r }
{
    (r.product() <= 120_000_000_000) & (before < r.key()) & r.in_range()
}

// How many rows at the front are ordinary, and what those of them come to that are asked for.
#[derive(Clone, Copy)]
struct Front {
    rows: usize,
    asked: u64,
}

// Five rows, one for each region, are all that an id and a service can have. So no sum of ordinary rows passes the limit, and none is kept.
fn ordinary_front(s: &[u8], count: usize, id: u32, service: u64) -> Front
    requires { count * 16 ≤ length s.now }
    ensures { FrontIs s.now count id service result.rows result.asked }
{
    let mut before = 0; // below each key, since a service is 1 at least
    let mut asked = 0;
    for i in 0..count {
        let r = dispatch_row(s, i);
        if !is_ordinary(r, before) {
            return Front { rows: i, asked };
        }
        asked = with_row(asked, r, is_asked(r, id, service));
        before = r.key();
    }
    Front { rows: count, asked }
}

// The key of the last of the first i rows.
fn last_key(s: &[u8], i: usize) -> u64
    requires { i * 16 ≤ length s.now }
    ensures { result ≡ last_key (dispatch_row s.now) i }
{
    if i == 0 {
        return 0;
    }
    dispatch_row(s, i - 1).key()
}

// What the last row's id and service came to: its rows are passed backwards, five at most.
fn last_sum(s: &[u8], i: usize) -> u64
    requires i_in_bounds { i * 16 ≤ length s.now }
    requires i_value { first_bad (row_ok s.now) i ≡ None }
    ensures { result ≡ last_sum (dispatch_row s.now) i }
{
    let key = last_key(s, i);
    let mut run = 0;
    for j in (0..i).rev() {
        let r = dispatch_row(s, j);
        if r.key() / 256 != key / 256 {
            return run;
        }
        run += r.amount();
    }
    run
}

// What the rows of an id and a service come to.
fn tally(s: &[u8], id: u32, service: u64) -> Result<u64, Refusal>
    ensures { result ≡ cost_if (rows_verdict s.now) (sum_with (dispatch_row s.now) id service (rows_in s.now)) }
{
    let n = s.len() / 16;
    let front = ordinary_front(s, n, id, service);
    let mut asked = front.asked;
    let mut before = last_key(s, front.rows);
    let mut run = last_sum(s, front.rows);
    for i in front.rows..n {
        let r = dispatch_row(s, i);
        let sum = sum_with(r, before, run);
        if !row_holds(r, before, sum) {
            return Err(Refusal {
                number: 16,
                place: i * 16,
            });
        }
        asked = with_row(asked, r, is_asked(r, id, service));
        before = r.key();
        run = sum;
    }
    if n * 16 < s.len() {
        return Err(Refusal {
            number: 16,
            place: n * 16,
        });
    }
    Ok(asked)
}

// A service's payment: what its payment rows come to, which have id 0.
pub fn payment(rows: &[u8], service: u64) -> Result<u64, Refusal>
    ensures { result ≡ payment rows.now service }
{
    tally(rows, 0, service)
}

// What was found, but for its amount.
fn without_amount(found: Result<u64, Refusal>) -> Result<u64, Refusal>
    ensures { result ≡ amountless found }
{
    found.map(|_amount| 0)
}

// A constraint's base cost for a service. Id 0 is no constraint's: it has none.
pub fn base_cost(rows: &[u8], id: u32, service: u64) -> Result<u64, Refusal>
    ensures { result ≡ base_cost rows.now id service }
{
    let found = tally(rows, id, service);
    if id == 0 {
        return without_amount(found);
    }
    found
}
