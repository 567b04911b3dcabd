// The rules of each record's fields: check 5. Tests are joined by `&` and `|`, as the definitions are.
ghost use Rattle.std.specs.Prelude.{◌≡◌, ◌≤◌, ◌+◌, ◌*◌, ℕ, List, Bool, length};
ghost use Rattle.std.proofs.Common.{arith};
ghost use Rattle.records.specs.Rows.{entry_row, constraint_row, unit_row, energy_row, contract_row};
ghost use Rattle.rules.specs.Rules.{entry_ok, terms_ok, no_terms, mode_fits, constraint_ok, unit_ok, energy_ok, shares_ok, contract_ok};

use market::{Mode, Region, Service};
use numbers::wide;
use records::rows::{self, Constraint, Contract, EnergyRow, Entry, UnitRow};

// A kind of record whose fields have rules: `read` is record i of a section, and `ok` says whether its fields keep the rules.
pub trait Ruled: Copy {
    // The bytes of one record.
    const SIZE: usize;

    ghost SIZE: { ℕ };

    ghost read: { List ℕ → ℕ → Self };

    ghost ok: { Self → Bool };

    fn read(s: &[u8], i: usize) -> Self
        requires { (i + 1) * SIZE ≤ length s.now }
        ensures { result ≡ read s.now i };

    fn ok(self) -> bool
        ensures { result ≡ ok self };

    // A record is short, so that the place of a refusal is counted without overflow.
    ghost small: { SIZE ≤ 64 };
}

impl Ruled for Entry {
    const SIZE: usize = 12;

    ghost SIZE = { 12 };

    ghost read = { entry_row };

    ghost ok = { entry_ok };

    ghost small = { omega arith };

    fn read(s: &[u8], i: usize) -> Entry {
        rows::entry_row(s, i)
    }

    fn ok(self) -> bool {
        (self.ace <= 20_000_000) & (self.asoe <= 20_000_000) & (self.residual <= 20_000_000)
    }
}

// A factored constraint's price, response and usage are in range. Other modes have none to look at.
fn terms_ok(mode: Mode) -> bool
    ensures { result ≡ terms_ok mode }
{
    let Mode::Factored {
        price,
        response,
        usage,
    } = mode
    else {
        return true;
    };
    (price <= 2_500_000)
        & (response <= 10_000_000)
        & (usage <= 1_000_000)
        & (wide::product(price, response) <= 6_000_000_000_000)
}

fn no_terms(r: Constraint) -> bool
    ensures { result ≡ no_terms r }
{
    (r.price == 0) & (r.rcr == 0) & (r.usage == 0) & (r.prcf == 0) & (r.nrcf == 0)
}

// The mode goes with the service, and fields that it has no use for are 0.
fn mode_fits(r: Constraint) -> bool
    ensures { result ≡ mode_fits r }
{
    let regulation = Service::of(r.service).is_regulation();
    let bare = no_terms(r);
    ((r.mode == Mode::CONTINGENCY) & !regulation & bare & (r.drcf == 0))
        | ((r.mode == Mode::FACTORED) & regulation)
        | ((r.mode == Mode::DEFAULT) & regulation & bare)
}

impl Ruled for Constraint {
    const SIZE: usize = 40;

    ghost SIZE = { 40 };

    ghost read = { constraint_row };

    ghost ok = { constraint_ok };

    ghost small = { omega arith };

    fn read(s: &[u8], i: usize) -> Constraint {
        rows::constraint_row(s, i)
    }

    fn ok(self) -> bool {
        let terms = terms_ok(Mode::of(self.mode, self.price, self.rcr, self.usage));
        (1 <= self.id)
            & Service::of(self.service).is_known()
            & (1 <= self.mask)
            & (self.mask <= 31)
            & (self.spare == 0)
            & (self.cost <= 50_000_000_000)
            & (self.prcf <= 1_000_000)
            & (self.nrcf <= 1_000_000)
            & (self.drcf <= 1_000_000)
            & (self.tail == 0)
            & terms
            & mode_fits(self)
    }
}

impl Ruled for UnitRow {
    const SIZE: usize = 20;

    ghost SIZE = { 20 };

    ghost read = { unit_row };

    ghost ok = { unit_ok };

    ghost small = { omega arith };

    fn read(s: &[u8], i: usize) -> UnitRow {
        rows::unit_row(s, i)
    }

    fn ok(self) -> bool {
        (1 <= self.constraint)
            & (1 <= self.unit)
            & (1 <= self.account)
            & (self.pcf <= 1_000_000)
            & (self.ncf <= 1_000_000)
            & (self.dcf <= 1_000_000)
    }
}

impl Ruled for EnergyRow {
    const SIZE: usize = 24;

    ghost SIZE = { 24 };

    ghost read = { energy_row };

    ghost ok = { energy_ok };

    ghost small = { omega arith };

    fn read(s: &[u8], i: usize) -> EnergyRow {
        rows::energy_row(s, i)
    }

    fn ok(self) -> bool {
        (1 <= self.account)
            & (self.region <= Region::VIC1.number)
            & (self.spare == 0)
            & (self.ace <= 20_000_000)
            & (self.asoe <= 20_000_000)
            & (self.race <= self.ace)
            & (self.rasoe <= self.asoe)
    }
}

// Each benefit factor is at most 1,000,000, and together they make exactly that.
fn shares_ok(f: [u32; 5]) -> bool
    ensures { result ≡ shares_ok f }
{
    let mut each = true;
    let mut sum: u64 = 0;
    for factor in f {
        each &= factor <= 1_000_000;
        sum += factor as u64;
    }
    each & (sum == 1_000_000)
}

impl Ruled for Contract {
    const SIZE: usize = 36;

    ghost SIZE = { 36 };

    ghost read = { contract_row };

    ghost ok = { contract_ok };

    ghost small = { omega arith };

    fn read(s: &[u8], i: usize) -> Contract {
        rows::contract_row(s, i)
    }

    fn ok(self) -> bool {
        let factors = self.factors;
        (1 <= self.id)
            & (1 <= self.kind)
            & (self.kind <= 2)
            & (self.spare == 0)
            & (self.payment <= 50_000_000_000)
            & shares_ok(factors)
    }
}
