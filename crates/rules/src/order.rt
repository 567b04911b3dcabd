// The order of each section: check 6. In each section record i is the first, or above the one before it.
ghost use Rattle.std.specs.Prelude.{◌≡◌, ◌+◌, ◌*◌, ◌≤◌, Bool, length};
ghost use Rattle.sections.specs.Order.{rises_by};
ghost use Rattle.rules.specs.Rules.{constraint_below, unit_below, energy_below, contract_below};

use crate::fields::Ruled;
use records::rows::{Constraint, Contract, EnergyRow, UnitRow};

// A kind of record whose section is in order: `below` says whether a record may stand before the next.
pub trait Ordered: Ruled {
    ghost below: { Self → Self → Bool };

    fn below(self, next: Self) -> bool
        ensures { result ≡ below self next };
}

impl Ordered for Constraint {
    ghost below = { constraint_below };

    fn below(self, next: Constraint) -> bool {
        self.id < next.id
    }
}

impl Ordered for UnitRow {
    ghost below = { unit_below };

    fn below(self, next: UnitRow) -> bool {
        (self.constraint, self.unit) < (next.constraint, next.unit)
    }
}

impl Ordered for EnergyRow {
    ghost below = { energy_below };

    fn below(self, next: EnergyRow) -> bool {
        (self.account, self.region) < (next.account, next.region)
    }
}

impl Ordered for Contract {
    ghost below = { contract_below };

    fn below(self, next: Contract) -> bool {
        self.id < next.id
    }
}

// Whether record i of a section is the first, or above the one before it.
pub fn rises<R: Ordered>(s: &[u8], i: usize) -> bool
    requires { (i + 1) * R.SIZE ≤ length s.now }
    ensures { result ≡ rises_by R.below (R.read s.now) i }
{
    if i == 0 {
        return true;
    }
    let before = R::read(s, i - 1);
    before.below(R::read(s, i))
}
