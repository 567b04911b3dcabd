// Which of a record's lines a pool has, and what such a pool rests on.
ghost use Rattle.std.specs.Prelude.{◌≡◌};
ghost use Rattle.rules.specs.Inner.Facts.{ConstraintRule};
ghost use Rattle.recovery.specs.ByKind.{unit_factors, rest_factors, factor_above, factor_below};
ghost use Rattle.recovery.specs.declared.kinds.Factors.{Factors};
ghost use Rattle.recovery.specs.Inner.Shapes.{recovery_of};

use amounts::pools;
use records::rows::{Constraint, UnitRow};

// A constraint of mode 0 has one pool, one of mode 1 three (FPP, used, unused), one of mode 2 the unused alone; a contract has one.
#[derive(Clone, Copy)]
pub enum Kind {
    Contingency,
    Fpp,
    Used,
    Unused,
    Payment,
}

// A factor by the two sides of 0, CF or RCF, and one that is never above 0, DCF or DRCF: each part by its size.
#[derive(Clone, Copy)]
pub struct Factors {
    pub above: u32,
    pub below: u32,
    pub default: u32,
}

// What has factors: a unit row, and a constraint for its residual.
pub trait Factored: Copy {
    ghost factors: { Self → Factors };

    fn factors(self) -> Factors
        ensures { result ≡ factors self };
}

impl Factored for UnitRow {
    ghost factors = { unit_factors };

    fn factors(self) -> Factors {
        Factors {
            above: self.pcf,
            below: self.ncf,
            default: self.dcf,
        }
    }
}

impl Factored for Constraint {
    ghost factors = { rest_factors };

    fn factors(self) -> Factors {
        Factors {
            above: self.prcf,
            below: self.nrcf,
            default: self.drcf,
        }
    }
}

impl Kind {
    // What a factor credits: FPP by CF.
    pub fn above<R: Factored>(self, r: R) -> u32
        ensures { result ≡ factor_above self (R.factors r) }
    {
        match self {
            Kind::Fpp => r.factors().above,
            _ => 0,
        }
    }

    // What it charges: used by min(0, CF), unused by DCF.
    pub fn below<R: Factored>(self, r: R) -> u32
        ensures { result ≡ factor_below self (R.factors r) }
    {
        match self {
            Kind::Fpp | Kind::Used => r.factors().below,
            Kind::Unused => r.factors().default,
            _ => 0,
        }
    }
}

// The amount to recover, the pool that unit rows share by their factors, and the residual pool, which is credit - charge.
#[derive(Clone, Copy)]
pub struct Recovery {
    pub amount: u64,
    pub pool: u64,
    pub credit: u64,
    pub charge: u64,
}

// What a regulation pool rests on. A constraint's FPP pool has nothing to recover.
pub fn recovery_of(r: Constraint, kind: Kind) -> Recovery
    requires { ConstraintRule r }
    ensures { result ≡ recovery_of r kind }
{
    let p = pools::pools_of(r);
    let x = pools::residual_of(r, p);
    match kind {
        Kind::Contingency => Recovery {
            amount: r.cost,
            pool: 0,
            credit: 0,
            charge: 0,
        },
        Kind::Fpp => Recovery {
            amount: 0,
            pool: p.fpp,
            credit: x.credit,
            charge: x.charge,
        },
        Kind::Used => Recovery {
            amount: p.used,
            pool: p.used,
            credit: 0,
            charge: x.used,
        },
        Kind::Unused => Recovery {
            amount: p.unused,
            pool: p.unused,
            credit: 0,
            charge: x.unused,
        },
        Kind::Payment => Recovery {
            amount: 0,
            pool: 0,
            credit: 0,
            charge: 0,
        },
    }
}
