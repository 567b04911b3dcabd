// The five kinds of record, and how record i of a section is read where it stands.
// Energies that are 0 or below are held by their sizes, and a factor of either sign as two sizes of which one is 0.
ghost use Rattle.std.specs.Prelude.{◌≡◌, ◌+◌, ◌*◌, ◌≤◌, length};
ghost use Rattle.records.specs.Rows.{entry_row, constraint_row, unit_row, energy_row, contract_row};

use ground::read;

// A region's totals, 12 bytes. ACE is -ace.
#[derive(Clone, Copy)]
pub struct Entry {
    pub ace: u32,
    pub asoe: u32,
    pub residual: u32,
}

// 40 bytes. RCF is prcf - nrcf, of which one is 0: nrcf is the size of NRCF, which is min(0, RCF). DRCF is -drcf.
#[derive(Clone, Copy)]
pub struct Constraint {
    pub id: u32,
    pub service: u8,
    pub mask: u8,
    pub mode: u8,
    pub spare: u8,
    pub cost: u64,
    pub price: u32,
    pub rcr: u32,
    pub usage: u32,
    pub prcf: u32,
    pub nrcf: u32,
    pub drcf: u32,
    pub tail: u32,
}

// 20 bytes. CF is pcf - ncf, of which one is 0: ncf is the size of NCF, which is min(0, CF). DCF is -dcf.
#[derive(Clone, Copy)]
pub struct UnitRow {
    pub constraint: u32,
    pub unit: u32,
    pub account: u32,
    pub pcf: u32,
    pub ncf: u32,
    pub dcf: u32,
}

// 24 bytes. ACE is -ace, and residual ACE -race.
#[derive(Clone, Copy)]
pub struct EnergyRow {
    pub account: u32,
    pub region: u8,
    pub spare: u32,
    pub ace: u32,
    pub asoe: u32,
    pub race: u32,
    pub rasoe: u32,
}

// 36 bytes. One benefit factor for each region.
#[derive(Clone, Copy)]
pub struct Contract {
    pub id: u32,
    pub kind: u8,
    pub spare: u32,
    pub payment: u64,
    pub factors: [u32; 5],
}

pub fn entry_row(s: &[u8], i: usize) -> Entry
    requires { (i + 1) * 12 ≤ length s.now }
    ensures { result ≡ entry_row s.now i }
{
    let at = i * 12;
    Entry {
        ace: read::size_at(s, at),
        asoe: read::u32_at(s, at + 4),
        residual: read::u32_at(s, at + 8),
    }
}

pub fn constraint_row(s: &[u8], i: usize) -> Constraint
    requires { (i + 1) * 40 ≤ length s.now }
    ensures { result ≡ constraint_row s.now i }
{
    let at = i * 40;
    Constraint {
        id: read::u32_at(s, at),
        service: s[at + 4],
        mask: s[at + 5],
        mode: s[at + 6],
        spare: s[at + 7],
        cost: read::u64_at(s, at + 8),
        price: read::u32_at(s, at + 16),
        rcr: read::u32_at(s, at + 20),
        usage: read::u32_at(s, at + 24),
        prcf: read::above_at(s, at + 28),
        nrcf: read::below_at(s, at + 28),
        drcf: read::size_at(s, at + 32),
        tail: read::u32_at(s, at + 36),
    }
}

pub fn unit_row(s: &[u8], i: usize) -> UnitRow
    requires { (i + 1) * 20 ≤ length s.now }
    ensures { result ≡ unit_row s.now i }
{
    let at = i * 20;
    UnitRow {
        constraint: read::u32_at(s, at),
        unit: read::u32_at(s, at + 4),
        account: read::u32_at(s, at + 8),
        pcf: read::above_at(s, at + 12),
        ncf: read::below_at(s, at + 12),
        dcf: read::size_at(s, at + 16),
    }
}

pub fn energy_row(s: &[u8], i: usize) -> EnergyRow
    requires { (i + 1) * 24 ≤ length s.now }
    ensures { result ≡ energy_row s.now i }
{
    let at = i * 24;
    EnergyRow {
        account: read::u32_at(s, at),
        region: s[at + 4],
        spare: read::u24_at(s, at + 5),
        ace: read::size_at(s, at + 8),
        asoe: read::u32_at(s, at + 12),
        race: read::size_at(s, at + 16),
        rasoe: read::u32_at(s, at + 20),
    }
}

pub fn contract_row(s: &[u8], i: usize) -> Contract
    requires { (i + 1) * 36 ≤ length s.now }
    ensures { result ≡ contract_row s.now i }
{
    let at = i * 36;
    Contract {
        id: read::u32_at(s, at),
        kind: s[at + 4],
        spare: read::u24_at(s, at + 5),
        payment: read::u64_at(s, at + 8),
        factors: [
            read::u32_at(s, at + 16),
            read::u32_at(s, at + 20),
            read::u32_at(s, at + 24),
            read::u32_at(s, at + 28),
            read::u32_at(s, at + 32),
        ],
    }
}
