// A book that is as long as its header says: its bytes and its header, which go together from the fourth check on, and its sections.
ghost use Rattle.std.specs.Prelude.{◌≡◌, ◌*◌, ◌≤◌, length};
ghost use Rattle.ground.specs.Bytes.{part_from};
ghost use Rattle.book.specs.Header.{units_from, energies_from, contracts_from};
ghost use Rattle.book.specs.Inner.Facts.{Laid};

use crate::header::Header;

// Its sections lie within its bytes.
#[derive(Clone, Copy)]
pub struct LaidBook<'a> {
    pub bytes: &'a [u8],
    pub header: Header,
    pub ghost laid: { Laid bytes.now header },
}

impl<'a> LaidBook<'a> {
    // The bytes from the region entries on.
    pub fn entries(&self) -> &'a [u8]
        ensures bytes { result.now ≡ part_from 24 self.now.bytes.now }
        ensures long { 60 ≤ length result.now }
    {
        &self.bytes[Header::ENTRIES..]
    }

    // From the constraints on.
    pub fn constraints(&self) -> &'a [u8]
        ensures bytes { result.now ≡ part_from 84 self.now.bytes.now }
        ensures long { self.now.header.constraints * 40 ≤ length result.now }
    {
        &self.bytes[Header::CONSTRAINTS..]
    }

    // From the unit rows on.
    pub fn units(&self) -> &'a [u8]
        ensures bytes { result.now ≡ part_from (units_from self.now.header) self.now.bytes.now }
        ensures long { self.now.header.units * 20 ≤ length result.now }
    {
        let from = self.header.units_at();
        &self.bytes[from..]
    }

    // From the energy rows on.
    pub fn energies(&self) -> &'a [u8]
        ensures bytes { result.now ≡ part_from (energies_from self.now.header) self.now.bytes.now }
        ensures long { self.now.header.energies * 24 ≤ length result.now }
    {
        let from = self.header.energies_at();
        &self.bytes[from..]
    }

    // From the contracts on.
    pub fn contracts(&self) -> &'a [u8]
        ensures bytes { result.now ≡ part_from (contracts_from self.now.header) self.now.bytes.now }
        ensures long { self.now.header.contracts * 36 ≤ length result.now }
    {
        let from = self.header.contracts_at();
        &self.bytes[from..]
    }
}
