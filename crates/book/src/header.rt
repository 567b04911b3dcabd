// A book's header, 24 bytes, and where its sections start. The five region entries follow the header, and the constraints follow them.
ghost use Rattle.std.specs.Prelude.{◌≡◌, ◌≤◌, length};
ghost use Rattle.book.specs.Header.{book_marked, header_of, in_range, units_from, energies_from, contracts_from, whole_length};

use ground::read;

#[derive(Clone, Copy)]
pub struct Header {
    pub interval: u16,
    pub date: u32,
    pub run: u16,
    pub constraints: u16,
    pub units: u16,
    pub energies: u16,
    pub contracts: u16,
}

// The mark, the version and the reserved bytes.
pub fn is_marked(book: &[u8]) -> bool
    requires { 84 ≤ length book.now }
    ensures { result ≡ book_marked book.now }
{
    book.starts_with(b"RCB\0") & (read::u16_at(book, 4) == 1) & (read::u16_at(book, 22) == 0)
}

pub fn header_of(book: &[u8]) -> Header
    requires { 84 ≤ length book.now }
    ensures { result ≡ header_of book.now }
{
    Header {
        interval: read::u16_at(book, 6),
        date: read::u32_at(book, 8),
        run: read::u16_at(book, 12),
        constraints: read::u16_at(book, 14),
        units: read::u16_at(book, 16),
        energies: read::u16_at(book, 18),
        contracts: read::u16_at(book, 20),
    }
}

impl Header {
    // Where the region entries start.
    pub const ENTRIES: usize = 24;

    // Where the constraints start.
    pub const CONSTRAINTS: usize = 84;

    pub fn in_range(self) -> bool
        ensures { result ≡ in_range self }
    {
        calendar::is_period(self.interval, self.date, self.run)
            & (self.constraints <= 64)
            & (self.units <= 600)
            & (self.energies <= 1024)
            & (self.contracts <= 16)
    }

    // Where the unit rows start.
    pub fn units_at(self) -> usize
        ensures { result ≡ units_from self }
    {
        Self::CONSTRAINTS + (self.constraints as usize) * 40
    }

    // Where the energy rows start.
    pub fn energies_at(self) -> usize
        ensures { result ≡ energies_from self }
    {
        Self::CONSTRAINTS + (self.constraints as usize) * 40 + (self.units as usize) * 20
    }

    // Where the contracts start.
    pub fn contracts_at(self) -> usize
        ensures { result ≡ contracts_from self }
    {
        Self::CONSTRAINTS
            + (self.constraints as usize) * 40
            + (self.units as usize) * 20
            + (self.energies as usize) * 24
    }

    // The length that the counts give.
    pub fn whole_length(self) -> usize
        ensures { result ≡ whole_length self }
    {
        Self::CONSTRAINTS
            + (self.constraints as usize) * 40
            + (self.units as usize) * 20
            + (self.energies as usize) * 24
            + (self.contracts as usize) * 36
    }
}
