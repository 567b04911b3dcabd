// The regions that have energy, one bit each as a constraint's regions are: whether a constraint's total is 0 is seen from these, and nothing is summed.
ghost use Rattle.std.specs.Prelude.{◌≡◌, ◌≤◌, ◌<◌, length};
ghost use Rattle.market.specs.Kinds.{basis_of};
ghost use Rattle.records.specs.Rows.{entry_row};
ghost use Rattle.divisor_check.specs.Inner.Live.{bit_with, bits_by, have_common, LiveIs};

use market::{Basis, Region, Service};
use records::rows;
use records::rows::Constraint;

// The regions that have energy of each kind.
#[derive(Clone, Copy)]
pub(crate) struct Live {
    pub(crate) ace: u64,
    pub(crate) asoe: u64,
    pub(crate) residual: u64,
}

// Region g's bit where it has energy, else 0.
fn bit_with(energy: u32, g: usize) -> u64
    requires { g < 5 }
    ensures { result ≡ bit_with energy g }
{
    if energy == 0 {
        return 0;
    }
    Region::of(g as u8).bit() as u64
}

// Of all five regions, once for a book, each entry read where it stands.
pub(crate) fn live_of(regions: &[u8]) -> Live
    requires { 60 ≤ length regions.now }
    ensures { LiveIs (entry_row regions.now) 5 result }
{
    let mut ace: u64 = 0;
    let mut asoe: u64 = 0;
    let mut residual: u64 = 0;
    for g in 0..Region::COUNT {
        let e = rows::entry_row(regions, g);
        ace += bit_with(e.ace, g);
        asoe += bit_with(e.asoe, g);
        residual += bit_with(e.residual, g);
    }
    Live {
        ace,
        asoe,
        residual,
    }
}

// Whether one of a constraint's regions has energy of the kind that its cost is shared by.
pub(crate) fn divides(live: Live, r: Constraint) -> bool
    ensures { result ≡ have_common r.mask (bits_by (basis_of r.service) live) }
{
    let basis = Basis::of(Service::of(r.service));
    (r.mask as u64) & basis.pick(live.ace, live.asoe, live.residual) != 0
}
