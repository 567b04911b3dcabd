// The line of a number among an account's lines of one contract. They rest on the region entries and on the account's own energy, and on
// nothing else of a book.
ghost use Rattle.std.specs.Prelude.{◌≡◌, ◌≤◌, length};
ghost use Rattle.records.specs.Rows.{entry_row};
ghost use Rattle.totals.specs.Inner.Totals.{entry_of};
ghost use Rattle.accounts.specs.Rows.{joined};
ghost use Rattle.lines.specs.Lines.{region_lines};
ghost use Rattle.lines.specs.Inner.Walks.{ContractSettles};
ghost use Rattle.lookup.specs.ByNumber.{numbered_in};

use records::rows::Contract;
use statement::Line;
use totals::entries::Totals;

// Its regions rise, and each that it benefits has two lines.
pub fn contract_line(regions: &[u8], k: Contract, own: Totals, number: usize) -> Result<Line, usize>
    requires in_bounds { 60 ≤ length regions.now }
    requires contract_settles { ContractSettles (entry_row regions.now) k own }
    ensures { result ≡ numbered_in (joined (region_lines (entry_row regions.now) (entry_of own) k) 5) number }
{
    let factors = k.factors;
    let mut left = number;
    for g in 0..5 {
        let lines = groups::region_count(factors[g]);
        if left < lines {
            return Ok(groups::region_line(regions, k, g, &own, left));
        }
        left -= lines;
    }
    Err(left)
}
