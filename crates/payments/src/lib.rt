// An account's lines of one contract. They rest on the region entries and on the account's own energy, and on nothing else of a book.
#![tactic(auto)]

ghost use Rattle.std.specs.Prelude.{◌≤◌, ◌<◌, length};
ghost use Rattle.records.specs.Rows.{entry_row};
ghost use Rattle.totals.specs.Inner.Totals.{entry_of};
ghost use Rattle.accounts.specs.Rows.{joined};
ghost use Rattle.lines.specs.Lines.{region_lines};
ghost use Rattle.lines.specs.Inner.Walks.{ContractSettles};
ghost use Rattle.emission.specs.Inner.Emitted.{Emitted, LineRoom};

use amounts::pools;
use lines::make;
use lines::portion::Portion;
use records::rows;
use records::rows::Contract;
use totals::entries::Totals;

// A contract's two lines in region g, where it benefits.
fn region_lines(
    buf: &mut [u8],
    place: usize,
    regions: &[u8],
    k: Contract,
    g: usize,
    own: &Totals,
) -> usize
    requires in_bounds { (60 ≤ length regions.now) × (g < 5) }
    requires contract_settles { ContractSettles (entry_row regions.now) k own.now }
    requires line_room { LineRoom buf.old place (length (region_lines (entry_row regions.now) (entry_of own.now) k g)) }
    ensures { Emitted buf.old place (region_lines (entry_row regions.now) (entry_of own.now) k g) buf.new result }
{
    let factor = k.factors[g];
    if factor == 0 {
        return place;
    }
    let e = rows::entry_row(regions, g);
    let x = pools::halves_of(k.payment, factor);
    let consumed = Portion {
        own: own.ace[g],
        total: e.ace as u64,
    };
    let sent = Portion {
        own: own.asoe[g],
        total: e.asoe as u64,
    };
    let by_ace = make::ace_line(k.id, g, x, consumed);
    let by_asoe = make::asoe_line(k.id, g, x, sent);
    emission::emit_two(buf, place, by_ace, by_asoe)
}

// A contract's lines, its regions rising.
// Not inlined, so that the five regions have room on the stack no longer than they are walked.
#[inline(never)]
pub fn contract_lines(
    buf: &mut [u8],
    place: usize,
    regions: &[u8],
    k: Contract,
    own: &Totals,
) -> usize
    requires in_bounds { 60 ≤ length regions.now }
    requires contract_settles { ContractSettles (entry_row regions.now) k own.now }
    requires line_room { LineRoom buf.old place (length (joined (region_lines (entry_row regions.now) (entry_of own.now) k) 5)) }
    ensures { Emitted buf.old place (joined (region_lines (entry_row regions.now) (entry_of own.now) k) 5) buf.new result }
{
    let mut end = place;
    for g in 0..5 {
        end = region_lines(buf, end, regions, k, g, own);
    }
    end
}
