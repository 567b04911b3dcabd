// An account's lines of one constraint. Unit rows stand by their constraints, so a cursor walks them beside the constraints.
#![tactic(auto)]

ghost use Rattle.std.specs.Prelude.{◌*◌, ◌≤◌, length};
ghost use Rattle.sections.specs.Inner.Walk.{Stands};
ghost use Rattle.records.specs.Rows.{unit_row};
ghost use Rattle.rules.specs.Inner.Facts.{UnitRule};
ghost use Rattle.factors.specs.Naming.{key_of};
ghost use Rattle.factors.specs.Inner.Runs.{Walked};
ghost use Rattle.amounts.specs.Inner.Bounds.{SmallPools};
ghost use Rattle.accounts.specs.Rows.{joined};
ghost use Rattle.lines.specs.Inner.Walks.{own_lines, unit_lines_at, con_lines, Settles};
ghost use Rattle.emission.specs.Inner.Emitted.{Emitted, LineRoom};
ghost use Rattle.units.specs.Inner.Done.{UnitsDone, LinesDone};

use amounts::pools;
use amounts::pools::Pools;
use divisors::Share;
use lines::make;
use lines::portion::Portion;
use market::Mode;
use records::rows;
use records::rows::{Constraint, UnitRow};

// The lines of a unit row, where the account owns it.
fn own_unit(
    buf: &mut [u8],
    place: usize,
    r: Constraint,
    p: Pools,
    q: UnitRow,
    account: u32,
) -> usize
    requires line_room { LineRoom buf.old place (length (own_lines account r p q)) }
    requires small_pools { SmallPools p }
    requires unit_rule { UnitRule q }
    ensures { Emitted buf.old place (own_lines account r p q) buf.new result }
{
    if q.account != account {
        return place;
    }
    emission::emit_unit(buf, place, r, p, q)
}

// Where a walk stands: at which unit row, and where its lines end in the buffer.
#[derive(Clone, Copy)]
pub struct Cursor {
    pub next: usize,
    pub place: usize,
}

// The unit lines of one constraint, from the first of its unit rows on. `lookup` has a loop over the same rows: one walk for both would take what is
// done at a row as a closure, which writes on here and may stop with a line there, and would be no plainer.
fn unit_run(
    buf: &mut [u8],
    units: &[u8],
    m: usize,
    from: Cursor,
    r: Constraint,
    p: Pools,
    account: u32,
) -> Cursor
    requires m_in_bounds { m * 20 ≤ length units.now }
    requires walked { Walked (unit_row units.now) m }
    requires stands { Stands (key_of (unit_row units.now)) m r.id from.next }
    requires small_pools { SmallPools p }
    requires line_room { LineRoom buf.old from.place (length (joined (unit_lines_at (unit_row units.now) account r p) m)) }
    ensures { UnitsDone (unit_row units.now) m account r p buf.old from.place buf.new result }
{
    let mut end = from.place;
    for u in from.next..m {
        let q = rows::unit_row(units, u);
        if q.constraint != r.id {
            return Cursor {
                next: u,
                place: end,
            };
        }
        end = own_unit(buf, end, r, p, q, account);
    }
    Cursor {
        next: m,
        place: end,
    }
}

// All lines of one constraint. A constraint of mode 0 has no unit rows, and the cursor stays.
#[inline(never)] // so that its lines have room on the stack no longer than they are made
pub fn constraint_lines(
    buf: &mut [u8],
    units: &[u8],
    m: usize,
    from: Cursor,
    r: Constraint,
    share: Share,
    account: u32,
) -> Cursor
    requires m_in_bounds { m * 20 ≤ length units.now }
    requires walked { Walked (unit_row units.now) m }
    requires stands { Stands (key_of (unit_row units.now)) m r.id from.next }
    requires settles { Settles (unit_row units.now) m r share.own share.total }
    requires line_room { LineRoom buf.old from.place (length (con_lines (unit_row units.now) m account r share.own share.total)) }
    ensures { LinesDone (unit_row units.now) m r (con_lines (unit_row units.now) m account r share.own share.total) buf.old from.place buf.new result }
{
    let portion = Portion {
        own: share.own,
        total: share.total,
    };
    if r.mode == Mode::CONTINGENCY {
        let line = make::contingency_line(r, portion);
        let end = statement::put_line(buf, from.place, line);
        return Cursor {
            next: from.next,
            place: end,
        };
    }
    let p = pools::pools_of(r);
    let walked = unit_run(buf, units, m, from, r, p, account);
    let x = pools::residual_of(r, p);
    let end = emission::emit_rest(buf, walked.place, r, x, portion);
    Cursor {
        next: walked.next,
        place: end,
    }
}
