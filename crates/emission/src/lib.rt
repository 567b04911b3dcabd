// Lines that belong together, written in their order from a place of the buffer on: those of a unit row, and those of a constraint's residual.
// Each writer answers where its lines end.
#![tactic(auto)]

ghost use Rattle.std.specs.Prelude.{[], ◌∷◌, length};
ghost use Rattle.rules.specs.Inner.Facts.{UnitRule};
ghost use Rattle.amounts.specs.Inner.Bounds.{SmallPools, SmallResidual};
ghost use Rattle.lines.specs.Lines.{unit_lines, rest_lines};
ghost use Rattle.emission.specs.Inner.Emitted.{Emitted, LineRoom};

use amounts::pools::{Pools, Residual};
use lines::make;
use lines::portion::Portion;
use market::Mode;
use records::rows::{Constraint, UnitRow};
use statement::Line;

pub fn emit_two(buf: &mut [u8], place: usize, first: Line, second: Line) -> usize
    requires { LineRoom buf.old place 2 }
    ensures { Emitted buf.old place (first ∷ second ∷ []) buf.new result }
{
    let next = statement::put_line(buf, place, first);
    statement::put_line(buf, next, second)
}

fn emit_three(buf: &mut [u8], place: usize, first: Line, second: Line, third: Line) -> usize
    requires { LineRoom buf.old place 3 }
    ensures { Emitted buf.old place (first ∷ second ∷ third ∷ []) buf.new result }
{
    let next = statement::put_line(buf, place, first);
    emit_two(buf, next, second, third)
}

// In mode 2 a unit has its unused line alone. A residual's lines go the same way, below: one function for both would take three closures or a trait
// of three methods for its six lines, and would be no plainer.
pub fn emit_unit(buf: &mut [u8], place: usize, r: Constraint, p: Pools, q: UnitRow) -> usize
    requires line_room { LineRoom buf.old place (length (unit_lines r p q)) }
    requires small_pools { SmallPools p }
    requires unit_rule { UnitRule q }
    ensures { Emitted buf.old place (unit_lines r p q) buf.new result }
{
    let unused = make::unused_line(r, p, q);
    if r.mode == Mode::FACTORED {
        let fpp = make::fpp_line(r, p, q);
        let used = make::used_line(r, p, q);
        return emit_three(buf, place, fpp, used, unused);
    }
    statement::put_line(buf, place, unused)
}

// In mode 2 the residual has its unused line alone.
pub fn emit_rest(
    buf: &mut [u8],
    place: usize,
    r: Constraint,
    x: Residual,
    portion: Portion,
) -> usize
    requires line_room { LineRoom buf.old place (length (rest_lines r x portion.own portion.total)) }
    requires small_residual { SmallResidual x }
    ensures { Emitted buf.old place (rest_lines r x portion.own portion.total) buf.new result }
{
    let unused = make::unused_rest(r, x, portion);
    if r.mode == Mode::FACTORED {
        let fpp = make::fpp_rest(r, x, portion);
        let used = make::used_rest(r, x, portion);
        return emit_three(buf, place, fpp, used, unused);
    }
    statement::put_line(buf, place, unused)
}
