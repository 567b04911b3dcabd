// Check 7: a unit row names a constraint of the book that is not of mode 0.
ghost use Rattle.std.specs.Prelude.{◌≡◌, ◌+◌, ◌*◌, ◌≤◌, length};
ghost use Rattle.sections.specs.First.{first_bad};
ghost use Rattle.sections.specs.Inner.Order.{Rises, Keeps};
ghost use Rattle.sections.specs.Inner.Walk.{Under, Sought};
ghost use Rattle.records.specs.Rows.{constraint_row, unit_row};
ghost use Rattle.factors.specs.Naming.{id_of, key_of, named_at};

use market::Mode;
use records::rows;

// The place of the key among the constraints' ids, looked for from a place before which no id is as large.
pub fn seek(cons: &[u8], n: usize, from: usize, key: u32) -> usize
    requires n_in_bounds { (n * 40 ≤ length cons.now) × (from ≤ n) }
    requires under { Under (id_of (constraint_row cons.now)) from key }
    ensures { Sought (id_of (constraint_row cons.now)) n key result }
{
    for c in from..n {
        let r = rows::constraint_row(cons, c);
        if r.id >= key {
            return c;
        }
    }
    n
}

// Whether unit row u, whose key has its place at c, names a constraint that is not of mode 0.
fn named(cons: &[u8], n: usize, units: &[u8], u: usize, c: usize) -> bool
    requires n_in_bounds { (n * 40 ≤ length cons.now) × ((u + 1) * 20 ≤ length units.now) }
    requires rises { Rises (id_of (constraint_row cons.now)) n }
    requires sought { Sought (id_of (constraint_row cons.now)) n (key_of (unit_row units.now) u) c }
    ensures { result ≡ named_at (constraint_row cons.now) n (unit_row units.now) u }
{
    if c == n {
        return false;
    }
    let r = rows::constraint_row(cons, c);
    let q = rows::unit_row(units, u);
    (r.id == q.constraint) & (r.mode != Mode::CONTINGENCY)
}

// The first unit row that names no constraint here, or one of mode 0. The cursor c only moves forward.
pub fn names(cons: &[u8], n: usize, units: &[u8], m: usize) -> Option<usize>
    requires n_in_bounds { (n * 40 ≤ length cons.now) × (m * 20 ≤ length units.now) }
    requires rises { Rises (id_of (constraint_row cons.now)) n }
    requires keeps { Keeps (key_of (unit_row units.now)) m }
    ensures { result ≡ first_bad (named_at (constraint_row cons.now) n (unit_row units.now)) m }
{
    let mut c = 0;
    // Not `sections::first_bad`: a test that carries a cursor has a promise of every state that it comes to, which is no plainer than the loop.
    for u in 0..m {
        let q = rows::unit_row(units, u);
        c = seek(cons, n, c, q.constraint);
        if !named(cons, n, units, u, c) {
            return Some(u);
        }
    }
    None
}
