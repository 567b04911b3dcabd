// Where a pool of a number stands: pools are numbered from 0 in book order.
ghost use Rattle.std.specs.Prelude.{◌≡◌, ◌*◌, ◌≤◌, ◌<◌, length};
ghost use Rattle.records.specs.Rows.{constraint_row};
ghost use Rattle.balance.specs.Pools.{constraint_pools};
ghost use Rattle.balance.specs.Inner.Places.{KindIs, PlaceIs};

use market::Mode;
use records::rows;
use records::rows::Constraint;
use recovery::kinds::Kind;

// A pool of a constraint, or a contract's pool.
#[derive(Clone, Copy)]
pub enum Place {
    Constraint(usize, Kind),
    Contract(usize),
}

// How many pools a constraint has.
fn pools_in(r: Constraint) -> u64
    ensures { result ≡ length (constraint_pools r) }
{
    if r.mode == Mode::FACTORED { 3 } else { 1 }
}

// Which of a constraint's pools stands at a place among them.
fn kind_at(r: Constraint, place: u64) -> Kind
    requires { place < length (constraint_pools r) }
    ensures { KindIs r place result }
{
    match (r.mode, place) {
        (Mode::CONTINGENCY, _) => Kind::Contingency,
        (Mode::FACTORED, 0) => Kind::Fpp,
        (Mode::FACTORED, 1) => Kind::Used,
        _ => Kind::Unused,
    }
}

// The place of the pool of a number, if it is not past the end, with n constraints and a number of contracts.
pub fn place_of(cons: &[u8], n: usize, contracts: usize, number: u64) -> Option<Place>
    requires { n * 40 ≤ length cons.now }
    ensures { PlaceIs (constraint_row cons.now) n contracts number result }
{
    let mut left = number;
    for j in 0..n {
        let r = rows::constraint_row(cons, j);
        let pools = pools_in(r);
        if left < pools {
            return Some(Place::Constraint(j, kind_at(r, left)));
        }
        left -= pools;
    }
    if left < (contracts as u64) {
        return Some(Place::Contract(left as usize));
    }
    None
}
