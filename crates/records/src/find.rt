// A record of a sorted section, found by binary search. A record starts with the number that its section is sorted by first.
ghost use Rattle.std.specs.Prelude.{◌≡◌, ◌*◌, ◌≤◌, length};
ghost use Rattle.sections.specs.Inner.Order.{Keeps};
ghost use Rattle.sections.specs.Inner.Walk.{Stands, at_key};
ghost use Rattle.records.specs.Inner.Lead.{lead_at};

use ground::read;

// The first of n records whose leading number is not below the key. The numbers do not fall, so half of what is left is put aside at each turn.
pub fn first_from(s: &[u8], size: usize, n: usize, key: u32) -> usize
    requires size_in_bounds { (n * size ≤ length s.now) × (4 ≤ size) }
    requires keeps { Keeps (lead_at s.now size) n }
    ensures { Stands (lead_at s.now size) n key result }
{
    let mut low = 0;
    let mut high = n;
    // The records are bytes, so std's search over the elements of a slice does not serve.
    while low < high {
        let middle = low + (high - low) / 2;
        if read::u32_at(s, middle * size) < key {
            low = middle + 1;
        } else {
            high = middle;
        }
    }
    low
}

// Whether record i is there and its leading number is the key.
pub fn has_key(s: &[u8], size: usize, n: usize, i: usize, key: u32) -> bool
    requires { (n * size ≤ length s.now) × (4 ≤ size) }
    ensures { result ≡ at_key (lead_at s.now size) n key i }
{
    if n <= i {
        return false;
    }
    read::u32_at(s, i * size) == key
}
