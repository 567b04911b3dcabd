// The accounts of a book: each that an energy row or a unit row names, counted once.
// The unit rows come first, in a tree: an account's key has 32 bits, of which the first 8 choose one of 256 roots and each further bit one of
// two children, until the place is empty or has a row of the account. No two accounts have the same key, so no way is longer than 25 links,
// whatever the accounts are. The energy rows are sorted by account, and each account of theirs is looked up once.
#![tactic(auto)]

ghost use Rattle.std.specs.Prelude.{◌≡◌, [], ◌+◌, ◌*◌, ◌≤◌, ◌<◌, length};
ghost use Rattle.records.specs.Rows.{energy_row, unit_row};
ghost use Rattle.census.specs.Inner.Tree.{key_of, root_of, child_of, Place, Grown};
ghost use Rattle.sharing.specs.Once.{has, named};
ghost use Rattle.sharing.specs.Inner.Seen.{seen, newly};
ghost use Rattle.sharing.specs.Accounts.{energy_account, unit_account, accounts_in};
ghost use Rattle.sharing.specs.Inner.Shares.{Sorted};

use ground::read;

pub fn energy_account(energy: &[u8], i: usize) -> u32
    requires { (i + 1) * 24 ≤ length energy.now }
    ensures { result ≡ (energy_row energy.now i).account }
{
    read::u32_at(energy, i * 24)
}

pub fn unit_account(units: &[u8], u: usize) -> u32
    requires { (u + 1) * 20 ≤ length units.now }
    ensures { result ≡ (unit_row units.now u).account }
{
    read::u32_at(units, u * 20 + 8)
}

// The key of an account, by whose bits it is looked for in the tree.
fn key(a: u32) -> u32
    ensures { result ≡ key_of a }
{
    a.wrapping_mul(2_654_435_761)
}

// The root at which a key starts.
fn root(key: u32) -> usize
    ensures { (result ≡ root_of key) × (result < 256) }
{
    (key >> 24) as usize
}

// The slot of a child of the row behind a link: the first bit says which.
fn child(link: usize, bits: u32) -> usize
    requires { link ≤ 600 }
    ensures { result ≡ child_of link bits }
{
    254 + 2 * link + (bits >> 31) as usize
}

// The place of an account in the tree of the first u unit rows: the first slot on its way that is empty or has a row of the account.
fn find(units: &[u8], u: usize, links: &[u16; 1456], a: u32) -> usize
    requires u_bound { (u ≤ 600) × (u * 20 ≤ length units.now) }
    requires grown { Grown (unit_account (unit_row units.now)) u links.now }
    ensures upper_bound { result < 256 + 2 * u }
    ensures place { Place (unit_account (unit_row units.now)) links.now a result }
{
    let k = key(a);
    let mut slot = root(k);
    let mut bits = k << 8;
    let mut link = links[slot] as usize;
    // From row to row of the way: how long it is shows only at its end.
    while 0 < link {
        if unit_account(units, link - 1) == a {
            return slot;
        }
        slot = child(link, bits);
        bits <<= 1;
        link = links[slot] as usize;
    }
    slot
}

// Whether one of the first u unit rows names the account.
pub fn in_units(units: &[u8], u: usize, links: &[u16; 1456], a: u32) -> bool
    requires u_bound { (u ≤ 600) × (u * 20 ≤ length units.now) }
    requires grown { Grown (unit_account (unit_row units.now)) u links.now }
    ensures { result ≡ seen (unit_account (unit_row units.now)) u a }
{
    0 < links[find(units, u, links, a)]
}

// 1 where no unit row before u names the account of unit row u, which is then put in the tree, else 0.
pub fn new_unit(units: &[u8], u: usize, links: &mut [u16; 1456]) -> usize
    requires u_bound { (u < 600) × ((u + 1) * 20 ≤ length units.now) }
    requires grown { Grown (unit_account (unit_row units.now)) u links.old }
    ensures value { result ≡ newly (seen (unit_account (unit_row units.now)) u (unit_row units.now u).account) }
    ensures grown_2 { Grown (unit_account (unit_row units.now)) (u + 1) links.new }
{
    let slot = find(units, u, links, unit_account(units, u));
    if 0 < links[slot] {
        return 0;
    }
    links[slot] = (u + 1) as u16;
    1
}

// How many accounts the unit rows name. All of them are put in the tree.
fn unit_accounts(units: &[u8], m: usize, links: &mut [u16; 1456]) -> usize
    requires m_bound { (m ≤ 600) × (m * 20 ≤ length units.now) }
    requires grown { Grown (unit_account (unit_row units.now)) 0 links.old }
    ensures value { result ≡ length (named (unit_account (unit_row units.now)) m []) }
    ensures grown_2 { Grown (unit_account (unit_row units.now)) m links.new }
{
    let mut count = 0;
    for u in 0..m {
        count += new_unit(units, u, links);
    }
    count
}

// Whether an energy row before i names the account of energy row i: the one just before it tells.
pub fn goes_on(energy: &[u8], n: usize, i: usize) -> bool
    requires n_in_bounds { (n * 24 ≤ length energy.now) × (i < n) }
    requires sorted { Sorted (energy_row energy.now) n }
    ensures { result ≡ seen (energy_account (energy_row energy.now)) i (energy_row energy.now i).account }
{
    if i == 0 {
        return false;
    }
    energy_account(energy, i - 1) == energy_account(energy, i)
}

// 1 where no unit row and no energy row before i names the account of energy row i, else 0.
fn new_energy(
    energy: &[u8],
    n: usize,
    i: usize,
    units: &[u8],
    m: usize,
    links: &[u16; 1456],
) -> usize
    requires n_in_bounds { ((n * 24 ≤ length energy.now) × (i < n)) × ((m ≤ 600) × (m * 20 ≤ length units.now)) }
    requires sorted { Sorted (energy_row energy.now) n }
    requires grown { Grown (unit_account (unit_row units.now)) m links.now }
    ensures { result ≡ newly (has (energy_row energy.now i).account (named (energy_account (energy_row energy.now)) i (named (unit_account (unit_row units.now)) m []))) }
{
    if goes_on(energy, n, i) {
        return 0;
    }
    if in_units(units, m, links, energy_account(energy, i)) {
        return 0;
    }
    1
}

// How many accounts the book has. Those of its unit rows are put in the tree.
pub fn grown_accounts(
    energy: &[u8],
    n: usize,
    units: &[u8],
    m: usize,
    links: &mut [u16; 1456],
) -> usize
    requires n_in_bounds { (n * 24 ≤ length energy.now) × ((m ≤ 600) × (m * 20 ≤ length units.now)) }
    requires sorted { Sorted (energy_row energy.now) n }
    requires grown { Grown (unit_account (unit_row units.now)) 0 links.old }
    ensures value { (result ≡ length (accounts_in (energy_row energy.now) n (unit_row units.now) m)) × (result ≤ 1624) }
    ensures grown_2 { Grown (unit_account (unit_row units.now)) m links.new }
{
    let mut count = unit_accounts(units, m, links);
    for i in 0..n {
        count += new_energy(energy, n, i, units, m, links);
    }
    count
}

// How many accounts the book has.
pub fn all_accounts(energy: &[u8], n: usize, units: &[u8], m: usize) -> usize
    requires n_in_bounds { (n * 24 ≤ length energy.now) × ((m ≤ 600) × (m * 20 ≤ length units.now)) }
    requires sorted { Sorted (energy_row energy.now) n }
    ensures { (result ≡ length (accounts_in (energy_row energy.now) n (unit_row units.now) m)) × (result ≤ 1624) }
{
    let mut links = [0u16; 1456];
    grown_accounts(energy, n, units, m, &mut links)
}
