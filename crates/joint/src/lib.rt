// The accounts of two books together, of which the second is called locked: each that a row of either names, counted once.
// The first book's accounts are counted with the tree of its unit rows, and the locked book's energy rows are looked up in both. A mark for each
// unit row of the locked book says whether the first book has its account. Then the first tree is no longer needed: its array takes the tree of
// the locked book's unit rows, and those that are new there, not marked and without an energy row are counted. A second array would not fit
// the stack that a call may use.
#![tactic(auto)]

ghost use Rattle.std.specs.Prelude.{◌≡◌, ℕ, ◌+◌, ◌*◌, ◌%◌, ◌≤◌, ◌<◌, length};
ghost use Rattle.sections.specs.Total.{total};
ghost use Rattle.sharing.specs.Once.{has};
ghost use Rattle.sharing.specs.Inner.Seen.{seen};
ghost use Rattle.sharing.specs.Accounts.{energy_account, unit_account};
ghost use Rattle.census.specs.Inner.Tree.{Grown};
ghost use Rattle.joint.specs.Names.{energies_of, units_of, accounts_of, accounts_of_both};
ghost use Rattle.joint.specs.Inner.Laid.{NamesLaid};
ghost use Rattle.joint.specs.Inner.Marks.{left_for, marked, Word};
ghost use Rattle.joint.specs.Inner.Added.{energy_adds, unit_known, unit_adds};

use named::{Named, Planted};
use records::find;

mod named; // named.rt: a book lent with its rows, and with their tree

// Where the rows that name a book's accounts stand in its bytes, and how many they are: n energy rows and m unit rows.
#[derive(Clone, Copy)]
pub struct NamingRows {
    pub energies: usize,
    pub n: usize,
    pub units: usize,
    pub m: usize,
}

// Whether an energy row names the account.
fn in_energies(book: &Named, a: u32) -> bool
    ensures { result ≡ seen (energy_account (energies_of book.now.book.now book.now.rows)) book.now.rows.n a }
{
    let energy = &book.book[book.rows.energies..];
    let i = find::first_from(energy, 24, book.rows.n, a);
    find::has_key(energy, 24, book.rows.n, i, a)
}

// Whether the book has the account.
fn in_book(book: &Planted, a: u32) -> bool
    ensures { result ≡ has a (accounts_of book.now.named.book.now book.now.named.rows) }
{
    let rows = book.named.rows;
    if census::in_units(&book.named.book[rows.units..], rows.m, book.links, a) {
        return true;
    }
    in_energies(&book.named, a)
}

// What the locked book's energy row i adds to the number of accounts.
fn energy_adds(first: &Planted, locked: &Named, i: usize) -> usize
    requires { i < locked.now.rows.n }
    ensures { result ≡ energy_adds first.now.named.book.now first.now.named.rows locked.now.book.now locked.now.rows i }
{
    let energy = &locked.book[locked.rows.energies..];
    if census::goes_on(energy, locked.rows.n, i) {
        return 0;
    }
    if in_book(first, census::energy_account(energy, i)) {
        return 0;
    }
    1
}

// What the locked book's energy rows add to the number of accounts.
fn energies_add(first: &Planted, locked: &Named) -> usize
    ensures { (result ≡ total (energy_adds first.now.named.book.now first.now.named.rows locked.now.book.now locked.now.rows) locked.now.rows.n) × (result ≤ 1024) }
{
    let mut count = 0;
    for i in 0..locked.rows.n {
        count += energy_adds(first, locked, i);
    }
    count
}

// Whether the first book has the account of the locked book's unit row u.
fn unit_known(first: &Planted, locked: &Named, u: usize) -> bool
    requires { u < locked.now.rows.m }
    ensures { result ≡ unit_known first.now.named.book.now first.now.named.rows locked.now.book.now locked.now.rows u }
{
    in_book(
        first,
        census::unit_account(&locked.book[locked.rows.units..], u),
    )
}

// Behind which row the word ends that begins at row k: 64 rows on, or at the end of all m.
fn word_end(k: usize, m: usize) -> usize
    requires { (k < m) × (m ≤ 600) }
    ensures lower_bound { (k < result) × ((result ≤ m) × (result ≤ k + 64)) }
    ensures by_index { (u : ℕ) → u < m → u < k + 64 → u < result }
{
    if m < k + 64 {
        return m;
    }
    k + 64
}

// A word of marks: which of the locked book's unit rows from row k on have an account of the first book. The last row's mark goes in first, so
// that the first row's comes out first.
fn known_word(first: &Planted, locked: &Named, k: usize) -> u64
    requires { k < locked.now.rows.m }
    ensures { Word (unit_known first.now.named.book.now first.now.named.rows locked.now.book.now locked.now.rows) locked.now.rows.m k result }
{
    let end = word_end(k, locked.rows.m);
    let mut w: u64 = 0;
    for u in (k..end).rev() {
        w *= 2;
        if unit_known(first, locked, u) {
            w += 1;
        }
    }
    w
}

// Marks those of the locked book's unit rows whose account the first book has.
fn mark_known(first: &Planted, locked: &Named, marks: &mut [u64; 10])
    ensures { (u : ℕ) → u < locked.now.rows.m → marked marks.new u ≡ unit_known first.now.named.book.now first.now.named.rows locked.now.book.now locked.now.rows u }
{
    for k in 0..locked.rows.m.div_ceil(64) {
        marks[k] = known_word(first, locked, k * 64);
    }
}

// What is left of its word when row u is next: a new word, or w, which the row before left.
fn next_word(marks: &[u64; 10], u: usize, w: u64) -> u64
    requires u_bound { u < 640 }
    requires w_value { (u % 64 ≡ 0 → ⊥) → w ≡ left_for marks.now u }
    ensures { result ≡ left_for marks.now u }
{
    if u % 64 == 0 {
        return marks[u / 64];
    }
    w
}

// What the locked book's unit row u adds to the number of accounts; known says whether the first book has its account. A new row is put in the
// tree in either case.
fn unit_adds(locked: &Named, u: usize, known: bool, links: &mut [u16; 1456]) -> usize
    requires in_bounds { u < locked.now.rows.m }
    requires grown { Grown (unit_account (units_of locked.now.book.now locked.now.rows)) u links.old }
    ensures value { result ≡ unit_adds locked.now.book.now locked.now.rows known u }
    ensures grown_2 { Grown (unit_account (units_of locked.now.book.now locked.now.rows)) (u + 1) links.new }
{
    let units = &locked.book[locked.rows.units..];
    let x = census::new_unit(units, u, links);
    if known {
        return 0;
    }
    if x == 0 {
        return 0;
    }
    if in_energies(locked, census::unit_account(units, u)) {
        return 0;
    }
    1
}

// What the locked book's unit rows add to the number of accounts; a mark says of each whether the first book has its account.
fn units_add(locked: &Named, marks: &[u64; 10], links: &mut [u16; 1456]) -> usize
    requires { Grown (unit_account (units_of locked.now.book.now locked.now.rows)) 0 links.old }
    ensures { (result ≡ total (λ u. unit_adds locked.now.book.now locked.now.rows (marked marks.now u) u) locked.now.rows.m) × (result ≤ 600) }
{
    let mut count = 0;
    let mut w: u64 = 0;
    for u in 0..locked.rows.m {
        w = next_word(marks, u, w);
        count += unit_adds(locked, u, w % 2 == 1, links);
        w /= 2;
    }
    count
}

// How many accounts two books have together.
pub fn both_accounts(book: &[u8], p: NamingRows, locked: &[u8], q: NamingRows) -> usize
    requires names_laid { NamesLaid book.now p }
    requires names_laid_2 { NamesLaid locked.now q }
    ensures { (result ≡ length (accounts_of_both book.now p locked.now q)) × (result ≤ 3248) }
{
    let named = Named { book, rows: p };
    let locked = Named {
        book: locked,
        rows: q,
    };
    let mut links = [0u16; 1456];
    let first = census::grown_accounts(&book[p.energies..], p.n, &book[p.units..], p.m, &mut links);
    let planted = Planted {
        named,
        links: &links,
    };
    let more = energies_add(&planted, &locked);
    let mut marks = [0u64; 10];
    mark_known(&planted, &locked, &mut marks);
    links = [0u16; 1456];
    first + more + units_add(&locked, &marks, &mut links)
}
