// The names met on the walk, so that an entry is compared with another one only where both may have the same name.
// A cell has the page of an entry that was met, and a mark of its name. A name is looked for from cell to cell as its hash
// goes on; an empty cell ends the search, so a name that was met is found before it. The cells are fixed memory that is lent:
// the project uses no heap, so no set of std's.
ghost use Rattle.std.specs.Prelude.{◌≡◌, ◌^◌, ◌<◌, ◌≤◌, length, drop};
ghost use Rattle.tree.specs.Card.{view_of};
ghost use Rattle.tree.specs.Met.{Small, hash_of, is_met, is_same, mixed, most_pages, three_of, with_name};

use crate::card::Card;
use crate::slots::is_slot;
use fields::numbers::byte_in;
use model::MOST_CLUSTERS;

// As many cells as a card has pages in its allocatable clusters.
pub(crate) const CELLS: usize = 2 * MOST_CLUSTERS;

// Marks of names; one of them and a page fit a word.
const MARKS: u64 = 32_767;

// What a name's bytes are mixed into: a residue for each of three primes. That they are residues stands in the clauses
// of the functions that make hashes, and is no ghost field: the definitions make hashes too, and each would have to prove it.
#[derive(Drop)]
pub(crate) struct Hash {
    pub(crate) a: u64,
    pub(crate) b: u64,
    pub(crate) c: u64,
}

// Squares have no linear structure: names that meet in a cell cannot be computed from others, only tried.
fn mix(h: Hash, x: u64) -> Hash
    requires { Small h × (x < 2 ^ 24) }
    ensures { (result ≡ mixed h x) × Small result }
{
    let p = h.a + h.c + x;
    let q = h.b + h.a + x;
    let s = h.c + h.b + x;
    Hash {
        a: p * p % 2_139_095_017,
        b: q * q % 2_139_095_011,
        c: s * s % 2_139_094_963,
    }
}

// Three bytes of a name from `at` on, as one number; past the end they are zero.
fn three_at(name: &[u8], at: usize) -> u64
    requires { at ≤ length name.now }
    ensures { (result ≡ three_of (drop at name.now)) × (result < 2 ^ 24) }
{
    let rest = &name[at..];
    u64::from(byte_in(rest, 0))
        + 256 * u64::from(byte_in(rest, 1))
        + 65_536 * u64::from(byte_in(rest, 2))
}

// A name's hash in the directory that begins with cluster `first`: the same name goes elsewhere in another directory.
// Three bytes to a turn, and one turn more, so that the last of them do not lead straight to a cell.
fn name_hash(first: u32, name: &[u8]) -> Hash
    ensures { (result ≡ hash_of first name.now) × Small result }
{
    let mut h = Hash {
        a: u64::from(first) % 2_139_095_017,
        b: 1_234_567_891,
        c: 987_654_321,
    };
    let turns = name.len() / 3 + 1;
    for k in 0..turns {
        h = mix(h, three_at(name, 3 * k));
    }
    mix(h, 0)
}

// Whether a cell's word is the name's: its mark, the name in its page, and that this is a slot before slot k. The name comes
// first: marks that agree can be picked, and the slots are passed one by one.
fn is_same(card: &Card, start: u32, k: u32, name: &[u8], mark: usize, word: u32) -> bool
    ensures { result ≡ is_same (view_of card.now) card.now.table.now start k name.now mark word }
{
    let whole = word as usize;
    if whole / CELLS != mark {
        return false;
    }
    let page = whole % CELLS;
    card.named_at(page, name) && is_slot(card.table, start, k, page)
}

// Whether a live entry before slot k may have the name, which the entry of slot k in `page` has; now it is met too.
pub(crate) fn meet(
    card: &Card,
    first: u32,
    start: u32,
    k: u32,
    page: usize,
    name: &[u8],
    cells: &mut [u32; CELLS],
) -> bool
    requires { page < most_pages }
    ensures value { result ≡ is_met (view_of card.now) card.now.table.now first start k name.now cells.old }
    ensures cells_after { cells.new ≡ with_name (view_of card.now) card.now.table.now first start k name.now page cells.old }
{
    let mut h = name_hash(first, name);
    let mark = (h.a % MARKS) as usize + 1;
    for _ in 0..CELLS {
        let i = h.c as usize % CELLS;
        let word = cells[i];
        if word == 0 {
            cells[i] = (mark * CELLS + page) as u32;
            return false;
        }
        if is_same(card, start, k, name, mark, word) {
            return true;
        }
        h = mix(h, 0);
    }
    true
}
