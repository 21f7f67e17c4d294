// The clusters that chains reach: their record, the walk of one chain, and the orphans of the allocation table.
#![tactic(auto)]

pub mod takeable;

ghost use Rattle.std.specs.Prelude.{◌≡◌, ◌<◌, get_or};
ghost use Rattle.reached.specs.Marks.{mark_words, marked_in, no_marks, current_mark, put_word, with_mark, words_of};
ghost use Rattle.reached.specs.Chain.{chain_behind, near_behind, step_at};
ghost use Rattle.reached.specs.Totals.{orphans_in};

pub use model::END_MARK;
use model::MOST_CLUSTERS;

// A table word below this is free.
pub const TOP_BIT: u32 = 0x8000_0000;

// The words of the record, 64 marks to a word.
pub const MARK_WORDS: usize = MOST_CLUSTERS / 64;

// Words that make a record a whole number of cache lines. Without them two records in a row lie some bytes off modulo 4,096,
// and the copy of one into the other waits for its own stores (measured: 2,300 ns, with them 80).
pub const SPARE_WORDS: usize = 5;

// The clusters reached so far: a mark for each cluster, and how many marks are set. Word `at` is the current one: its marks are
// in `current` and not among the words, so that a mark in it changes no array, and a method by value copies none.
#[derive(Drop)]
pub struct Reached {
    pub words: [u64; MARK_WORDS],
    pub count: usize,
    pub at: usize,
    pub current: u64,
    pub spare: [u64; SPARE_WORDS],
}

// Whether a cluster is marked in these words. The loop lends them, so that a test copies no record.
#[tactic(auto, unfolding(crate::specs::Marks::marked_in))]
fn has_mark(words: &[u64; MARK_WORDS], c: usize) -> bool
    ensures { result ≡ marked_in words.now c }
{
    if MOST_CLUSTERS <= c {
        return false;
    }
    (words[c / 64] >> (c % 64)) % 2 == 1
}

// Whether a cluster of the current word is marked.
fn has_current(current: u64, c: usize) -> bool
    ensures { result ≡ current_mark current c }
{
    (current >> (c % 64)) % 2 == 1
}

// A word put in its place, where it is one of the record's: a test, since of what is written through `get_mut` no proof knows
// the other words.
fn put_word(words: &mut [u64; MARK_WORDS], at: usize, word: u64)
    ensures { words.new ≡ put_word words.old at word }
{
    if at < MARK_WORDS {
        words[at] = word;
    }
}

// All words of a record, the current one in its place.
#[tactic(auto, unfolding(crate::specs::Marks::words_of))]
fn all_words(reached: Reached) -> [u64; MARK_WORDS]
    ensures { result ≡ words_of reached }
{
    let mut words = reached.words;
    put_word(&mut words, reached.at, reached.current);
    words
}

// The current word is put in its place, and word k is handed out to be the current one.
fn turn(words: &mut [u64; MARK_WORDS], at: usize, current: u64, k: usize) -> u64
    requires { k < mark_words }
    ensures { (words.new ≡ put_word words.old at current) × (result ≡ get_or (put_word words.old at current) k 0) }
{
    put_word(words, at, current);
    words[k]
}

impl Reached {
    // the record at the start of a walk
    #[tactic(auto, unfolding(crate::specs::Marks::no_marks))]
    pub fn new() -> Reached
        ensures { result ≡ no_marks }
    {
        Reached {
            words: [0u64; MARK_WORDS],
            count: 0,
            at: 0,
            current: 0,
            spare: [0u64; SPARE_WORDS],
        }
    }

    // The record with that one mark more, or the old one where it was set. Only a cluster of the current word is marked.
    #[tactic(auto, unfolding(crate::specs::Marks::with_mark, crate::specs::Marks::with_bit))]
    pub fn mark(self, c: usize) -> Reached
        ensures { result ≡ with_mark self c }
    {
        let words = self.words;
        let spare = self.spare;
        let n = self.count;
        if (c / 64 == self.at) & ((n < MOST_CLUSTERS) & !has_current(self.current, c)) {
            return Reached {
                words,
                count: n + 1,
                at: self.at,
                current: self.current | (1u64 << (c % 64)),
                spare,
            };
        }
        self
    }
}

// What the walk of a chain does at a cluster: whether it marks it, which cluster is next, and how many are left from that one on.
// Where none is left the chain is over, sound or not. Its fields go one by one into the walk's own, so an enum would be no plainer.
#[derive(Drop)]
struct Step {
    marks: bool,
    sound: bool,
    next: u32,
    left: u32,
}

// At a cluster of the current word.
fn step_at(table: &[u32], current: u64, c: u32, left: u32) -> Step
    requires { 0 < left }
    ensures { result ≡ step_at table.now current c left }
{
    let broken = Step {
        marks: false,
        sound: false,
        next: c,
        left: 0,
    };
    let behind = left - 1;
    let i = c as usize;
    if table.len() <= i {
        return broken;
    }
    let w = table[i];
    if w < TOP_BIT {
        return broken;
    }
    if has_current(current, i) {
        return broken;
    }
    if w == END_MARK {
        return Step {
            marks: true,
            sound: behind == 0,
            next: c,
            left: 0,
        };
    }
    Step {
        marks: true,
        sound: false,
        next: w - TOP_BIT,
        left: behind,
    }
}

// A chain as far as it was followed in the current word, with the record of the clusters passed. Where clusters are left, the
// next one lies in another word.
#[derive(Drop)]
pub struct Near {
    pub reached: Reached,
    pub sound: bool,
    pub next: u32,
    pub left: u32,
}

// The chain of exactly that many clusters behind an entry's first cluster, as far as it stays in the current word. The array of
// the record stays as it is and there is one way out, so that who calls it copies no array either.
pub fn walk_near(table: &[u32], reached: Reached, first: u32, clusters: u32) -> Near
    ensures { result ≡ near_behind table.now reached first clusters }
{
    let mut r = reached;
    let mut sound = (clusters == 0) & (first == END_MARK);
    let mut c = first;
    let mut left = clusters;
    // No `for`: it also ends where the next cluster lies in another word, and what is left goes on from there.
    while (0 < left) & (c as usize / 64 == r.at) {
        let step = step_at(table, r.current, c, left);
        if step.marks {
            r = r.mark(c as usize);
        }
        sound = step.sound;
        c = step.next;
        left = step.left;
    }
    Near {
        reached: r,
        sound,
        next: c,
        left,
    }
}

// The record with the clusters that the walk of a chain passed, and whether the chain is sound. An Option of the record is
// copied: with it the whole check took 10 to 14 percent more instructions, and it is held to a bar that is near. So for `Near`.
#[derive(Drop)]
pub struct Chain {
    pub reached: Reached,
    pub sound: bool,
}

// The chain of exactly that many clusters behind an entry's first cluster; the root's begins at cluster 0.
// The table is the words below alloc_end.
pub fn walk_chain(table: &[u32], reached: Reached, first: u32, clusters: u32) -> Chain
    ensures { result ≡ chain_behind table.now reached first clusters }
{
    let mut r = reached;
    let mut sound = (clusters == 0) & (first == END_MARK);
    let mut c = first;
    let mut left = clusters;
    // No `for`: as many clusters are left as `walk_near` did not pass, and a cluster beyond all ends it.
    while (0 < left) & ((c as usize) < MOST_CLUSTERS) {
        let k = c as usize / 64;
        let at = r.at;
        if k != at {
            let current = r.current;
            let next = turn(&mut r.words, at, current, k);
            r.at = k;
            r.current = next;
        }
        let near = walk_near(table, r, c, left);
        r = near.reached;
        sound = near.sound;
        c = near.next;
        left = near.left;
    }
    Chain { reached: r, sound }
}

// Orphaned: the table word is not free, and no chain reaches the cluster. Never a remainder.
pub fn count_orphans(table: &[u32], reached: Reached) -> usize
    ensures { result ≡ orphans_in table.now reached }
{
    let words = all_words(reached);
    let mut n: usize = 0;
    for (i, word) in table.iter().enumerate() {
        if (TOP_BIT <= *word) & !has_mark(&words, i) {
            n += 1;
        }
    }
    n
}
