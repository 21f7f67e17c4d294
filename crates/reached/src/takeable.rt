// Which clusters may be taken, by the limit and the bad block list, and how many free table words there are of each kind.
ghost use Rattle.std.specs.Prelude.{◌≡◌, length};
ghost use Rattle.model.specs.Counts.{block_of, is_listed, may_take_on, take_limit};
ghost use Rattle.reached.specs.Blocks.{Knows};
ghost use Rattle.reached.specs.Totals.{free_words, held_words};

use crate::TOP_BIT;
use model::{BLOCK_CLUSTERS, STANDARD_CLUSTERS, TAIL_START};

// The first table index that no new cluster is taken from: where the reserved tail starts, on a card that has one, or alloc_end.
pub fn take_limit(clusters: u32, end: usize) -> usize
    ensures { result ≡ take_limit clusters end }
{
    if (clusters == STANDARD_CLUSTERS) & (TAIL_START < end) {
        return TAIL_START;
    }
    end
}

// Whether a word of the list names the erase block.
pub fn is_listed(bad: &[u32], block: usize) -> bool
    ensures { result ≡ is_listed bad.now block }
{
    bad.iter().any(|word| *word as usize == block)
}

// The erase block that was looked up last, and whether it is listed: the passes over the table go over the list once for
// each block.
#[derive(Drop)]
pub struct Looked {
    pub block: usize,
    pub listed: bool,
}

impl Looked {
    // block 0, at the start of a pass
    pub fn new(bad: &[u32]) -> Looked
        ensures { Knows bad.now result }
    {
        Looked {
            block: 0,
            listed: is_listed(bad, 0),
        }
    }

    // The block that a cluster of the card lies in.
    pub fn at(self, bad: &[u32], cluster: usize) -> Looked
        ensures { (result.block ≡ block_of cluster) × (Knows bad.now self → Knows bad.now result) }
    {
        let block = cluster / BLOCK_CLUSTERS;
        if block == self.block {
            return self;
        }
        Looked {
            block,
            listed: is_listed(bad, block),
        }
    }
}

// How many table words have their top bit clear, in two counts.
#[derive(Drop)]
pub struct Unused {
    pub free: usize,
    pub held: usize,
}

// Free: the top bit of the table word is clear, and the cluster may be taken: it lies below the limit, in no listed block.
// Held back: it is clear, and the cluster may not be taken. Neither is a remainder.
pub fn count_unused(table: &[u32], clusters: u32, offset: u32, bad: &[u32]) -> Unused
    ensures { (result.free ≡ free_words (may_take_on clusters (length table.now) offset bad.now) table.now) × (result.held ≡ held_words (may_take_on clusters (length table.now) offset bad.now) table.now) }
{
    let limit = take_limit(clusters, table.len());
    let mut last = Looked::new(bad);
    let mut free: usize = 0;
    let mut held: usize = 0;
    for (i, word) in table.iter().enumerate() {
        last = last.at(bad, offset as usize + i);
        let takeable = (i < limit) & !last.listed;
        if takeable & (*word < TOP_BIT) {
            free += 1;
        }
        if !takeable & (*word < TOP_BIT) {
            held += 1;
        }
    }
    Unused { free, held }
}
