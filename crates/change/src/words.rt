// The allocation table in memory: its free clusters, chains linked and freed.
ghost use Rattle.std.specs.Prelude.{◌≡◌, ℕ, ◌≤◌, length, take};
ghost use Rattle.model.specs.Tree.{times};
ghost use Rattle.model.specs.View.{most_clusters, top_bit};
ghost use Rattle.change.specs.Words.{chained, cleared_from, free_list};

use layout::Superblock;
use reached::takeable::{Looked, take_limit};
use reached::{END_MARK, TOP_BIT};
use tree::slots::next_of;

// The free clusters of a card's table that may be taken, ascending, into a list with room for all (there is no heap); how many
// there are.
pub(crate) fn collect_free(table: &[u32], s: Superblock, list: &mut [u32]) -> usize
    requires { (length table.now ≤ length list.old) × (length table.now ≤ most_clusters) }
    ensures { (result ≡ length (free_list s table.now)) × (take result list.new ≡ free_list s table.now) }
{
    let geometry = s.geometry;
    let offset = geometry.offset as usize;
    let bad = s.bad;
    let limit = take_limit(s.clusters, s.end as usize);
    let mut last = Looked::new(&bad);
    let mut count: usize = 0;
    for (c, word) in table.iter().enumerate() {
        last = last.at(&bad, offset + c);
        if (c < limit) & !last.listed & (*word < TOP_BIT) {
            list[count] = c as u32;
            count += 1;
        }
    }
    count
}

// Links the clusters into a chain, from the last to the first. One outside the table is passed over, by a test: of what is
// written through `get_mut` no proof knows the other words.
pub(crate) fn link_chain(table: &mut [u32], clusters: &[u32])
    requires { (x : ℕ) → top_bit ≤ x → times clusters.now x ≡ 0 }
    ensures { table.new ≡ chained clusters.now table.old }
{
    let mut word = END_MARK;
    for cluster in clusters.iter().rev() {
        let i = *cluster as usize;
        if i < table.len() {
            table[i] = word;
        }
        word = TOP_BIT + *cluster;
    }
}

// Frees `count` clusters of the chain that begins with cluster `first`. One outside the table is passed over as in `link_chain`.
pub(crate) fn clear_chain(table: &mut [u32], first: u32, count: usize)
    ensures { table.new ≡ cleared_from first count table.old }
{
    let mut c = first;
    for _ in 0..count {
        let next = next_of(table, c);
        let i = c as usize;
        if i < table.len() {
            table[i] = table[i] % TOP_BIT;
        }
        c = next;
    }
}
