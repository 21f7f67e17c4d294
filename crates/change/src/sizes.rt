// How much a change needs, and where a new entry goes.
ghost use Rattle.std.specs.Prelude.{◌≡◌, ◌+◌, ◌/◌, ◌<◌, length};
ghost use Rattle.model.specs.Bytes.{word_limit};
ghost use Rattle.model.specs.Entry.{clusters_for};
ghost use Rattle.model.specs.Plan.{first_of};
ghost use Rattle.change.specs.Deeds.{growth_by, length_by, number_by, page_by};

use reached::END_MARK;
use tree::along::Place;

// The clusters that data of that many bytes need.
pub(crate) fn clusters_for(bytes: usize) -> usize
    ensures { result ≡ clusters_for bytes }
{
    bytes.div_ceil(1024)
}

// The clusters that a directory of that many entries needs.
pub(crate) fn directory_clusters(entries: u32) -> usize
    ensures { result ≡ (entries + 1) / 2 }
{
    entries.div_ceil(2) as usize
}

// Behind the last entry of an even directory a cluster is added.
pub(crate) fn growth_by(dead: Option<Place>, length: u32) -> usize
    ensures { result ≡ growth_by dead length }
{
    match dead {
        Some(_) => 0,
        None => (1 - length % 2) as usize,
    }
}

pub(crate) fn length_by(dead: Option<Place>, length: u32) -> u32
    requires { length + 1 < word_limit }
    ensures { result ≡ length_by dead length }
{
    match dead {
        Some(_) => length,
        None => length + 1,
    }
}

// The slot's number, counted from the directory's first entry.
pub(crate) fn number_by(dead: Option<Place>, length: u32) -> u32
    requires { number_by dead length < word_limit }
    ensures { result ≡ number_by dead length }
{
    match dead {
        Some(place) => place.slot + 2,
        None => length,
    }
}

// The page of the new entry.
pub(crate) fn page_by(dead: Option<Place>, last: u32, growth: &[u32]) -> usize
    ensures { result ≡ page_by dead last growth.now }
{
    match (dead, growth.first()) {
        (Some(place), _) => place.page,
        (None, Some(added)) => 2 * (*added as usize),
        (None, None) => 2 * (last as usize) + 1,
    }
}

// The first of the clusters taken, or the mark that names none.
pub(crate) fn first_of(clusters: &[u32]) -> u32
    ensures { result ≡ first_of clusters.now }
{
    clusters.first().copied().unwrap_or(END_MARK)
}
