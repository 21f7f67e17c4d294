// The slots of a directory: the clusters and the pages that they lie in, and what is read of these.
ghost use Rattle.std.specs.Prelude.{◌≡◌, ◌+◌, ◌-◌, ◌*◌, ◌<◌};
ghost use Rattle.layout.specs.See.{page_in};
ghost use Rattle.model.specs.Bytes.{page_limit};
ghost use Rattle.page.specs.Page.{Read, is_some};
ghost use Rattle.tree.specs.Card.{Lies};
ghost use Rattle.tree.specs.Mended.{count_after, mended_page};
ghost use Rattle.tree.specs.Slots.{cluster_after, is_slot, next_of, slot_page};

use layout::{Geometry, image_page};
use page::{judge_page, page_count, read_page};
use reached::TOP_BIT;

// The cluster after c in its chain.
pub fn next_of(table: &[u32], c: u32) -> u32
    ensures { result ≡ next_of table.now c }
{
    table
        .get(c as usize)
        .copied()
        .unwrap_or(0)
        .saturating_sub(TOP_BIT)
}

// The cluster of the slot after slot k, which lies in cluster c. Each loop along slots steps by it: an iterator of slots and
// pages would be one more type with a contract of its own, for one line a loop.
pub fn cluster_after(table: &[u32], c: u32, k: u32) -> u32
    ensures { result ≡ cluster_after table.now c k }
{
    if k % 2 == 1 { next_of(table, c) } else { c }
}

// The page of slot k, which lies in cluster c.
pub fn slot_page(c: u32, k: u32) -> usize
    ensures { (result ≡ slot_page c k) × (result < page_limit) }
{
    c as usize * 2 + (k % 2) as usize
}

// Whether the page is that of a slot before slot k of the directory whose slots begin in cluster `start`.
pub(crate) fn is_slot(table: &[u32], start: u32, k: u32, page: usize) -> bool
    ensures { result ≡ is_slot table.now start k page }
{
    let mut c = start;
    for i in 0..k {
        if slot_page(c, i) == page {
            return true;
        }
        c = cluster_after(table, c, i);
    }
    false
}

// How many slots a directory of that many entries has from 2 on.
pub fn slots_of(length: u32) -> u32
    ensures { result ≡ length - 2 }
{
    length.saturating_sub(2)
}

// The image's page that is a page of the allocatable clusters, of which there are `count`: none past them, or where the image
// has not as many pages.
fn place_of(image: &[u8], geometry: Geometry, count: usize, page: usize) -> Option<usize>
    ensures { Lies geometry count image.now page result }
{
    if count <= page / 2 || page_count(geometry.format, image) <= page {
        return None;
    }
    Some(image_page(geometry, page))
}

// A page of the allocatable clusters, of which there are `count`, with its corrected chunks added to a count, which wraps past
// 64 bits. Whether there is data is the answer, a bool, since the data goes into what is lent; without any the count stays.
pub fn read_needed(
    image: &[u8],
    geometry: Geometry,
    count: usize,
    page: usize,
    out: &mut [u8; 512],
    mended: &mut usize,
) -> bool
    ensures read { Read (page_in geometry count image.now page) out.old result out.new }
    ensures counted { mended.new ≡ count_after (page_in geometry count image.now page) (mended_page geometry image.now page) mended.old }
{
    let Some(place) = place_of(image, geometry, count, page) else {
        return false;
    };
    match read_page(geometry.format, image, place, out) {
        None => false,
        Some(chunks) => {
            *mended = mended.wrapping_add(chunks.count());
            true
        }
    }
}

// `read_needed`, for who counts nothing: a bool too, since not every caller refuses.
pub fn read_slot(
    image: &[u8],
    geometry: Geometry,
    count: usize,
    page: usize,
    out: &mut [u8; 512],
) -> bool
    ensures { Read (page_in geometry count image.now page) out.old result out.new }
{
    let mut mended: usize = 0;
    read_needed(image, geometry, count, page, out, &mut mended)
}

// Whether a page of the allocatable clusters, of which there are `count`, has data: a question, so a bool.
pub fn judge_slot(image: &[u8], geometry: Geometry, count: usize, page: usize) -> bool
    ensures { result ≡ is_some (page_in geometry count image.now page) }
{
    let Some(place) = place_of(image, geometry, count, page) else {
        return false;
    };
    judge_page(geometry.format, image, place).is_some()
}
