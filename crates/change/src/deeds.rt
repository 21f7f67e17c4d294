// A change put down: the table's words in memory, the pages, and the table's pages.
ghost use Rattle.std.specs.Prelude.{◌≡◌, ◌∷◌, [], ℕ, ◌+◌, ◌<◌, ◌≤◌, length};
ghost use Rattle.std.proofs.Math.Option.{some};
ghost use Rattle.model.specs.Bytes.{page_limit};
ghost use Rattle.model.specs.Entry.{clusters_for};
ghost use Rattle.model.specs.Pages.{zero_page};
ghost use Rattle.model.specs.Tree.{times};
ghost use Rattle.model.specs.View.{pages_of, top_bit};
ghost use Rattle.model.specs.Writes.{cluster_writes};
ghost use Rattle.change.specs.Deeds.{CanPut, image_by, relinked, write_of, writes_of};
ghost use Rattle.change.specs.Image.{write_pages};

use crate::entries::EntryWrite;
use crate::pages::{write_data, zero_page};
use crate::store::store_table;
use crate::words::{clear_chain, link_chain};
use layout::{Geometry, Superblock, image_page};
use page::{rewrite_page, write_page};

// Frees the clusters given back, links those taken, and leads the directory's chain on from its last cluster to its growth.
pub(crate) fn relink(
    table: &mut [u32],
    back: u32,
    count: usize,
    taken: &[u32],
    last: u32,
    growth: &[u32],
)
    requires { (last < top_bit) × ((x : ℕ) → top_bit ≤ x → times taken.now x + times growth.now x ≡ 0) }
    ensures { table.new ≡ relinked back count taken.now last growth.now table.old }
{
    clear_chain(table, back, count);
    link_chain(table, taken);
    if let Some(added) = growth.first() {
        link_chain(table, &[last, *added]);
    }
}

// Writes zeros to both pages of a directory's growth, which is a list of at most one cluster, as in the plan of a change.
fn write_zeros(image: &mut [u8], geometry: Geometry, growth: &[u32])
    requires { length growth.now ≤ 1 }
    ensures { image.new ≡ write_pages geometry (cluster_writes (pages_of growth.now) (some zero_page ∷ some zero_page ∷ [])) image.old }
{
    if let Some(added) = growth.first() {
        let zeros = zero_page();
        let at = image_page(geometry, 2 * (*added as usize));
        write_page(geometry.format, image, at, &zeros);
        write_page(geometry.format, image, at + 1, &zeros);
    }
}

// Writes the page of an entry: a new one always, another where its data changes.
fn write_entry(image: &mut [u8], geometry: Geometry, write: EntryWrite)
    requires { write.at < page_limit }
    ensures { image.new ≡ write_pages geometry (write_of write ∷ []) image.old }
{
    let format = geometry.format;
    let at = image_page(geometry, write.at);
    if write.always {
        write_page(format, image, at, &write.page);
    } else {
        rewrite_page(format, image, at, &write.page);
    }
}

// Writes the pages of a change, in this order: growth, data, the directory's entry, the change's own entry.
fn write_pages(
    image: &mut [u8],
    geometry: Geometry,
    growth: &[u32],
    taken: &[u32],
    bytes: &[u8],
    directory: EntryWrite,
    own: EntryWrite,
)
    requires { (length growth.now ≤ 1) × (length taken.now ≡ clusters_for (length bytes.now)) × (directory.at < page_limit) × (own.at < page_limit) }
    ensures { image.new ≡ write_pages geometry (writes_of growth.now taken.now bytes.now (write_of directory) (write_of own)) image.old }
{
    write_zeros(image, geometry, growth);
    write_data(image, geometry, taken, bytes);
    write_entry(image, geometry, directory);
    write_entry(image, geometry, own);
}

// Writes the pages of a change and then the table.
pub(crate) fn put_down(
    image: &mut [u8],
    s: Superblock,
    table: &[u32],
    growth: &[u32],
    taken: &[u32],
    bytes: &[u8],
    directory: EntryWrite,
    own: EntryWrite,
)
    requires { CanPut s image.old table.now growth.now taken.now bytes.now (write_of directory) (write_of own) }
    ensures { image.new ≡ image_by s image.old (writes_of growth.now taken.now bytes.now (write_of directory) (write_of own)) table.now }
{
    write_pages(image, s.geometry, growth, taken, bytes, directory, own);
    store_table(image, s, table);
}
