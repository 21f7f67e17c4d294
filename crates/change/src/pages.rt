// The pages that a change writes: data in new clusters, a new entry, an entry altered.
ghost use Rattle.std.specs.Prelude.{◌≡◌, ◌++◌, ◌+◌, ◌-◌, length};
ghost use Rattle.model.specs.Bytes.{slice};
ghost use Rattle.model.specs.Entry.{clusters_for, entry_of};
ghost use Rattle.model.specs.Pages.{altered_entry, altered_page, data_pages, new_page, zero_page};
ghost use Rattle.model.specs.Plan.{killed, new_entry, with_length};
ghost use Rattle.model.specs.View.{pages_of};
ghost use Rattle.model.specs.Writes.{cluster_writes};
ghost use Rattle.change.specs.Image.{write_pages};
ghost use Rattle.change.specs.Pages.{data_page};

use fields::numbers::{half_at, word_at};
use fields::writes::{put_bytes, put_half, put_word};
use layout::{Geometry, image_page};
use page::write_page;

pub(crate) fn zero_page() -> [u8; 512]
    ensures { result ≡ zero_page }
{
    [0u8; 512]
}

// Page k of data as it is written. Its piece is lent by its place: the library's `nth` of the chunks steps over all before it.
fn data_page(bytes: &[u8], k: usize) -> [u8; 512]
    ensures { result ≡ data_page bytes.now k }
{
    let mut page = zero_page();
    if let Some(rest) = bytes.get(k.saturating_mul(512)..) {
        put_bytes(&mut page, 0, &rest[..rest.len().min(512)]);
    }
    page
}

// Writes all pages of newly taken clusters: the data, and zeros after its end.
pub(crate) fn write_data(image: &mut [u8], geometry: Geometry, clusters: &[u32], bytes: &[u8])
    requires { length clusters.now ≡ clusters_for (length bytes.now) }
    ensures { image.new ≡ write_pages geometry (cluster_writes (pages_of clusters.now) (data_pages bytes.now)) image.old }
{
    let format = geometry.format;
    for k in 0..2 * clusters.len() {
        let cluster = clusters[k / 2] as usize;
        let page = data_page(bytes, k);
        write_page(
            format,
            image,
            image_page(geometry, 2 * cluster + k % 2),
            &page,
        );
    }
}

// The page of a new entry.
pub(crate) fn new_page(
    mode: u32,
    length: u32,
    first: u32,
    dir_entry: u32,
    time: &[u8],
    name: &[u8],
) -> [u8; 512]
    ensures { result ≡ new_page (new_entry mode length first dir_entry time.now name.now) }
{
    let mut page = zero_page();
    put_bytes(&mut page, 0x40, name);
    put_word(&mut page, 0x20, 0);
    put_bytes(&mut page, 0x18, time);
    put_word(&mut page, 0x14, dir_entry);
    put_word(&mut page, 0x10, first);
    put_bytes(&mut page, 0x08, time);
    put_word(&mut page, 0x04, length);
    put_half(&mut page, 0x00, mode);
    page
}

// The page of an entry with another mode, length, first cluster and time of change. Every other byte of it stays.
pub(crate) fn altered_page(
    page: &[u8; 512],
    mode: u32,
    length: u32,
    first: u32,
    modified: &[u8],
) -> [u8; 512]
    ensures { result ≡ altered_page page.now (altered_entry (entry_of page.now) mode length first modified.now) }
{
    let mut altered = *page;
    put_bytes(&mut altered, 0x18, modified);
    put_word(&mut altered, 0x10, first);
    put_word(&mut altered, 0x04, length);
    put_half(&mut altered, 0x00, mode);
    altered
}

// The page of a directory's entry with another length.
pub(crate) fn with_length(page: &[u8; 512], length: u32) -> [u8; 512]
    ensures { result ≡ altered_page page.now (with_length (entry_of page.now) length) }
{
    altered_page(
        page,
        half_at(page, 0x00),
        length,
        word_at(page, 0x10),
        &page[0x18..0x20],
    )
}

// The page of a file's entry with new contents: length, first cluster and time of change.
pub(crate) fn replaced_page(page: &[u8; 512], length: u32, first: u32, time: &[u8]) -> [u8; 512]
    ensures { result ≡ altered_page page.now (altered_entry (entry_of page.now) (entry_of page.now).mode length first time.now) }
{
    altered_page(page, half_at(page, 0x00), length, first, time)
}

// The page of an entry that is gone: bit 0x8000 is cleared.
pub(crate) fn killed_page(page: &[u8; 512]) -> [u8; 512]
    ensures { result ≡ altered_page page.now (killed (entry_of page.now)) }
{
    altered_page(
        page,
        half_at(page, 0x00).saturating_sub(0x8000),
        word_at(page, 0x04),
        word_at(page, 0x10),
        &page[0x18..0x20],
    )
}

// Two pages one after the other.
pub(crate) fn two_pages(a: &[u8; 512], b: &[u8; 512]) -> [u8; 1024]
    ensures { result ≡ a.now ++ b.now }
{
    let mut both = [0u8; 1024];
    let (front, back) = both.split_at_mut(512);
    front.copy_from_slice(a);
    back.copy_from_slice(b);
    both
}
