// Reading and writing the pages of a card image: 512 data bytes each, in a raw image with 16 spare bytes after them.
#![tactic(auto)]

mod raw;

ghost use Rattle.std.specs.Prelude.{◌≡◌, ◌+◌, ◌^◌, ◌<◌, is_some, length};
ghost use Rattle.page.specs.Mended.{chunks_in, mended_at, mended_chunks, mended_in, mended_stored, wrapped};
ghost use Rattle.page.specs.Page.{page_bytes, cluster_bytes, pages_in, page_start, stored_page, read_stored, is_some as has_data, Read, page_at, stored_as, holds, written, rewritten};
ghost use Rattle.page.specs.PageLaws.{LawsOfPages};
ghost use Rattle.page.specs.Twins.{TwinLaws};

use ecc::Four;
use raw::{judge_raw, mended_by, read_raw, write_raw};

// How an image keeps its pages: raw with their spare bytes, as a card does, or plain without them, as emulators do. Format and
// image stay two parameters: C hands in two, a change is lent the image to write, and a clause would name the two parts.
#[derive(Clone, Copy, PartialEq, Eq)]
pub enum Format {
    Raw,
    Plain,
}

fn page_bytes(format: Format) -> usize
    ensures { result ≡ page_bytes format }
{
    match format {
        Format::Raw => 528,
        Format::Plain => 512,
    }
}

// The bytes of two pages.
pub fn cluster_bytes(format: Format) -> usize
    ensures { (result ≡ cluster_bytes format) × (0 < result) × (result < 2 ^ 32) }
{
    match format {
        Format::Raw => 1056,
        Format::Plain => 1024,
    }
}

// How many pages an image holds whole. They are few enough to be added to without a carry.
#[tactic(auto, unfolding(crate::specs::Page::pages_in))]
pub fn page_count(format: Format, image: &[u8]) -> usize
    ensures { (result ≡ pages_in format (length image.now)) × (result < 2 ^ 63) }
{
    match format {
        Format::Raw => image.len() / 528,
        Format::Plain => image.len() / 512,
    }
}

// The place of a page's first byte in an image that holds the page.
#[tactic(auto, unfolding(crate::specs::Page::page_start))]
fn page_start(format: Format, page: usize) -> usize
    requires { page_start format page < 2 ^ 64 }
    ensures { result ≡ page_start format page }
{
    match format {
        Format::Raw => 528 * page,
        Format::Plain => 512 * page,
    }
}

// The bytes that an image keeps of a page that it holds.
fn stored_page(format: Format, image: &[u8], page: usize) -> &[u8]
    requires { page < pages_in format (length image.now) }
    ensures { (result.now ≡ stored_page format image.now page) × (length result.now ≡ page_bytes format) }
{
    let from = page_start(format, page);
    let to = from + page_bytes(format);
    &image[from..to]
}

// What is told of a page in which no chunk was corrected.
const NONE_MENDED: Four<bool> = Four {
    chunk0: false,
    chunk1: false,
    chunk2: false,
    chunk3: false,
};

// The data of a page by its bytes in the image is written to `out`, and which chunks were corrected is told; else `out` stays.
fn read_stored(format: Format, page: &[u8], out: &mut [u8; 512]) -> Option<Four<bool>>
    requires { length page.now ≡ page_bytes format }
    ensures read { Read (read_stored format page.now) out.old (is_some result) out.new }
    ensures mended { mended_in result ≡ mended_stored format page.now }
{
    match format {
        Format::Raw => read_raw(page.as_array()?, out),
        Format::Plain => {
            out.copy_from_slice(page);
            Some(NONE_MENDED)
        }
    }
}

// Reads page `page` into `out`, and tells which of its chunks were corrected. None, and `out` as it was, where the
// page is unreadable or not in the image.
pub fn read_page(
    format: Format,
    image: &[u8],
    page: usize,
    out: &mut [u8; 512],
) -> Option<Four<bool>>
    ensures read { Read (page_at format image.now page) out.old (is_some result) out.new }
    ensures mended { mended_in result ≡ mended_at format image.now page }
{
    if page >= page_count(format, image) {
        return None;
    }
    read_stored(format, stored_page(format, image, page), out)
}

// What `read_stored` tells, without the data.
fn judge_stored(format: Format, page: &[u8]) -> Option<Four<bool>>
    requires { length page.now ≡ page_bytes format }
    ensures readable { is_some result ≡ has_data (read_stored format page.now) }
    ensures mended { mended_in result ≡ mended_stored format page.now }
{
    match format {
        Format::Raw => mended_by(judge_raw(page.as_array()?)),
        Format::Plain => Some(NONE_MENDED),
    }
}

// What `read_page` tells, for a page whose data is not wanted.
pub fn judge_page(format: Format, image: &[u8], page: usize) -> Option<Four<bool>>
    ensures readable { is_some result ≡ has_data (page_at format image.now page) }
    ensures mended { mended_in result ≡ mended_at format image.now page }
{
    if page >= page_count(format, image) {
        return None;
    }
    judge_stored(format, stored_page(format, image, page))
}

// Adds the corrected chunks to a count, which wraps past 64 bits. Whether there is data is the answer.
fn counted(read: Option<Four<bool>>, mended: &mut usize) -> bool
    ensures readable { result ≡ is_some read }
    ensures counted { mended.new ≡ wrapped (mended.old + chunks_in (mended_in read)) }
{
    *mended = mended.wrapping_add(read.map_or(0, Four::count));
    read.is_some()
}

// `read_page`, with the corrected chunks added to a count. Page and count are lent, so whether there is data is all that is
// left to tell: a bool, since an Option would hold nothing.
pub fn read_counted(
    format: Format,
    image: &[u8],
    page: usize,
    out: &mut [u8; 512],
    mended: &mut usize,
) -> bool
    ensures read { Read (page_at format image.now page) out.old result out.new }
    ensures counted { mended.new ≡ wrapped (mended.old + mended_chunks format image.now page) }
{
    counted(read_page(format, image, page, out), mended)
}

// `judge_page`, in the same way.
pub fn judge_counted(format: Format, image: &[u8], page: usize, mended: &mut usize) -> bool
    ensures readable { result ≡ has_data (page_at format image.now page) }
    ensures counted { mended.new ≡ wrapped (mended.old + mended_chunks format image.now page) }
{
    counted(judge_page(format, image, page), mended)
}

// A count that was lent, as it stands. It fits 64 bits, which is known of a value and not of what was lent.
pub fn settled(count: usize) -> usize
    ensures { (result ≡ count) × (result < 2 ^ 64) }
{
    count
}

// The data is stored in a page's bytes in the image, in a raw one with fresh codes.
fn write_stored(format: Format, page: &mut [u8], bytes: &[u8; 512])
    requires { length page.old ≡ page_bytes format }
    ensures { page.new ≡ stored_as format page.old bytes.now }
{
    match format {
        Format::Raw => write_raw(page, bytes),
        Format::Plain => {
            page.copy_from_slice(bytes);
        }
    }
}

// Writes the data to page `page`, in a raw image freshly coded. Nothing is written where the image does not hold the page.
pub fn write_page(format: Format, image: &mut [u8], page: usize, bytes: &[u8; 512])
    ensures { image.new ≡ written format image.old page bytes.now }
{
    if page < page_count(format, image) {
        let from = page_start(format, page);
        let to = from + page_bytes(format);
        write_stored(format, &mut image[from..to], bytes);
    }
}

// Whether the page's data, as read, is `bytes`.
fn holds_data(format: Format, image: &[u8], page: usize, bytes: &[u8; 512]) -> bool
    ensures { result ≡ holds (page_at format image.now page) bytes.now }
{
    let mut old = [0u8; 512];
    read_page(format, image, page, &mut old).is_some() && old == *bytes
}

// Writes the data to page `page` where that changes its data as read; else the page stays as it is.
pub fn rewrite_page(format: Format, image: &mut [u8], page: usize, bytes: &[u8; 512])
    ensures { image.new ≡ rewritten format image.old page bytes.now }
{
    if !holds_data(format, image, page, bytes) {
        write_page(format, image, page, bytes);
    }
}

// The laws of pages, proved of the definitions for both formats; the layers above go by them.
pub fn page_laws()
    ensures { LawsOfPages }
{}

// The laws of images that hold the same data, and of codes that match.
pub fn twin_laws()
    ensures { TwinLaws }
{}
