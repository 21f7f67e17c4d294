// The bytes of a file.
ghost use Rattle.std.specs.Prelude.{◌≡◌, ◌+◌, ◌<◌, length};
ghost use Rattle.page.specs.Mended.{wrapped};
ghost use Rattle.model.specs.Bytes.{slice};
ghost use Rattle.model.specs.Needed.{total_over};
ghost use Rattle.tree.specs.Card.{view_of};
ghost use Rattle.tree.specs.Mended.{mended_page};
ghost use Rattle.lookup.specs.Answers.{TellsRead};
ghost use Rattle.lookup.specs.Called.{CountsAt, ReadsAt};
ghost use Rattle.lookup.specs.Mended.{read_mended, reported};
ghost use Rattle.lookup.specs.Read.{read_of};
ghost use Rattle.lookup.specs.Descend.{CanCopy, Piece, data_along, pages_from};

use crate::call::stand;
use crate::way::EntryAt;
use fields::kinds::is_directory;
use fields::numbers::word_at;
use layout::Refusal;
use model::MOST_CLUSTERS;
use page::{Format, settled};
use tree::along::cluster_at;
use tree::card::Card;
use tree::slots::{cluster_after, slot_page};

// How many bytes of a page are copied: from byte `skip` on, at most as many as are left.
fn piece_of(skip: usize, left: usize) -> usize
    requires { (skip < 512) × (0 < left) }
    ensures { Piece skip left result }
{
    left.min(512 - skip)
}

// Fills the buffer from a file's readable pages `low` to `high` - 1, of which page `low` lies in cluster `start`, beginning at
// byte `skip` of it. Each page adds its corrected chunks to the count.
fn copy_pages(
    card: &Card,
    start: u32,
    low: u32,
    high: u32,
    skip: usize,
    out: &mut [u8],
    mended: &mut usize,
)
    requires { CanCopy (view_of card.now) card.now.table.now start low high skip (length out.old) }
    ensures copied { out.new ≡ slice (data_along (view_of card.now) (pages_from card.now.table.now start low skip (length out.old))) skip (length out.old) }
    ensures counted { wrapped mended.new ≡ wrapped (mended.old + total_over (mended_page card.now.geometry card.now.image.now) (pages_from card.now.table.now start low skip (length out.old))) }
{
    let mut page = [0u8; 512];
    let mut c = start;
    let mut from = skip;
    let mut done: usize = 0;
    for k in low..high {
        card.read_needed(slot_page(c, k), &mut page, mended);
        let n = piece_of(from, out.len() - done);
        out[done..done + n].copy_from_slice(&page[from..from + n]);
        done += n;
        from = 0;
        c = cluster_after(card.table, c, k);
    }
}

// A read of a file. All needed pages are judged before the first byte is copied.
fn read_in(
    card: &Card,
    file: &EntryAt,
    from: usize,
    out: &mut [u8],
    mended: &mut usize,
) -> Result<usize, Refusal>
    ensures told { ReadsAt card.now file.now from result out.old out.new }
    ensures counted { CountsAt card.now file.now from result (length out.old) mended.old mended.new }
{
    if is_directory(&file.page) {
        return Err(Refusal::WrongKind);
    }
    let size = word_at(&file.page, 0x04) as usize;
    if size < from {
        return Err(Refusal::BadOffset);
    }
    let count = out.len().min(size - from);
    if count == 0 {
        return Ok(0);
    }
    let low = (from / 512) as u32;
    let high = (from + count).div_ceil(512) as u32;
    let start = cluster_at(card.table, file.first, low);
    if let Some(bad) = card.first_unreadable(start, low, high) {
        return Err(card.unreadable(bad.page));
    }
    copy_pages(
        card,
        start,
        low,
        high,
        from % 512,
        &mut out[..count],
        mended,
    );
    Ok(count)
}

// Copies bytes of the file at a path, from the offset `from` until the file or the buffer ends, and tells how many. The lent
// count becomes that of the corrected chunks, the copied pages' too; a refusal leaves it.
pub fn read(
    format: Format,
    image: &[u8],
    path: &[u8],
    from: usize,
    out: &mut [u8],
    mended: &mut usize,
) -> Result<usize, Refusal>
    ensures told { TellsRead (read_of format image.now path.now from (length out.old)) result out.old out.new }
    ensures counted { mended.new ≡ reported (read_of format image.now path.now from (length out.old)) (read_mended format image.now path.now from (length out.old)) mended.old }
{
    let mut room = [0u32; MOST_CLUSTERS];
    let stood = stand(format, image, path, &mut room)?;
    let mut total = stood.mended;
    let count = read_in(&stood.card, &stood.entry, from, out, &mut total)?;
    *mended = settled(total);
    Ok(count)
}
