// The way of a call: the check, the path, then along its names to the entry there.
ghost use Rattle.lookup.specs.Called.{TellsStood, TellsTotal};

use crate::way::{EntryAt, descend};
use fields::paths::parse_path;
use layout::Refusal;
use model::MOST_CLUSTERS;
use page::Format;
use tree::card::Card;
use tree::open_checked;

// Where a call stands: at an entry of an open card, of which the check corrected so many chunks.
#[derive(Drop)]
pub(crate) struct Stood<'a> {
    pub(crate) card: Card<'a>,
    pub(crate) mended: usize,
    pub(crate) entry: EntryAt,
}

// The check, then 8, 9 and 10. The lent room has the table's words for the questions that go on from here.
pub(crate) fn stand<'a>(
    format: Format,
    image: &'a [u8],
    path: &[u8],
    room: &'a mut [u32; MOST_CLUSTERS],
) -> Result<Stood<'a>, Refusal>
    ensures told { TellsStood format image.now path.now result }
    ensures counted { TellsTotal format image.now result }
{
    let opened = open_checked(format, image, room)?;
    let superblock = opened.superblock;
    let end = superblock.end as usize;
    let count = parse_path(path).ok_or(Refusal::BadPath)?;
    let card = Card {
        image,
        table: &room[..end],
        geometry: superblock.geometry,
    };
    let entry = descend(&card, path, count)?;
    Ok(Stood {
        card,
        mended: opened.mended,
        entry,
    })
}
