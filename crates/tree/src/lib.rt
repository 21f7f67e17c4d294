// The check of a card: the walk of its directory tree and the counts of its clusters.
#![tactic(auto)]

pub mod along;
pub mod card;
mod names;
pub mod slots;
mod tasks;
mod walk;

ghost use Rattle.std.specs.Prelude.{◌≡◌, ◌^◌, ◌<◌};
ghost use Rattle.layout.specs.Mended.{mended_of, mended_told};
ghost use Rattle.layout.specs.Refusal.{told};
ghost use Rattle.layout.specs.See.{check_image};
ghost use Rattle.layout.specs.Table.{open_card, table_after, told_opened};
ghost use Rattle.tree.specs.Counted.{CountsAddUp, check_of, superblock_in};

use card::Card;
use layout::{Opened, Refusal, open_card};
use model::MOST_CLUSTERS;
use page::{Format, settled};
use reached::count_orphans;
use reached::takeable::count_unused;
use walk::walk_root;

// What the check tells of a card: counts of its clusters, and of the chunks that were corrected in the pages it needed.
#[derive(Drop)]
pub struct Counts {
    pub clusters: u32,
    pub free: usize,
    pub reached: usize,
    pub orphaned: usize,
    pub held: usize,
    pub mended: usize,
}

// The whole check, with room lent for the table: working room, of whose words afterwards nothing is told. Each count is by its
// own definition.
pub fn check_in(
    format: Format,
    image: &[u8],
    table: &mut [u32; MOST_CLUSTERS],
) -> Result<Counts, Refusal>
    ensures { told result ≡ check_of format image.now }
{
    let opened = open_card(format, image, table)?;
    let s = opened.superblock;
    let words = &table[..s.end as usize];
    let card = Card {
        image,
        table: words,
        geometry: s.geometry,
    };
    let mut mended = opened.mended;
    let r = walk_root(&card, &mut mended)?;
    let unused = count_unused(card.table, s.clusters, s.geometry.offset, &s.bad);
    Ok(Counts {
        clusters: s.clusters,
        free: unused.free,
        reached: r.count,
        orphaned: count_orphans(card.table, r),
        held: unused.held,
        mended: settled(mended),
    })
}

// The whole check: free, reached, orphaned and held back clusters, or the refusal.
pub fn check(format: Format, image: &[u8]) -> Result<Counts, Refusal>
    ensures { told result ≡ check_of format image.now }
{
    let mut table = [0u32; MOST_CLUSTERS];
    check_in(format, image, &mut table)
}

// Free, reached, orphaned and held back clusters add up to the allocatable ones.
pub fn counts_add_up()
    ensures { CountsAddUp }
{}

// The whole check, with the superblock for the calls that go on from it. The lent room is working room: it gets the table's
// words once they are sound, and keeps them where the tree is then refused. It begins as `check_in` does: a function for that
// would hand out a card, a record and a count, and be no shorter.
pub fn open_checked(
    format: Format,
    image: &[u8],
    room: &mut [u32; MOST_CLUSTERS],
) -> Result<Opened, Refusal>
    ensures checked { told_opened result ≡ superblock_in (check_image format image.now) }
    ensures working_room { room.new ≡ table_after image.now (open_card format image.now) room.old }
    ensures mended { (mended_told result ≡ mended_of format image.now) × (mended_told result < 2 ^ 32) }
{
    let opened = open_card(format, image, room)?;
    let s = opened.superblock;
    let words = &room[..s.end as usize];
    let card = Card {
        image,
        table: words,
        geometry: s.geometry,
    };
    let mut mended = opened.mended;
    walk_root(&card, &mut mended)?;
    Ok(Opened {
        superblock: s,
        mended: settled(mended),
    })
}
