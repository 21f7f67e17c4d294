// The superblock and the allocation table of a card, with the refusals in the paper's order.
#![tactic(auto)]

pub mod page0;
pub mod table;

ghost use Rattle.std.specs.Prelude.{◌≡◌, ◌%◌, ◌^◌};
ghost use Rattle.layout.specs.Mended.{Adds, mended_over, mended_told, opening_mended};
ghost use Rattle.layout.specs.Needed.{opening_pages};
ghost use Rattle.layout.specs.Refusal.{number_of, page_of, told_by};
ghost use Rattle.layout.specs.See.{image_page};
ghost use Rattle.layout.specs.Superblock.{superblock_of};
ghost use Rattle.layout.specs.Table.{open_card, told_opened, table_after};

use model::{LIST_WORDS, MOST_CLUSTERS};
use page::{Format, settled};
use page0::{clusters_in, good_length, good_superblock, good_text, superblock_of};
use table::{judge_table, load_table, need_page};

// Why a call is refused: a case for each row of the paper's table.
#[derive(Clone, Copy, PartialEq, Eq)]
pub enum Refusal {
    BadShift,
    BadLength,
    UnreadablePage(usize),
    BadText,
    BadSuperblock,
    BadTableName,
    BadChain,
    BadEntry,
    BadPath,
    BadTime,
    Absent,
    WrongKind,
    Exists,
    NotEmpty,
    BadOffset,
    Locked,
    NoRoom,
    WrongOutput,
}

impl Refusal {
    // The paper's number.
    pub fn number(self) -> u32
        ensures { result ≡ number_of self }
    {
        match self {
            Refusal::BadShift => 17,
            Refusal::BadLength => 1,
            Refusal::UnreadablePage(_) => 2,
            Refusal::BadText => 3,
            Refusal::BadSuperblock => 4,
            Refusal::BadTableName => 5,
            Refusal::BadChain => 6,
            Refusal::BadEntry => 7,
            Refusal::BadPath => 8,
            Refusal::BadTime => 14,
            Refusal::Absent => 9,
            Refusal::WrongKind => 10,
            Refusal::Exists => 11,
            Refusal::NotEmpty => 13,
            Refusal::BadOffset => 15,
            Refusal::Locked => 16,
            Refusal::NoRoom => 12,
            Refusal::WrongOutput => 23,
        }
    }

    // The page that goes with number 2; 0 for every other.
    pub fn page(self) -> usize
        ensures { result ≡ page_of self }
    {
        match self {
            Refusal::UnreadablePage(page) => page,
            _ => 0,
        }
    }
}

// Where the pages of a card's allocatable clusters lie in its image, and how they are kept: from cluster alloc_offset on,
// in the image's format.
#[derive(Clone, Copy)]
pub struct Geometry {
    pub format: Format,
    pub offset: u32,
}

// The numbers of a superblock: N, alloc_offset, alloc_end, the backup blocks, the indirect cluster and the bad block list.
#[derive(Clone, Copy)]
pub struct Superblock {
    pub clusters: u32,
    pub geometry: Geometry,
    pub end: u32,
    pub backup1: u32,
    pub backup2: u32,
    pub indirect: u32,
    pub bad: [u32; LIST_WORDS],
}

// A card that is open, with how many chunks were corrected in the pages that were needed.
#[derive(Clone, Copy)]
pub struct Opened {
    pub superblock: Superblock,
    pub mended: usize,
}

// The image's page that is a page of the allocatable clusters, which are counted from 0. A sum past 64 bits wraps.
pub fn image_page(geometry: Geometry, page: usize) -> usize
    ensures { result ≡ image_page geometry page % 2 ^ 64 }
{
    std::num::wrapping_add_usize(2 * (geometry.offset as usize), page)
}

// The check up to the table: length, page 0, format text, the other superblock rules, the table. The lent page gets page 0.
#[tactic(auto, unfolding(crate::specs::Table::open_card, crate::specs::Table::unless, crate::specs::Table::with_page))]
fn judge_card(
    format: Format,
    image: &[u8],
    page: &mut [u8; 512],
    mended: &mut usize,
) -> Result<(), Refusal>
    ensures judged { told_by (λ u. superblock_of format page.new) result ≡ open_card format image.now }
    ensures counted { Adds result mended.old (mended_over format image.now (opening_pages image.now (superblock_of format page.new))) mended.new }
{
    if !good_length(format, image.len()) {
        return Err(Refusal::BadLength);
    }
    need_page(format, image, 0, page, mended)?;
    if !good_text(page) {
        return Err(Refusal::BadText);
    }
    if !good_superblock(format, clusters_in(format, image.len()), page) {
        return Err(Refusal::BadSuperblock);
    }
    judge_table(image, &superblock_of(format, page), mended)
}

// Checks the card up to its table, and loads the table's words. A refusal leaves the lent table as it was.
pub fn open_card(
    format: Format,
    image: &[u8],
    table: &mut [u32; MOST_CLUSTERS],
) -> Result<Opened, Refusal>
    ensures opened { told_opened result ≡ open_card format image.now }
    ensures loaded { table.new ≡ table_after image.now (open_card format image.now) table.old }
    ensures mended { mended_told result ≡ opening_mended format image.now (open_card format image.now) }
{
    let mut page = [0u8; 512];
    let mut mended: usize = 0;
    judge_card(format, image, &mut page, &mut mended)?;
    let superblock = superblock_of(format, &page);
    load_table(image, &superblock, table);
    Ok(Opened {
        superblock,
        mended: settled(mended),
    })
}
