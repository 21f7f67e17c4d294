// Page 0 of a card: the format text, the version, the fixed numbers and the superblock's numbers.
ghost use Rattle.std.specs.Prelude.{◌≡◌};
ghost use Rattle.layout.specs.Superblock.{bad_blocks_of, clusters_in, good_length, good_text, good_version, fixed_numbers, superblock_of, good_numbers, good_bad_block, good_bad_blocks, good_superblock};

use crate::{Geometry, Superblock};
use fields::numbers::{half_at, word_at};
use model::{BLOCK_CLUSTERS, LIST_WORDS, MOST_CLUSTERS, NO_BLOCK};
use page::{Format, cluster_bytes};

const LEAST_CLUSTERS: usize = 32;

// How many clusters that many bytes of an image hold whole.
pub fn clusters_in(format: Format, bytes: usize) -> usize
    ensures { result ≡ clusters_in format bytes }
{
    bytes / cluster_bytes(format)
}

pub fn good_length(format: Format, bytes: usize) -> bool
    ensures { result ≡ good_length format bytes }
{
    let clusters = clusters_in(format, bytes);
    bytes % cluster_bytes(format) == 0
        && clusters % 8 == 0
        && LEAST_CLUSTERS <= clusters
        && clusters <= MOST_CLUSTERS
}

pub fn good_text(page: &[u8; 512]) -> bool
    ensures { result ≡ good_text page.now }
{
    page.starts_with(b"Sony PS2 Memory Card Format ")
}

pub fn good_version(page: &[u8; 512]) -> bool
    ensures { result ≡ good_version page.now }
{
    let version = &page[0x1C..0x28];
    version == b"1.1.0.0\0\0\0\0\0".as_slice() || version == b"1.2.0.0\0\0\0\0\0".as_slice()
}

pub fn fixed_numbers(page: &[u8; 512]) -> bool
    ensures { result ≡ fixed_numbers page.now }
{
    half_at(page, 0x28) == 512
        && half_at(page, 0x2A) == 2
        && half_at(page, 0x2C) == 16
        && word_at(page, 0x3C) == 0
}

// The words of the bad block list.
fn bad_blocks(page: &[u8; 512]) -> [u32; LIST_WORDS]
    ensures { result ≡ bad_blocks_of page.now }
{
    std::array::from_fn(|i| word_at(page, 0xD0 + 4 * i))
}

pub fn superblock_of(format: Format, page: &[u8; 512]) -> Superblock
    ensures { result ≡ superblock_of format page.now }
{
    Superblock {
        clusters: word_at(page, 0x30),
        geometry: Geometry {
            format,
            offset: word_at(page, 0x34),
        },
        end: word_at(page, 0x38),
        backup1: word_at(page, 0x40),
        backup2: word_at(page, 0x44),
        indirect: word_at(page, 0x50),
        bad: bad_blocks(page),
    }
}

// The rules on the numbers, for an image of n clusters. The sums are whole: words fit a usize with room.
pub fn good_numbers(n: usize, s: Superblock) -> bool
    ensures { result ≡ good_numbers n s }
{
    let top = s.geometry.offset as usize + s.end as usize;
    s.clusters as usize == n
        && 1 <= s.end
        && top <= n
        && s.backup1 != s.backup2
        && (s.backup1 as usize) < n / BLOCK_CLUSTERS
        && (s.backup2 as usize) < n / BLOCK_CLUSTERS
        && top <= BLOCK_CLUSTERS * s.backup1 as usize
        && top <= BLOCK_CLUSTERS * s.backup2 as usize
}

// The rule on a word of the bad block list, for an image of n clusters.
fn good_bad_block(n: usize, word: u32) -> bool
    ensures { result ≡ good_bad_block n word }
{
    word == NO_BLOCK || (1 <= word && (word as usize) < n / BLOCK_CLUSTERS)
}

fn good_bad_blocks(n: usize, bad: &[u32]) -> bool
    ensures { result ≡ good_bad_blocks n bad.now }
{
    bad.iter().all(|word| good_bad_block(n, *word))
}

// Every rule of page 0 but its text.
pub fn good_superblock(format: Format, n: usize, page: &[u8; 512]) -> bool
    ensures { result ≡ good_superblock format n page.now }
{
    let s = superblock_of(format, page);
    good_version(page) && fixed_numbers(page) && good_numbers(n, s) && good_bad_blocks(n, &s.bad)
}
