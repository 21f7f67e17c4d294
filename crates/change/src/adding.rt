// A new entry in a directory.
ghost use Rattle.std.specs.Prelude.{false, ◌≡◌};
ghost use Rattle.change.specs.Answers.{Leaves};
ghost use Rattle.change.specs.Calls.{CanAdd, CanAddIn, added, added_image, created_in, dots_at, dots_of, locked_at, made_in, need_of, as_directory, as_file, vacancy};
ghost use Rattle.change.specs.Deeds.{Listed};

use crate::deeds::{put_down, relink};
use crate::entries::{EntryWrite, NewEntry};
use crate::pages::{new_page, two_pages, with_length};
use crate::sizes::{clusters_for, first_of, growth_by, length_by, number_by, page_by};
use crate::words::collect_free;
use fields::kinds::{is_directory, is_locked};
use fields::numbers::word_at;
use layout::{Refusal, Superblock};
use lookup::way::EntryAt;
use model::MOST_CLUSTERS;
use tree::along::{Place, cluster_at};
use tree::card::Card;
use tree::slots::{next_of, slots_of};

// Puts a new entry down in a directory that is not locked; the free clusters are listed, and enough.
fn add_listed(
    image: &mut [u8],
    table: &mut [u32],
    s: Superblock,
    list: &[u32],
    directory: EntryAt,
    new: NewEntry,
    time: &[u8],
    name: &[u8],
    bytes: &[u8],
)
    requires { Listed s table.old list.now (need_of directory new.dead bytes.now) × CanAdd s image.old table.old directory new time.now name.now bytes.now × (locked_at directory ≡ false) }
    ensures { image.new ≡ added_image s image.old table.old directory new time.now name.now bytes.now }
{
    let entries = word_at(&directory.page, 0x04);
    let dead = new.dead;
    let growing = growth_by(dead, entries);
    let end = growing + clusters_for(bytes.len());
    let growth = &list[..growing];
    let taken = &list[growing..end];
    let last = cluster_at(table, directory.first, entries - 1);
    let slot = page_by(dead, last, growth);
    let page = new_page(new.mode, new.count as u32, first_of(taken), 0, time, name);
    let longer = with_length(&directory.page, length_by(dead, entries));
    relink(table, 0, 0, taken, last, growth);
    put_down(
        image,
        s,
        table,
        growth,
        taken,
        bytes,
        EntryWrite {
            always: false,
            at: directory.at,
            page: longer,
        },
        EntryWrite {
            always: true,
            at: slot,
            page,
        },
    );
}

// Judges the directory's lock and need against what is free, and then puts the entry down.
fn add(
    image: &mut [u8],
    table: &mut [u32],
    s: Superblock,
    directory: EntryAt,
    new: NewEntry,
    time: &[u8],
    name: &[u8],
    bytes: &[u8],
) -> Result<(), Refusal>
    requires { CanAdd s image.old table.old directory new time.now name.now bytes.now }
    ensures { Leaves (added s image.old table.old directory new time.now name.now bytes.now) result image.new }
{
    if is_locked(&directory.page) {
        return Err(Refusal::Locked);
    }
    let mut list = [0u32; MOST_CLUSTERS];
    let free = collect_free(table, s, &mut list);
    let dead = new.dead;
    if free < clusters_for(bytes.len()) + growth_by(dead, word_at(&directory.page, 0x04)) {
        return Err(Refusal::NoRoom);
    }
    add_listed(
        image,
        table,
        s,
        &list[..free],
        directory,
        new,
        time,
        name,
        bytes,
    );
    Ok(())
}

// The first two entries of a new directory in slot `number` of the directory that begins with cluster `first`.
fn first_entries(first: u32, number: u32, time: &[u8]) -> [u8; 1024]
    ensures { result ≡ dots_of first number time.now }
{
    let dot = new_page(0x8427, 0, first, number, time, b".");
    let up = new_page(0x8427, 0, 0, 0, time, b"..");
    two_pages(&dot, &up)
}

// The slot that a new entry takes in a directory: the lowest dead one, if there is one. Refused where it is no directory, and where
// the name is there.
fn vacant_in(
    image: &[u8],
    table: &[u32],
    s: Superblock,
    directory: &EntryAt,
    name: &[u8],
) -> Result<Option<Place>, Refusal>
    ensures { result ≡ vacancy s image.now table.now directory.now name.now }
{
    if !is_directory(&directory.page) {
        return Err(Refusal::WrongKind);
    }
    let card = Card {
        image,
        table,
        geometry: s.geometry,
    };
    let start = next_of(table, directory.first);
    let count = slots_of(word_at(&directory.page, 0x04));
    if card.find_name(start, count, name).is_some() {
        return Err(Refusal::Exists);
    }
    Ok(card.first_dead(start, count))
}

// Creates a file in a directory.
pub(crate) fn create_in(
    image: &mut [u8],
    table: &mut [u32],
    s: Superblock,
    directory: EntryAt,
    name: &[u8],
    time: &[u8],
    bytes: &[u8],
) -> Result<(), Refusal>
    requires { CanAddIn s image.old table.old directory name.now time.now (as_file bytes.now) (λ dead. bytes.now) }
    ensures { Leaves (created_in s image.old table.old directory name.now time.now bytes.now) result image.new }
{
    let dead = vacant_in(image, table, s, &directory, name)?;
    let new = NewEntry {
        mode: 0x8417,
        count: bytes.len(),
        dead,
    };
    add(image, table, s, directory, new, time, name, bytes)
}

// Makes a directory in a directory: of length 2, with its first two entries.
pub(crate) fn make_in(
    image: &mut [u8],
    table: &mut [u32],
    s: Superblock,
    directory: EntryAt,
    name: &[u8],
    time: &[u8],
) -> Result<(), Refusal>
    requires { CanAddIn s image.old table.old directory name.now time.now as_directory (dots_at directory time.now) }
    ensures { Leaves (made_in s image.old table.old directory name.now time.now) result image.new }
{
    let dead = vacant_in(image, table, s, &directory, name)?;
    let number = number_by(dead, word_at(&directory.page, 0x04));
    let dots = first_entries(directory.first, number, time);
    let new = NewEntry {
        mode: 0x8427,
        count: 2,
        dead,
    };
    add(image, table, s, directory, new, time, name, &dots)
}
