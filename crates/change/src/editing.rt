// An entry that stands: replaced or removed.
ghost use Rattle.std.specs.Prelude.{◌≡◌, length, ◌||◌};
ghost use Rattle.model.specs.Entry.{clusters_for, entry_of, is_locked};
ghost use Rattle.change.specs.Answers.{Leaves};
ghost use Rattle.change.specs.Calls.{DeleteLands, RemoveLands, ReplaceLands, deleted_entry, removed_entry, removed_image, replaced_entry, replaced_image};
ghost use Rattle.change.specs.Deeds.{Listed, Open, removed_writes, replaced_writes};
ghost use Rattle.change.specs.Image.{Lands};

use crate::deeds::{put_down, relink};
use crate::entries::EntryWrite;
use crate::pages::{killed_page, replaced_page, with_length};
use crate::sizes::{clusters_for, directory_clusters, first_of};
use crate::words::collect_free;
use fields::kinds::{is_directory, is_locked};
use fields::numbers::word_at;
use layout::{Refusal, Superblock};
use lookup::way::EntryAt;
use model::MOST_CLUSTERS;
use tree::card::Card;
use tree::slots::{next_of, slots_of};

// Whether an entry is locked, or the directory directly around it.
fn either_locked(entry: &[u8; 512], directory: &[u8; 512]) -> bool
    ensures { result ≡ (is_locked (entry_of entry.now).mode || is_locked (entry_of directory.now).mode) }
{
    is_locked(entry) | is_locked(directory)
}

// Puts new contents down; the free clusters are listed, and enough.
fn replace_listed(
    image: &mut [u8],
    table: &mut [u32],
    s: Superblock,
    list: &[u32],
    directory: EntryAt,
    entry: EntryAt,
    time: &[u8],
    bytes: &[u8],
)
    requires { Open s image.old table.old × Listed s table.old list.now (clusters_for (length bytes.now)) × Lands s.end (replaced_writes s table.old directory entry time.now bytes.now) }
    ensures { image.new ≡ replaced_image s image.old table.old directory entry time.now bytes.now }
{
    let own = clusters_for(bytes.len());
    let taken = &list[..own];
    let none = &list[..0];
    let contents = replaced_page(&entry.page, bytes.len() as u32, first_of(taken), time);
    let kept = with_length(&directory.page, word_at(&directory.page, 0x04));
    let back = clusters_for(word_at(&entry.page, 0x04) as usize);
    relink(table, entry.first, back, taken, 0, none);
    put_down(
        image,
        s,
        table,
        none,
        taken,
        bytes,
        EntryWrite {
            always: false,
            at: directory.at,
            page: kept,
        },
        EntryWrite {
            always: false,
            at: entry.at,
            page: contents,
        },
    );
}

// Replaces the bytes of a file: judges locks and need against what is free, and then puts the new contents down. The list of
// free clusters stays in a frame of its own: inlined it would lie under the check of the card, past the header's bound of the stack.
#[inline(never)]
pub(crate) fn replace_entry(
    image: &mut [u8],
    table: &mut [u32],
    s: Superblock,
    directory: EntryAt,
    entry: EntryAt,
    time: &[u8],
    bytes: &[u8],
) -> Result<(), Refusal>
    requires { Open s image.old table.old × ReplaceLands s image.old table.old directory time.now bytes.now entry }
    ensures { Leaves (replaced_entry s image.old table.old directory entry time.now bytes.now) result image.new }
{
    if is_directory(&entry.page) {
        return Err(Refusal::WrongKind);
    }
    if either_locked(&entry.page, &directory.page) {
        return Err(Refusal::Locked);
    }
    let mut list = [0u32; MOST_CLUSTERS];
    let free = collect_free(table, s, &mut list);
    if free < clusters_for(bytes.len()) {
        return Err(Refusal::NoRoom);
    }
    replace_listed(
        image,
        table,
        s,
        &list[..free],
        directory,
        entry,
        time,
        bytes,
    );
    Ok(())
}

// Takes an entry away, with the `count` clusters of its chain.
fn take_away(
    image: &mut [u8],
    table: &mut [u32],
    s: Superblock,
    directory: EntryAt,
    entry: EntryAt,
    count: usize,
)
    requires { Open s image.old table.old × Lands s.end (removed_writes directory entry) }
    ensures { image.new ≡ removed_image s image.old table.old directory entry count }
{
    let gone = killed_page(&entry.page);
    let kept = with_length(&directory.page, word_at(&directory.page, 0x04));
    let none = [0u32; 0];
    relink(table, entry.first, count, &none, 0, &none);
    put_down(
        image,
        s,
        table,
        &none,
        &none,
        b"",
        EntryWrite {
            always: false,
            at: directory.at,
            page: kept,
        },
        EntryWrite {
            always: false,
            at: entry.at,
            page: gone,
        },
    );
}

// Deletes a file.
pub(crate) fn delete_entry(
    image: &mut [u8],
    table: &mut [u32],
    s: Superblock,
    directory: EntryAt,
    entry: EntryAt,
) -> Result<(), Refusal>
    requires { Open s image.old table.old × DeleteLands s image.old table.old directory entry }
    ensures { Leaves (deleted_entry s image.old table.old directory entry) result image.new }
{
    if is_directory(&entry.page) {
        return Err(Refusal::WrongKind);
    }
    if either_locked(&entry.page, &directory.page) {
        return Err(Refusal::Locked);
    }
    let count = clusters_for(word_at(&entry.page, 0x04) as usize);
    take_away(image, table, s, directory, entry, count);
    Ok(())
}

// Removes an empty directory.
pub(crate) fn remove_entry(
    image: &mut [u8],
    table: &mut [u32],
    s: Superblock,
    directory: EntryAt,
    entry: EntryAt,
) -> Result<(), Refusal>
    requires { Open s image.old table.old × RemoveLands s image.old table.old directory entry }
    ensures { Leaves (removed_entry s image.old table.old directory entry) result image.new }
{
    if !is_directory(&entry.page) {
        return Err(Refusal::WrongKind);
    }
    let entries = word_at(&entry.page, 0x04);
    let start = next_of(table, entry.first);
    let card = Card {
        image,
        table,
        geometry: s.geometry,
    };
    if card.first_live(start, slots_of(entries), 0).is_some() {
        return Err(Refusal::NotEmpty);
    }
    if either_locked(&entry.page, &directory.page) {
        return Err(Refusal::Locked);
    }
    take_away(
        image,
        table,
        s,
        directory,
        entry,
        directory_clusters(entries),
    );
    Ok(())
}
