// The five changes from their path on: the path (8), the time (14), the names on the way (9, 10), then the directory's own business.
ghost use Rattle.std.specs.Prelude.{◌≡◌};
ghost use Rattle.change.specs.Answers.{Leaves};
ghost use Rattle.change.specs.Calls.{entry_of_name};
ghost use Rattle.change.specs.Changed.{changed, path_in};
ghost use Rattle.change.specs.Kinds.{CanChange, Loaded, Ready, change_of, changed_in, takes_names, takes_time};

use crate::adding::{create_in, make_in};
use crate::editing::{delete_entry, remove_entry, replace_entry};
use fields::paths::{name_at, parse_path};
use fields::times::is_valid_time;
use layout::{Refusal, Superblock};
use lookup::way::{EntryAt, descend, enter};
use model::{MOST_CLUSTERS, MOST_NAMES};
use page::Format;
use tree::card::Card;
use tree::open_checked;

// A change, with what it takes beside its path: a time, and the bytes of a file. One value, and no closure for each, because one
// definition, `changed`, covers all five.
#[derive(Clone, Copy)]
pub(crate) enum Change<'a> {
    Create { time: &'a [u8], bytes: &'a [u8] },
    Make { time: &'a [u8] },
    Replace { time: &'a [u8], bytes: &'a [u8] },
    Delete,
    Remove,
}

impl Change<'_> {
    // Whether a path of that many names can be the change's: the root is never, and a new directory has fewer than MOST_NAMES.
    fn takes_names(self, count: usize) -> bool
        ensures { result ≡ takes_names self.entry count }
    {
        match self {
            Change::Make { .. } => 0 < count && count < MOST_NAMES,
            _ => 0 < count,
        }
    }

    // Whether the time is valid; removing takes none.
    fn takes_time(self) -> bool
        ensures { result ≡ takes_time self.entry }
    {
        match self {
            Change::Create { time, .. } | Change::Make { time } | Change::Replace { time, .. } => {
                is_valid_time(time)
            }
            Change::Delete | Change::Remove => true,
        }
    }
}

// The entry of this name in a directory.
fn entry_in(
    image: &[u8],
    table: &[u32],
    s: Superblock,
    directory: &EntryAt,
    name: &[u8],
) -> Result<EntryAt, Refusal>
    ensures { result ≡ entry_of_name s image.now table.now directory.now name.now }
{
    let card = Card {
        image,
        table,
        geometry: s.geometry,
    };
    enter(&card, directory, name)
}

// The change in the directory that the path leads to.
fn change_in(
    image: &mut [u8],
    table: &mut [u32],
    s: Superblock,
    change: Change,
    directory: EntryAt,
    name: &[u8],
) -> Result<(), Refusal>
    requires { CanChange s image.old table.old directory name.now change }
    ensures { Leaves (changed_in s image.old table.old directory name.now change.entry) result image.new }
{
    match change {
        Change::Create { time, bytes } => {
            create_in(image, table, s, directory, name, time, bytes)
        }
        Change::Make { time } => make_in(image, table, s, directory, name, time),
        Change::Replace { time, bytes } => {
            let entry = entry_in(image, table, s, &directory, name)?;
            replace_entry(image, table, s, directory, entry, time, bytes)
        }
        Change::Delete => {
            let entry = entry_in(image, table, s, &directory, name)?;
            delete_entry(image, table, s, directory, entry)
        }
        Change::Remove => {
            let entry = entry_in(image, table, s, &directory, name)?;
            remove_entry(image, table, s, directory, entry)
        }
    }
}

// The change at a path of `count` names, with path and time judged.
fn change_at(
    image: &mut [u8],
    table: &mut [u32],
    s: Superblock,
    change: Change,
    path: &[u8],
    count: usize,
) -> Result<(), Refusal>
    requires { Ready image.old s table.old change path.now count }
    ensures { Leaves (changed s.geometry.format (change_of change.entry (path_in path.now)) image.old) result image.new }
{
    let card = Card {
        image,
        table,
        geometry: s.geometry,
    };
    let directory = descend(&card, path, count - 1)?;
    change_in(image, table, s, change, directory, name_at(path, count - 1))
}

// The change of a card that the check accepts, whose table is loaded.
fn change_card(
    image: &mut [u8],
    table: &mut [u32],
    s: Superblock,
    change: Change,
    path: &[u8],
) -> Result<(), Refusal>
    requires { Loaded image.old s table.old }
    ensures { Leaves (changed s.geometry.format (change_of change.entry (path_in path.now)) image.old) result image.new }
{
    let count = parse_path(path).ok_or(Refusal::BadPath)?;
    if !change.takes_names(count) {
        return Err(Refusal::BadPath);
    }
    if !change.takes_time() {
        return Err(Refusal::BadTime);
    }
    change_at(image, table, s, change, path, count)
}

// The whole call: the check first, and nothing is written before the last refusal is excluded.
pub(crate) fn make_change(
    format: Format,
    image: &mut [u8],
    change: Change,
    path: &[u8],
) -> Result<(), Refusal>
    ensures { Leaves (changed format (change_of change.entry (path_in path.now)) image.old) result image.new }
{
    let mut table = [0u32; MOST_CLUSTERS];
    let s = open_checked(format, image, &mut table)?.superblock;
    let end = s.end as usize;
    change_card(image, &mut table[..end], s, change, path)
}
