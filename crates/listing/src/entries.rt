// The lines of a card's entries: slot order, a directory before its inside.
ghost use Rattle.std.specs.Prelude.{◌+◌, ◌*◌, ◌≤◌};
ghost use Rattle.tree.specs.Card.{view_of};
ghost use Rattle.tree.specs.Slots.{slot_pages};
ghost use Rattle.listing.specs.Emit.{Writes};
ghost use Rattle.listing.specs.Paths.{path_bytes};
ghost use Rattle.listing.specs.Render.{Leads, WritesTree, line_at, slots_text};
ghost use Rattle.listing.specs.Sizes.{name_room, path_room};

use crate::emit::Text;
use crate::path::Path;
use fields::calendar::modified_at;
use fields::kinds::{is_directory, is_live};
use fields::names::entry_name;
use fields::numbers::word_at;
use model::DEEPEST;
use tree::card::Card;
use tree::slots::{cluster_after, next_of, slot_page, slots_of};

// A directory by its path and its slots from 2 on: `count` of them, which begin in cluster `start`.
#[derive(Drop)]
pub(crate) struct Directory {
    pub(crate) path: Path,
    pub(crate) start: u32,
    pub(crate) count: u32,
}

// The line of the entry in a page, with its directory's path; none where the page is unreadable or the entry dead. Only a
// directory has an inside.
fn list_entry(
    text: &mut Text,
    card: &Card,
    minutes: i32,
    path: &Path,
    page: usize,
) -> Option<Directory>
    requires { path.now.len + name_room ≤ path_room }
    ensures line { Writes text.old (line_at minutes (path_bytes path.now) ((view_of card.now).entry page)) text.new }
    ensures leads { Leads card.now.table.now (path_bytes path.now) ((view_of card.now).entry page) path.now.len result }
{
    let mut d = [0u8; 512];
    if !card.read_slot(page, &mut d) || !is_live(&d) {
        return None;
    }
    let length = word_at(&d, 0x04);
    let own = path.with_name(entry_name(&d));
    let changed = modified_at(&d, minutes);
    if !is_directory(&d) {
        text.put_entry(b'f', length, own.as_bytes(), changed);
        return None;
    }
    text.put_entry(b'd', length, own.as_bytes(), changed);
    Some(Directory {
        path: own,
        start: next_of(card.table, word_at(&d, 0x10)),
        count: slots_of(length),
    })
}

// The lines of a directory's slots; directories may lie `below` further down. The minutes go along: they are no part of the text.
fn list_slots(text: &mut Text, card: &Card, minutes: i32, directory: &Directory, below: u32)
    requires { directory.now.path.len + name_room * (below + 1) ≤ path_room }
    ensures { Writes text.old (slots_text minutes (view_of card.now) card.now.table.now below (path_bytes directory.now.path) (slot_pages card.now.table.now directory.now.start 0 directory.now.count)) text.new }
{
    let mut c = directory.start;
    for k in 0..directory.count {
        let inside = list_entry(text, card, minutes, &directory.path, slot_page(c, k));
        if let Some(inside) = inside {
            if 0 < below {
                list_slots(text, card, minutes, &inside, below - 1);
            }
        }
        c = cluster_after(card.table, c, k);
    }
}

// The lines of all entries of a card that the check accepts.
pub(crate) fn list_tree(text: &mut Text, card: &Card, minutes: i32)
    ensures { WritesTree minutes (view_of card.now) text.old text.new }
{
    let mut d = [0u8; 512];
    if card.read_slot(0, &mut d) {
        let root = Directory {
            path: Path::root(),
            start: next_of(card.table, 0),
            count: slots_of(word_at(&d, 0x04)),
        };
        list_slots(text, card, minutes, &root, DEEPEST);
    }
}
