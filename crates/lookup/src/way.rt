// From the root along the names of a path, from the left.
ghost use Rattle.std.specs.Prelude.{◌≡◌};
ghost use Rattle.tree.specs.Card.{view_of};
ghost use Rattle.lookup.specs.Descend.{descended, entered, names_from};

use fields::kinds::is_directory;
use fields::numbers::word_at;
use fields::paths::name_at;
use layout::Refusal;
use tree::card::Card;
use tree::slots::{next_of, slots_of};

// An entry that was found: its page's number, counted from the first allocatable cluster, the cluster in which its chain
// begins, and the page's data.
#[derive(Drop)]
pub struct EntryAt {
    pub at: usize,
    pub first: u32,
    pub page: [u8; 512],
}

// One name further: from a directory to the entry with this name in it.
pub fn enter(card: &Card, directory: &EntryAt, name: &[u8]) -> Result<EntryAt, Refusal>
    ensures { result ≡ entered (view_of card.now) card.now.table.now directory.now.first directory.now.page name.now }
{
    if !is_directory(&directory.page) {
        return Err(Refusal::WrongKind);
    }
    let start = next_of(card.table, directory.first);
    let count = slots_of(word_at(&directory.page, 0x04));
    let place = card.find_name(start, count, name).ok_or(Refusal::Absent)?;
    let mut page = [0u8; 512];
    if !card.read_slot(place.page, &mut page) {
        return Err(Refusal::Absent);
    }
    Ok(EntryAt {
        at: place.page,
        first: word_at(&page, 0x10),
        page,
    })
}

// Where the first `count` names of a path lead from the root.
pub fn descend(card: &Card, path: &[u8], count: usize) -> Result<EntryAt, Refusal>
    ensures { result ≡ descended (view_of card.now) card.now.table.now (names_from path.now 0 count) }
{
    let mut page = [0u8; 512];
    if !card.read_slot(0, &mut page) {
        return Err(Refusal::Absent);
    }
    let mut here = EntryAt {
        at: 0,
        first: 0,
        page,
    };
    for i in 0..count {
        here = enter(card, &here, name_at(path, i))?;
    }
    Ok(here)
}
