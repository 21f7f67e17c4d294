// The next live entry of a directory.
ghost use Rattle.std.specs.Prelude.{◌≡◌, ◌+◌};
ghost use Rattle.lookup.specs.Answers.{TellsStep};
ghost use Rattle.layout.specs.Mended.{mended_of};
ghost use Rattle.lookup.specs.Mended.{reported};
ghost use Rattle.lookup.specs.Step.{step_of};
ghost use Rattle.lookup.specs.Called.{StepsAt};

use crate::call::stand;
use crate::way::EntryAt;
use fields::entries::{Entry, entry_of};
use fields::kinds::is_directory;
use fields::numbers::word_at;
use layout::Refusal;
use model::MOST_CLUSTERS;
use page::Format;
use tree::card::Card;
use tree::slots::{next_of, slots_of};

// The slot that a directory step leads to, and the entry in it.
#[derive(Clone, Copy)]
pub struct Stepped {
    pub slot: u32,
    pub entry: Entry,
}

// A step through a directory.
fn step_in(card: &Card, directory: &EntryAt, slot: u32) -> Result<Option<Stepped>, Refusal>
    ensures { StepsAt card.now directory.now slot result }
{
    if !is_directory(&directory.page) {
        return Err(Refusal::WrongKind);
    }
    let start = next_of(card.table, directory.first);
    let count = slots_of(word_at(&directory.page, 0x04));
    let Some(place) = card.first_live(start, count, slots_of(slot)) else {
        return Ok(None);
    };
    let mut page = [0u8; 512];
    if !card.read_slot(place.page, &mut page) {
        return Ok(None);
    }
    Ok(Some(Stepped {
        slot: place.slot + 2,
        entry: entry_of(&page),
    }))
}

// The first live entry of the directory at a path from a slot on, never before slot 2, or the end. The lent count becomes that
// of the corrected chunks; a refusal leaves it.
pub fn step(
    format: Format,
    image: &[u8],
    path: &[u8],
    slot: u32,
    mended: &mut usize,
) -> Result<Option<Stepped>, Refusal>
    ensures told { TellsStep (step_of format image.now path.now slot) result }
    ensures counted { mended.new ≡ reported (step_of format image.now path.now slot) (mended_of format image.now) mended.old }
{
    let mut room = [0u32; MOST_CLUSTERS];
    let stood = stand(format, image, path, &mut room)?;
    let stepped = step_in(&stood.card, &stood.entry, slot)?;
    *mended = stood.mended;
    Ok(stepped)
}
