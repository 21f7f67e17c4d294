// The listing of a card as text in a lent buffer.
#![tactic(auto)]

mod emit;
mod entries;
mod lines;
mod path;
mod stamps;

ghost use Rattle.std.specs.Prelude.{◌≡◌, length, take};
ghost use Rattle.listing.specs.Emit.{Writes};
ghost use Rattle.listing.specs.Render.{Lists};
ghost use Rattle.listing.specs.Room.{Fits};
ghost use Rattle.listing.specs.Text.{fitted, listing_of};

use emit::Text;
use entries::list_tree;
use fields::calendar::is_shift;
use layout::{Refusal, open_card};
use model::MOST_CLUSTERS;
use page::Format;
use tree::card::Card;
use tree::check_in;

// What the programs `list` and `cards` read at most, in bytes.
pub const SMALL_IMAGE: usize = 59136;

// A line has at most 290 bytes: a letter, ten digits, eight names of 31 bytes with `/` before each, a stamp of 19, three spaces, a
// newline.
const LINE_ROOM: usize = 290;

// The most bytes of the listing of so small an image. It has at most 57 clusters, and cluster 0 is not allocatable: the other 56
// hold at most 112 entries, and six lines have the counts.
pub const SMALL_ROOM: usize = (6 + 112) * LINE_ROOM;

// A card's counts and entries, or why it is refused: then nothing is written. What the check accepts opens.
fn list_card(text: &mut Text, format: Format, image: &[u8], minutes: i32) -> Result<(), Refusal>
    ensures { Lists (listing_of format image.now minutes) result text.old text.new }
{
    if !is_shift(minutes) {
        return Err(Refusal::BadShift);
    }
    let mut table = [0u32; MOST_CLUSTERS];
    let counts = check_in(format, image, &mut table)?;
    let s = open_card(format, image, &mut table)?.superblock;
    let card = Card {
        image,
        table: &table[..s.end as usize],
        geometry: s.geometry,
    };
    text.put_counts(counts);
    list_tree(text, &card, minutes);
    Ok(())
}

// The whole listing of an image: its counts and entries, or the line of its refusal.
fn put_listing(text: &mut Text, format: Format, image: &[u8], minutes: i32)
    ensures { Writes text.old (listing_of format image.now minutes) text.new }
{
    if let Err(refusal) = list_card(text, format, image, minutes) {
        text.put_refusal(refusal);
    }
}

// Writes as much of the listing as fits, with times so many minutes ahead of Japan's, and tells how long the whole of it is.
pub fn list(format: Format, image: &[u8], minutes: i32, out: &mut [u8]) -> usize
    ensures length { result ≡ length (listing_of format image.now minutes) }
    ensures text { out.new ≡ fitted out.old (listing_of format image.now minutes) }
{
    let mut text = Text { out, at: 0 };
    put_listing(&mut text, format, image, minutes);
    text.at
}

// The listing of a small image fits its room, whatever the image holds.
pub fn small_fits()
    ensures { Fits SMALL_IMAGE SMALL_ROOM }
{}

// The part of a buffer in which a text of that length stands: all of the buffer where the text is longer.
pub fn written(out: &[u8], length: usize) -> &[u8]
    ensures { result.now ≡ take length out.now }
{
    out.get(..length).unwrap_or(out)
}
