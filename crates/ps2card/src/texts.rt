// The listing of a card.
ghost use Rattle.std.specs.Prelude.{◌≡◌, length};
ghost use Rattle.listing.specs.Text.{fitted};
ghost use Rattle.ps2card.specs.Formats.{list_by};

use crate::formats::format_of;
use page::Format;

// Writes as much of the listing as fits, or of a refusal's line, with times so many minutes ahead of Japan's, and answers how long the
// whole of it is.
#[unsafe(no_mangle)]
pub extern "C" fn ps2card_list(format: u32, image: &[u8], minutes: i32, out: &mut [u8]) -> usize
    ensures value { result ≡ length (list_by format image.now minutes) }
    ensures out_after { out.new ≡ fitted out.old (list_by format image.now minutes) }
{
    match format_of(format) {
        Some(known) => listing::list(known, image, minutes, out),
        // An image of no bytes is the shortest that is refused with 1.
        None => listing::list(Format::Raw, b"", minutes, out),
    }
}
