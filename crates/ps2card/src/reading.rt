// The read of a file, as C and Rust call it.
ghost use Rattle.std.specs.Prelude.{◌≡◌, length};
ghost use Rattle.lookup.specs.Answers.{buffer_after};
ghost use Rattle.lookup.specs.Mended.{reported};
ghost use Rattle.ps2card.specs.Answer.{number_in, page_after, value_after};
ghost use Rattle.ps2card.specs.Formats.{read_by, read_mended_by};

use crate::formats::format_of;
use crate::tell_refusal;
use layout::Refusal;
use lookup::reading::read;

// Bytes of a file from an offset on, and how many, with the corrected chunks; a refusal leaves both numbers and the whole buffer,
// an acceptance the rest of it.
#[unsafe(no_mangle)]
pub extern "C" fn ps2card_read(
    format: u32,
    image: &[u8],
    path: &[u8],
    offset: usize,
    out: &mut [u8],
    page: &mut usize,
    count: &mut usize,
    mended: &mut usize,
) -> u32
    ensures value { result ≡ number_in (read_by format image.now path.now offset (length out.old)) }
    ensures page_after { page.new ≡ page_after (read_by format image.now path.now offset (length out.old)) page.old }
    ensures count_after { count.new ≡ value_after length (read_by format image.now path.now offset (length out.old)) count.old }
    ensures mended_after { mended.new ≡ reported (read_by format image.now path.now offset (length out.old)) (read_mended_by format image.now path.now offset (length out.old)) mended.old }
    ensures out_after { out.new ≡ buffer_after (read_by format image.now path.now offset (length out.old)) out.old }
{
    let Some(known) = format_of(format) else {
        return tell_refusal(Refusal::BadLength, page);
    };
    match read(known, image, path, offset, out, mended) {
        Err(refusal) => tell_refusal(refusal, page),
        Ok(copied) => {
            *count = copied;
            0
        }
    }
}
