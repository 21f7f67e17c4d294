// The conversions between the formats, as C and Rust call them.
ghost use Rattle.std.specs.Prelude.{◌≡◌, length};
ghost use Rattle.page.specs.declared.Format.TheVariants.{Plain, Raw};
ghost use Rattle.convert.specs.Converted.{converted, output_after};
ghost use Rattle.ps2card.specs.Answer.{number_in, page_after};

use crate::tell_answer;
use convert::{to_plain, to_raw};

// A raw image without its spare bytes; a refusal leaves the whole output.
#[unsafe(no_mangle)]
pub extern "C" fn ps2card_to_plain(image: &[u8], out: &mut [u8], page: &mut usize) -> u32
    ensures value { result ≡ number_in (converted Raw Plain image.now (length out.old)) }
    ensures page_after { page.new ≡ page_after (converted Raw Plain image.now (length out.old)) page.old }
    ensures out_after { out.new ≡ output_after (converted Raw Plain image.now (length out.old)) out.old }
{
    tell_answer(to_plain(image, out), page)
}

// A plain image with spare bytes: fresh codes, then zeros. No page of it is unreadable.
#[unsafe(no_mangle)]
pub extern "C" fn ps2card_to_raw(image: &[u8], out: &mut [u8]) -> u32
    ensures value { result ≡ number_in (converted Plain Raw image.now (length out.old)) }
    ensures out_after { out.new ≡ output_after (converted Plain Raw image.now (length out.old)) out.old }
{
    match to_raw(image, out) {
        Err(refusal) => refusal.number(),
        Ok(()) => 0,
    }
}
