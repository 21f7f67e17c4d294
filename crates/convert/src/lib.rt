// An image in the other format: the data of each page as read, written in turn.
#![tactic(auto)]

ghost use Rattle.std.specs.Prelude.{◌≡◌, true, List, ℕ, ◌<◌, length};
ghost use Rattle.page.specs.declared.Format.TheVariants.{Plain, Raw};
ghost use Rattle.page.specs.Page.{is_some, page_at, pages_in};
ghost use Rattle.model.specs.Check.{ok};
ghost use Rattle.layout.specs.Refusal.{told_by};
ghost use Rattle.layout.specs.Superblock.{up_to};
ghost use Rattle.layout.specs.Table.{data_of, need_pages};
ghost use Rattle.convert.specs.Converted.{filled, in_format, converted, Converts};

use layout::Refusal;
use layout::page0::{clusters_in, good_length};
use page::{Format, cluster_bytes, judge_page, page_count, read_page, write_page};

// Every page of the image in turn: the first that is unreadable decides.
fn judge_pages(format: Format, image: &[u8]) -> Result<(), Refusal>
    ensures { (made : List ℕ) → told_by (λ u. made) result ≡ need_pages format image.now (up_to (λ p. p) (pages_in format (length image.now))) (ok made) }
{
    for p in 0..page_count(format, image) {
        if judge_page(format, image, p).is_none() {
            return Err(Refusal::UnreadablePage(p));
        }
    }
    Ok(())
}

// The refusals in their order. All pages are judged before a byte is written.
#[tactic(auto, unfolding(crate::specs::Converted::converted, layout::specs::Table::unless))]
fn judge(from: Format, to: Format, image: &[u8], room: usize) -> Result<(), Refusal>
    ensures { told_by (λ u. in_format from to image.now) result ≡ converted from to image.now room }
{
    if !good_length(from, image.len()) {
        return Err(Refusal::BadLength);
    }
    if room != cluster_bytes(to) * clusters_in(from, image.len()) {
        return Err(Refusal::WrongOutput);
    }
    judge_pages(from, image)
}

// Writes the data of each page, all of which are readable.
fn write_pages(from: Format, to: Format, image: &[u8], out: &mut [u8])
    requires { (p : ℕ) → p < pages_in from (length image.now) → is_some (page_at from image.now p) ≡ true }
    ensures { out.new ≡ filled to (λ p. data_of (page_at from image.now p)) (pages_in from (length image.now)) out.old }
{
    let mut page = [0u8; 512];
    for p in 0..page_count(from, image) {
        read_page(from, image, p, &mut page);
        write_page(to, out, p, &page);
    }
}

fn convert(from: Format, to: Format, image: &[u8], out: &mut [u8]) -> Result<(), Refusal>
    ensures { Converts (converted from to image.now (length out.old)) result out.old out.new }
{
    judge(from, to, image, out.len())?;
    out.fill(0);
    write_pages(from, to, image, out);
    Ok(())
}

// A raw image without its spare bytes. C has a function for each way.
pub fn to_plain(image: &[u8], out: &mut [u8]) -> Result<(), Refusal>
    ensures { Converts (converted Raw Plain image.now (length out.old)) result out.old out.new }
{
    convert(Format::Raw, Format::Plain, image, out)
}

// A plain image with spare bytes: fresh codes, then zeros.
pub fn to_raw(image: &[u8], out: &mut [u8]) -> Result<(), Refusal>
    ensures { Converts (converted Plain Raw image.now (length out.old)) result out.old out.new }
{
    convert(Format::Plain, Format::Raw, image, out)
}
