// What C and Rust call: byte slices, byte arrays and numbers alone. A call answers 0, or the number of the refusal.
#![tactic(auto)]

pub mod changing;
pub mod converting;
pub mod entries;
mod formats;
pub mod reading;
pub mod texts;

ghost use Rattle.std.specs.Prelude.{◌≡◌};
ghost use Rattle.layout.specs.Refusal.{number_of, page_of, told};
ghost use Rattle.ps2card.specs.Answer.{number_in, page_after, page_left, value_after};
ghost use Rattle.ps2card.specs.Formats.{check_by};

use formats::format_of;
use layout::Refusal;
use tree::check;

// The paper's number of a refusal; the page of an unreadable one goes to `page`.
pub(crate) fn tell_refusal(refusal: Refusal, page: &mut usize) -> u32
    ensures { (result ≡ number_of refusal) × (page.new ≡ page_left (number_of refusal) (page_of refusal) page.old) }
{
    let number = refusal.number();
    if number == 2 {
        *page = refusal.page();
    }
    number
}

// 0 for what is done, or what its refusal tells.
pub(crate) fn tell_answer(answer: Result<(), Refusal>, page: &mut usize) -> u32
    ensures { (result ≡ number_in (told answer)) × (page.new ≡ page_after (told answer) page.old) }
{
    match answer {
        Ok(()) => 0,
        Err(refusal) => tell_refusal(refusal, page),
    }
}

// The check of a card: N, free, reached, orphaned and held back, and the corrected chunks; a refusal leaves them as they were.
#[unsafe(no_mangle)]
pub extern "C" fn ps2card_check(
    format: u32,
    image: &[u8],
    page: &mut usize,
    clusters: &mut u32,
    free: &mut usize,
    reached: &mut usize,
    orphaned: &mut usize,
    held: &mut usize,
    mended: &mut usize,
) -> u32
    ensures value { result ≡ number_in (check_by format image.now) }
    ensures page_after { page.new ≡ page_after (check_by format image.now) page.old }
    ensures clusters_after { clusters.new ≡ value_after (λ c. c.clusters) (check_by format image.now) clusters.old }
    ensures free_after { free.new ≡ value_after (λ c. c.free) (check_by format image.now) free.old }
    ensures reached_after { reached.new ≡ value_after (λ c. c.reached) (check_by format image.now) reached.old }
    ensures orphaned_after { orphaned.new ≡ value_after (λ c. c.orphaned) (check_by format image.now) orphaned.old }
    ensures held_after { held.new ≡ value_after (λ c. c.held) (check_by format image.now) held.old }
    ensures mended_after { mended.new ≡ value_after (λ c. c.mended) (check_by format image.now) mended.old }
{
    let Some(known) = format_of(format) else {
        return tell_refusal(Refusal::BadLength, page);
    };
    match check(known, image) {
        Err(refusal) => tell_refusal(refusal, page),
        Ok(counts) => {
            *clusters = counts.clusters;
            *free = counts.free;
            *reached = counts.reached;
            *orphaned = counts.orphaned;
            *held = counts.held;
            *mended = counts.mended;
            0
        }
    }
}
