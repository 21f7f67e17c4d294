// The entry at a path and the next one of a directory, as C and Rust call them.
ghost use Rattle.std.specs.Prelude.{◌≡◌};
ghost use Rattle.lookup.specs.Mended.{reported};
ghost use Rattle.ps2card.specs.Answer.{entry_after, found_in, number_in, page_after, value_after};
ghost use Rattle.ps2card.specs.Formats.{find_by, mended_by, step_by};

use crate::formats::format_of;
use crate::tell_refusal;
use fields::entries::Entry;
use layout::Refusal;
use lookup::finding::find;
use lookup::stepping::step;

// Hands out every field of an entry, each to a place of its own: C's interface.
fn hand_out(
    entry: Entry,
    mode: &mut u16,
    length: &mut u32,
    created: &mut [u8; 8],
    first: &mut u32,
    dir_entry: &mut u32,
    modified: &mut [u8; 8],
    attribute: &mut u32,
    name: &mut [u8; 32],
)
    ensures mode_after { mode.new ≡ entry.mode }
    ensures length_after { length.new ≡ entry.length }
    ensures created_after { created.new ≡ entry.created }
    ensures first_after { first.new ≡ entry.first }
    ensures dir_entry_after { dir_entry.new ≡ entry.dir_entry }
    ensures modified_after { modified.new ≡ entry.modified }
    ensures attribute_after { attribute.new ≡ entry.attribute }
    ensures name_after { name.new ≡ entry.name }
{
    *mode = entry.mode;
    *length = entry.length;
    let made = entry.created;
    *created = made;
    *first = entry.first;
    *dir_entry = entry.dir_entry;
    let changed = entry.modified;
    *modified = changed;
    *attribute = entry.attribute;
    let field = entry.name;
    *name = field;
}

// The entry at a path, with the corrected chunks; a refusal leaves every field and the count as they were.
#[unsafe(no_mangle)]
pub extern "C" fn ps2card_find(
    format: u32,
    image: &[u8],
    path: &[u8],
    page: &mut usize,
    mode: &mut u16,
    length: &mut u32,
    created: &mut [u8; 8],
    first: &mut u32,
    dir_entry: &mut u32,
    modified: &mut [u8; 8],
    attribute: &mut u32,
    name: &mut [u8; 32],
    mended: &mut usize,
) -> u32
    ensures value { result ≡ number_in (find_by format image.now path.now) }
    ensures page_after { page.new ≡ page_after (find_by format image.now path.now) page.old }
    ensures mended_after { mended.new ≡ reported (find_by format image.now path.now) (mended_by format image.now) mended.old }
    ensures mode_after { mode.new ≡ value_after (λ e. e.mode) (find_by format image.now path.now) mode.old }
    ensures length_after { length.new ≡ value_after (λ e. e.length) (find_by format image.now path.now) length.old }
    ensures created_after { created.new ≡ value_after (λ e. e.created) (find_by format image.now path.now) created.old }
    ensures first_after { first.new ≡ value_after (λ e. e.first_cluster) (find_by format image.now path.now) first.old }
    ensures dir_entry_after { dir_entry.new ≡ value_after (λ e. e.dir_entry) (find_by format image.now path.now) dir_entry.old }
    ensures modified_after { modified.new ≡ value_after (λ e. e.modified) (find_by format image.now path.now) modified.old }
    ensures attribute_after { attribute.new ≡ value_after (λ e. e.attribute) (find_by format image.now path.now) attribute.old }
    ensures name_after { name.new ≡ value_after (λ e. e.name_field) (find_by format image.now path.now) name.old }
{
    let Some(known) = format_of(format) else {
        return tell_refusal(Refusal::BadLength, page);
    };
    match find(known, image, path, mended) {
        Err(refusal) => tell_refusal(refusal, page),
        Ok(entry) => {
            hand_out(
                entry, mode, length, created, first, dir_entry, modified, attribute, name,
            );
            0
        }
    }
}

// The first live entry of a directory from a slot on, never before slot 2: `found` is 1, `at` its slot. At the end `found` is 0, and
// slot and fields stay as they were, as all do on a refusal. The corrected chunks are told at the end too.
#[unsafe(no_mangle)]
pub extern "C" fn ps2card_step(
    format: u32,
    image: &[u8],
    path: &[u8],
    slot: u32,
    page: &mut usize,
    found: &mut u32,
    at: &mut u32,
    mode: &mut u16,
    length: &mut u32,
    created: &mut [u8; 8],
    first: &mut u32,
    dir_entry: &mut u32,
    modified: &mut [u8; 8],
    attribute: &mut u32,
    name: &mut [u8; 32],
    mended: &mut usize,
) -> u32
    ensures value { result ≡ number_in (step_by format image.now path.now slot) }
    ensures page_after { page.new ≡ page_after (step_by format image.now path.now slot) page.old }
    ensures mended_after { mended.new ≡ reported (step_by format image.now path.now slot) (mended_by format image.now) mended.old }
    ensures found_after { found.new ≡ value_after found_in (step_by format image.now path.now slot) found.old }
    ensures at_after { at.new ≡ entry_after (λ x. x.0) (step_by format image.now path.now slot) at.old }
    ensures mode_after { mode.new ≡ entry_after (λ x. x.1.mode) (step_by format image.now path.now slot) mode.old }
    ensures length_after { length.new ≡ entry_after (λ x. x.1.length) (step_by format image.now path.now slot) length.old }
    ensures created_after { created.new ≡ entry_after (λ x. x.1.created) (step_by format image.now path.now slot) created.old }
    ensures first_after { first.new ≡ entry_after (λ x. x.1.first_cluster) (step_by format image.now path.now slot) first.old }
    ensures dir_entry_after { dir_entry.new ≡ entry_after (λ x. x.1.dir_entry) (step_by format image.now path.now slot) dir_entry.old }
    ensures modified_after { modified.new ≡ entry_after (λ x. x.1.modified) (step_by format image.now path.now slot) modified.old }
    ensures attribute_after { attribute.new ≡ entry_after (λ x. x.1.attribute) (step_by format image.now path.now slot) attribute.old }
    ensures name_after { name.new ≡ entry_after (λ x. x.1.name_field) (step_by format image.now path.now slot) name.old }
{
    let Some(known) = format_of(format) else {
        return tell_refusal(Refusal::BadLength, page);
    };
    match step(known, image, path, slot, mended) {
        Err(refusal) => tell_refusal(refusal, page),
        Ok(None) => {
            *found = 0;
            0
        }
        Ok(Some(stepped)) => {
            *found = 1;
            *at = stepped.slot;
            hand_out(
                stepped.entry,
                mode,
                length,
                created,
                first,
                dir_entry,
                modified,
                attribute,
                name,
            );
            0
        }
    }
}
