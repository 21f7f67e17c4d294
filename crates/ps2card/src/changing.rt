// The five changes, as C and Rust call them.
ghost use Rattle.std.specs.Prelude.{◌≡◌};
ghost use Rattle.change.specs.Changed.{path_in};
ghost use Rattle.model.specs.Change as is;
ghost use Rattle.ps2card.specs.Answer.{number_in, page_after};
ghost use Rattle.ps2card.specs.Formats.{change_by};

use crate::formats::format_of;
use crate::{tell_answer, tell_refusal};
use change::{create, delete, make_dir, remove_dir, replace};
use layout::Refusal;

// Creates a file of these bytes at a path, with this time. A refusal leaves the whole image as it was, as in every change.
#[unsafe(no_mangle)]
pub extern "C" fn ps2card_create(
    format: u32,
    image: &mut [u8],
    path: &[u8],
    time: &[u8; 8],
    bytes: &[u8],
    page: &mut usize,
) -> u32
    ensures value { result ≡ number_in (change_by format (is.create (path_in path.now) time.now bytes.now) image.old).answer }
    ensures page_after { page.new ≡ page_after (change_by format (is.create (path_in path.now) time.now bytes.now) image.old).answer page.old }
    ensures image_after { image.new ≡ (change_by format (is.create (path_in path.now) time.now bytes.now) image.old).image }
{
    let Some(known) = format_of(format) else {
        return tell_refusal(Refusal::BadLength, page);
    };
    tell_answer(create(known, image, path, time, bytes), page)
}

// Replaces the bytes of the file at a path; its time of change becomes this time.
#[unsafe(no_mangle)]
pub extern "C" fn ps2card_replace(
    format: u32,
    image: &mut [u8],
    path: &[u8],
    time: &[u8; 8],
    bytes: &[u8],
    page: &mut usize,
) -> u32
    ensures value { result ≡ number_in (change_by format (is.replace (path_in path.now) time.now bytes.now) image.old).answer }
    ensures page_after { page.new ≡ page_after (change_by format (is.replace (path_in path.now) time.now bytes.now) image.old).answer page.old }
    ensures image_after { image.new ≡ (change_by format (is.replace (path_in path.now) time.now bytes.now) image.old).image }
{
    let Some(known) = format_of(format) else {
        return tell_refusal(Refusal::BadLength, page);
    };
    tell_answer(replace(known, image, path, time, bytes), page)
}

// Deletes the file at a path.
#[unsafe(no_mangle)]
pub extern "C" fn ps2card_delete(
    format: u32,
    image: &mut [u8],
    path: &[u8],
    page: &mut usize,
) -> u32
    ensures value { result ≡ number_in (change_by format (is.delete (path_in path.now)) image.old).answer }
    ensures page_after { page.new ≡ page_after (change_by format (is.delete (path_in path.now)) image.old).answer page.old }
    ensures image_after { image.new ≡ (change_by format (is.delete (path_in path.now)) image.old).image }
{
    let Some(known) = format_of(format) else {
        return tell_refusal(Refusal::BadLength, page);
    };
    tell_answer(delete(known, image, path), page)
}

// Makes a directory at a path, with this time.
#[unsafe(no_mangle)]
pub extern "C" fn ps2card_make_dir(
    format: u32,
    image: &mut [u8],
    path: &[u8],
    time: &[u8; 8],
    page: &mut usize,
) -> u32
    ensures value { result ≡ number_in (change_by format (is.make_directory (path_in path.now) time.now) image.old).answer }
    ensures page_after { page.new ≡ page_after (change_by format (is.make_directory (path_in path.now) time.now) image.old).answer page.old }
    ensures image_after { image.new ≡ (change_by format (is.make_directory (path_in path.now) time.now) image.old).image }
{
    let Some(known) = format_of(format) else {
        return tell_refusal(Refusal::BadLength, page);
    };
    tell_answer(make_dir(known, image, path, time), page)
}

// Removes the empty directory at a path.
#[unsafe(no_mangle)]
pub extern "C" fn ps2card_remove_dir(
    format: u32,
    image: &mut [u8],
    path: &[u8],
    page: &mut usize,
) -> u32
    ensures value { result ≡ number_in (change_by format (is.remove_directory (path_in path.now)) image.old).answer }
    ensures page_after { page.new ≡ page_after (change_by format (is.remove_directory (path_in path.now)) image.old).answer page.old }
    ensures image_after { image.new ≡ (change_by format (is.remove_directory (path_in path.now)) image.old).image }
{
    let Some(known) = format_of(format) else {
        return tell_refusal(Refusal::BadLength, page);
    };
    tell_answer(remove_dir(known, image, path), page)
}
