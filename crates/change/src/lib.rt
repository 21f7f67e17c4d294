// The five changes of a card. Each checks the card, looks up its path, judges need against what is free, and only then writes.
// Image and table are lent as two `&mut`: with a struct of both every clause would speak of `.new` through a second reference.
// The calls are five functions, since C has five.
#![tactic(auto)]

mod adding;
mod calls;
mod deeds;
mod editing;
mod entries;
mod pages;
mod sizes;
mod store;
mod words;

ghost use Rattle.model.specs.Change as is;
ghost use Rattle.change.specs.Answers.{Leaves};
ghost use Rattle.change.specs.Changed.{changed, path_in};

use calls::{Change, make_change};
use layout::Refusal;
use page::Format;

// Creates a file of these bytes at a path, with this time.
pub fn create(
    format: Format,
    image: &mut [u8],
    path: &[u8],
    time: &[u8],
    bytes: &[u8],
) -> Result<(), Refusal>
    ensures { Leaves (changed format (is.create (path_in path.now) time.now bytes.now) image.old) result image.new }
{
    make_change(format, image, Change::Create { time, bytes }, path)
}

// Replaces the bytes of the file at a path; its time of change becomes this time.
pub fn replace(
    format: Format,
    image: &mut [u8],
    path: &[u8],
    time: &[u8],
    bytes: &[u8],
) -> Result<(), Refusal>
    ensures { Leaves (changed format (is.replace (path_in path.now) time.now bytes.now) image.old) result image.new }
{
    make_change(format, image, Change::Replace { time, bytes }, path)
}

// Deletes the file at a path.
pub fn delete(format: Format, image: &mut [u8], path: &[u8]) -> Result<(), Refusal>
    ensures { Leaves (changed format (is.delete (path_in path.now)) image.old) result image.new }
{
    make_change(format, image, Change::Delete, path)
}

// Makes a directory at a path, with this time.
pub fn make_dir(format: Format, image: &mut [u8], path: &[u8], time: &[u8]) -> Result<(), Refusal>
    ensures { Leaves (changed format (is.make_directory (path_in path.now) time.now) image.old) result image.new }
{
    make_change(format, image, Change::Make { time }, path)
}

// Removes the empty directory at a path.
pub fn remove_dir(format: Format, image: &mut [u8], path: &[u8]) -> Result<(), Refusal>
    ensures { Leaves (changed format (is.remove_directory (path_in path.now)) image.old) result image.new }
{
    make_change(format, image, Change::Remove, path)
}
