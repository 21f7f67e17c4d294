// What an entry is, by its mode, its name and its length.
ghost use Rattle.std.specs.Prelude.{◌≡◌, ◌<◌};
ghost use Rattle.model.specs.Entry.{entry_of, has_bit, is_directory, is_live, is_locked, is_root};
ghost use Rattle.fields.specs.Kinds.{kind_of};

use crate::names::{is_dot, name_is_good};
use crate::numbers::{half_at, word_at};
use model::END_MARK;

// The bits of a mode.
const EXISTS: u32 = 0x8000;

const DIRECTORY: u32 = 0x20;

const FILE: u32 = 0x10;

const WRITABLE: u32 = 0x02;

// What an entry from slot 2 on is. File: its bytes and its first cluster. Directory: its entries and its first cluster.
// Bad: live, and neither by the rules. That the depth allows a directory and that the name is new is not judged here.
#[derive(Clone, Copy)]
pub enum Kind {
    Dead,
    File { length: u32, first: u32 },
    Directory { length: u32, first: u32 },
    Bad,
}

// Whether the mode of an entry has a bit.
fn has_bit(page: &[u8; 512], bit: u32) -> bool
    requires { 0 < bit }
    ensures { result ≡ has_bit (entry_of page.now).mode bit }
{
    half_at(page, 0x00) / bit % 2 == 1
}

pub fn is_live(page: &[u8; 512]) -> bool
    ensures { result ≡ is_live (entry_of page.now) }
{
    has_bit(page, EXISTS)
}

pub fn is_directory(page: &[u8; 512]) -> bool
    ensures { result ≡ is_directory (entry_of page.now) }
{
    is_live(page) & has_bit(page, DIRECTORY) & !has_bit(page, FILE)
}

// Whether the entry lacks the write bit.
pub fn is_locked(page: &[u8; 512]) -> bool
    ensures { result ≡ is_locked (entry_of page.now).mode }
{
    !has_bit(page, WRITABLE)
}

// Whether a page can be the root's own first entry.
pub fn is_root(page: &[u8; 512]) -> bool
    ensures { result ≡ is_root (entry_of page.now) }
{
    is_directory(page) & is_dot(page) & (2 <= word_at(page, 0x04))
}

// The name is looked at once, and not where the entry is dead.
#[tactic(auto, unfolding(crate::specs::Kinds::kind_of))]
pub fn kind_of(page: &[u8; 512]) -> Kind
    ensures { result ≡ kind_of (entry_of page.now) }
{
    if !is_live(page) {
        return Kind::Dead;
    }
    let length = word_at(page, 0x04);
    let first = word_at(page, 0x10);
    let good = name_is_good(page);
    let file = has_bit(page, FILE);
    let directory = has_bit(page, DIRECTORY);
    if file & !directory & good & ((0 < length) | (first == END_MARK)) {
        return Kind::File { length, first };
    }
    if directory & !file & good & (2 <= length) {
        return Kind::Directory { length, first };
    }
    Kind::Bad
}
