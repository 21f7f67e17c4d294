// An entry's fields as one value.
ghost use Rattle.std.specs.Prelude.{◌≡◌, ◌+◌, ◌≤◌};
ghost use Rattle.model.specs.Bytes.{slice};
ghost use Rattle.model.specs.Entry.{entry_of};
ghost use Rattle.fields.specs.Entries.{fields_of_entry};

use crate::numbers::{half_at, word_at};

#[derive(Clone, Copy)]
pub struct Entry {
    pub mode: u16,
    pub length: u32,
    pub created: [u8; 8],
    pub first: u32,
    pub dir_entry: u32,
    pub modified: [u8; 8],
    pub attribute: u32,
    pub name: [u8; 32],
}

// The bytes of a field, as many as it has.
fn field<const N: usize>(page: &[u8; 512], from: usize) -> [u8; N]
    requires { from + N ≤ 512 }
    ensures { result ≡ slice page.now from N }
{
    let mut bytes = [0u8; N];
    bytes.copy_from_slice(&page[from..from + N]);
    bytes
}

// Every field of an entry's page.
pub fn entry_of(page: &[u8; 512]) -> Entry
    ensures { result ≡ fields_of_entry (entry_of page.now) }
{
    Entry {
        mode: half_at(page, 0x00) as u16,
        length: word_at(page, 0x04),
        created: field(page, 0x08),
        first: word_at(page, 0x10),
        dir_entry: word_at(page, 0x14),
        modified: field(page, 0x18),
        attribute: word_at(page, 0x20),
        name: field(page, 0x40),
    }
}
