// The path of an entry, which grows by a name from one directory to the next.
ghost use Rattle.std.specs.Prelude.{◌≤◌};
ghost use Rattle.listing.specs.Sizes.{path_room};

use crate::emit::Text;
use model::MOST_NAMES;

// The most bytes of a name with the `/` before it, and of a whole path.
const NAME_ROOM: usize = 33;

const PATH_ROOM: usize = NAME_ROOM * MOST_NAMES;

// So many bytes of an array: there is no heap.
#[derive(Drop)]
pub(crate) struct Path {
    pub(crate) bytes: [u8; PATH_ROOM],
    pub(crate) len: usize,
    pub(crate) ghost in_room: { len ≤ path_room },
}

impl Path {
    ghost use Rattle.std.specs.Prelude.{◌≡◌, [], ◌+◌, length};
    ghost use Rattle.listing.specs.Paths.{path_bytes};
    ghost use Rattle.listing.specs.Text.{within};

    // The root's path as the beginning of every other: no bytes.
    pub(crate) fn root() -> Path
        ensures { (path_bytes result ≡ []) × (result.len ≡ 0) }
    {
        Path {
            bytes: [0; PATH_ROOM],
            len: 0,
        }
    }

    // One name further.
    pub(crate) fn with_name(&self, name: &[u8]) -> Path
        requires { self.now.len + length name.now + 1 ≤ path_room }
        ensures { (path_bytes result ≡ within (path_bytes self.now) name.now) × (result.len ≡ self.now.len + length name.now + 1) }
    {
        let mut bytes = self.bytes;
        let mut text = Text {
            out: &mut bytes,
            at: self.len,
        };
        text.put_byte(b'/');
        text.put(name);
        let len = text.at;
        Path { bytes, len }
    }

    pub(crate) fn as_bytes(&self) -> &[u8]
        ensures { result.now ≡ path_bytes self.now }
    {
        &self.bytes[..self.len]
    }
}
