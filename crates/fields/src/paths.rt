// A path as bytes: `/`, or one to MOST_NAMES names each after `/`.
ghost use Rattle.std.specs.Prelude.{◌≡◌, ◌==◌};
ghost use Rattle.fields.specs.PathBytes.{path_of, parsed_of, name_at};

use crate::names::is_good_name;
use model::MOST_NAMES;

// No path has more bytes: a name has at most 31, and its slash.
const MOST_BYTES: usize = 32 * MOST_NAMES;

fn is_slash(byte: &u8) -> bool
    ensures { result ≡ (byte.now == 0x2F) }
{
    *byte == b'/'
}

// How many names a path has, where the bytes are one; `/` has none. Bytes longer than any path are refused by their number.
pub fn parse_path(path: &[u8]) -> Option<usize>
    ensures { result ≡ parsed_of (path_of path.now) }
{
    let names = path.strip_prefix(b"/")?;
    if names.is_empty() {
        return Some(0);
    }
    if MOST_BYTES < path.len() {
        return None;
    }
    let count = names.split(is_slash).count();
    let good = names.split(is_slash).all(is_good_name);
    (good & (count <= MOST_NAMES)).then_some(count)
}

// The name at a place of a path, counted from 0 and lent from its bytes; no bytes where there is none.
pub fn name_at(path: &[u8], index: usize) -> &[u8]
    ensures { result.now ≡ name_at path.now index }
{
    if path.is_empty() {
        return path;
    }
    path[1..].split(is_slash).nth(index).unwrap_or(b"")
}
