// The entry at a path.
ghost use Rattle.std.specs.Prelude.{◌≡◌};
ghost use Rattle.lookup.specs.Answers.{TellsEntry};
ghost use Rattle.layout.specs.Mended.{mended_of};
ghost use Rattle.lookup.specs.Find.{find_of};
ghost use Rattle.lookup.specs.Mended.{reported};

use crate::call::stand;
use fields::entries::{Entry, entry_of};
use layout::Refusal;
use model::MOST_CLUSTERS;
use page::Format;

// The entry at a path, for `/` the root's first one: the check first, then 8, 9 and 10. The lent count becomes that of the
// corrected chunks; a refusal leaves it.
pub fn find(format: Format, image: &[u8], path: &[u8], mended: &mut usize) -> Result<Entry, Refusal>
    ensures told { TellsEntry (find_of format image.now path.now) result }
    ensures counted { mended.new ≡ reported (find_of format image.now path.now) (mended_of format image.now) mended.old }
{
    let mut room = [0u32; MOST_CLUSTERS];
    let stood = stand(format, image, path, &mut room)?;
    *mended = stood.mended;
    Ok(entry_of(&stood.entry.page))
}
