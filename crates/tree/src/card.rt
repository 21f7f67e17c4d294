// A card's image with the words of its table, and the pages of its allocatable clusters.
ghost use Rattle.std.specs.Prelude.{◌≡◌, ◌%◌, ◌^◌, ◌<◌};
ghost use Rattle.layout.specs.See.{image_page};
ghost use Rattle.layout.specs.declared.Refusal.TheVariants.{UnreadablePage};
ghost use Rattle.model.specs.Bytes.{page_limit};
ghost use Rattle.page.specs.Page.{Read, is_some};
ghost use Rattle.tree.specs.Card.{view_of};
ghost use Rattle.tree.specs.Mended.{count_after, mended_page};

use crate::slots::{judge_slot, read_needed, read_slot};
use layout::{Geometry, Refusal, image_page};

// What the calls on a card's tree go by: the image, the table's words for the allocatable clusters, and where those lie.
// The table may be of any length: `find_name` and the like answer for every one.
#[derive(Clone, Copy)]
pub struct Card<'a> {
    pub image: &'a [u8],
    pub table: &'a [u32],
    pub geometry: Geometry,
}

impl Card<'_> {
    // `slots::read_needed` of this card.
    pub fn read_needed(&self, page: usize, out: &mut [u8; 512], mended: &mut usize) -> bool
        ensures read { Read ((view_of self.now).page page) out.old result out.new }
        ensures counted { mended.new ≡ count_after ((view_of self.now).page page) (mended_page self.now.geometry self.now.image.now page) mended.old }
    {
        read_needed(
            self.image,
            self.geometry,
            self.table.len(),
            page,
            out,
            mended,
        )
    }

    // `slots::read_slot` of this card.
    pub fn read_slot(&self, page: usize, out: &mut [u8; 512]) -> bool
        ensures { Read ((view_of self.now).page page) out.old result out.new }
    {
        read_slot(self.image, self.geometry, self.table.len(), page, out)
    }

    // Why a call is refused that needs a page of the allocatable clusters which is unreadable.
    pub fn unreadable(self, page: usize) -> Refusal
        ensures wrapped { result ≡ UnreadablePage (image_page self.entry.geometry page % 2 ^ 64) }
        ensures whole { page < page_limit → result ≡ UnreadablePage (image_page self.entry.geometry page) }
    {
        Refusal::UnreadablePage(image_page(self.geometry, page))
    }

    // `slots::judge_slot` of this card.
    pub fn judge_slot(&self, page: usize) -> bool
        ensures { result ≡ is_some ((view_of self.now).page page) }
    {
        judge_slot(self.image, self.geometry, self.table.len(), page)
    }
}
