// The allocation table: its clusters' names in the indirect cluster, their pages, and the words in them.
ghost use Rattle.std.specs.Prelude.{◌≡◌, ℕ, ◌+◌, ◌*◌, ◌<◌, ◌≤◌, true, [], ◌∷◌, ◌++◌, length, drop, ◌==◌, replicate};
ghost use Rattle.page.specs.Mended.{mended_chunks, wrapped};
ghost use Rattle.page.specs.Page.{page_at, is_some, or_kept};
ghost use Rattle.model.specs.Bytes.{word};
ghost use Rattle.model.specs.Check.{ok};
ghost use Rattle.model.specs.Tree.{times};
ghost use Rattle.model.specs.View.{most_clusters, pages_of};
ghost use Rattle.layout.specs.declared.Superblock.{Superblock};
ghost use Rattle.layout.specs.Mended.{Adds, mended_over};
ghost use Rattle.layout.specs.Refusal.{told_by};
ghost use Rattle.layout.specs.Superblock.{up_to};
ghost use Rattle.layout.specs.Table.{data_of, names_of, Needs, table_clusters, table_names, in_range, good_name, good_table_names, need_pages, open_table, open_card, table_page, table_word, table_of};

use crate::{Refusal, Superblock};
use fields::numbers::word_at;
use model::BLOCK_CLUSTERS;
use page::{Format, judge_counted, read_counted, read_page};
use reached::takeable::is_listed;

fn in_range(offset: u32, name: u32) -> bool
    ensures { result ≡ in_range offset name }
{
    1 <= name && name < offset
}

// A name in that range whose erase block is not listed.
fn good_name(offset: u32, bad: &[u32], name: u32) -> bool
    ensures { result ≡ good_name offset bad.now name }
{
    in_range(offset, name) && !is_listed(bad, name as usize / BLOCK_CLUSTERS)
}

// A page that is needed: read with its corrected chunks counted, or refused by its number.
pub(crate) fn need_page(
    format: Format,
    image: &[u8],
    p: usize,
    out: &mut [u8; 512],
    mended: &mut usize,
) -> Result<(), Refusal>
    ensures needed { Needs p (page_at format image.now p) out.old result out.new }
    ensures counted { mended.new ≡ wrapped (mended.old + mended_chunks format image.now p) }
{
    if read_counted(format, image, p, out, mended) {
        Ok(())
    } else {
        Err(Refusal::UnreadablePage(p))
    }
}

// The indirect cluster: the names of the table's clusters, in two pages.
#[derive(Drop)]
pub struct Indirect {
    pub first: [u8; 512],
    pub second: [u8; 512],
}

impl Indirect {
    // The data of its pages, as of a card whose check read both; zeros for one that is unreadable.
    pub fn read(format: Format, image: &[u8], name: u32) -> Indirect
        ensures kept { (result.first ≡ or_kept (page_at format image.now (2 * name)) (replicate 512 0)) × (result.second ≡ or_kept (page_at format image.now (2 * name + 1)) (replicate 512 0)) }
        ensures first { is_some (page_at format image.now (2 * name)) ≡ true → result.first ≡ data_of (page_at format image.now (2 * name)) }
        ensures second { is_some (page_at format image.now (2 * name + 1)) ≡ true → result.second ≡ data_of (page_at format image.now (2 * name + 1)) }
    {
        let p = 2 * (name as usize);
        let mut pages = Indirect {
            first: [0; 512],
            second: [0; 512],
        };
        read_page(format, image, p, &mut pages.first);
        read_page(format, image, p + 1, &mut pages.second);
        pages
    }

    // Word i. A missing word counts as zero.
    fn name_at(&self, i: usize) -> u32
        ensures { result ≡ word (self.now.first ++ self.now.second) (4 * i) }
    {
        match i {
            0..128 => word_at(&self.first, 4 * i),
            128..256 => word_at(&self.second, 4 * (i - 128)),
            _ => 0,
        }
    }

    // Whether the name is neither the indirect cluster's nor one of the first `count`. Loops here and in `good_names`: two
    // must-fail edits stand on their lines.
    fn is_new(&self, indirect: u32, count: usize, name: u32) -> bool
        ensures { result ≡ (times (indirect ∷ table_names (self.now.first ++ self.now.second) count) name == 0) }
    {
        for i in 0..count {
            if self.name_at(i) == name {
                return false;
            }
        }
        indirect != name
    }

    // Whether the first `count` names are good ones.
    fn good_names(&self, s: &Superblock, count: usize) -> bool
        ensures { result ≡ good_table_names s.now.geometry.offset s.now.bad (s.now.indirect ∷ []) (table_names (self.now.first ++ self.now.second) count) }
    {
        let offset = s.geometry.offset;
        for i in 0..count {
            let name = self.name_at(i);
            if !(good_name(offset, &s.bad, name) && self.is_new(s.indirect, i, name)) {
                return false;
            }
        }
        true
    }

    // The image page that is page t of the table, by the first `count` names.
    pub fn table_page(&self, count: usize, t: usize) -> usize
        ensures { result ≡ table_page (table_names (self.now.first ++ self.now.second) count) t }
    {
        let i = t / 2;
        if count <= i {
            return t % 2;
        }
        2 * (self.name_at(i) as usize) + t % 2
    }
}

// Both pages of each table cluster in turn: the first that is unreadable decides.
fn judge_pages(
    format: Format,
    image: &[u8],
    indirect: &Indirect,
    count: usize,
    mended: &mut usize,
) -> Result<(), Refusal>
    requires { count ≤ 256 }
    ensures judged { (s : Superblock) → told_by (λ u. s) result ≡ need_pages format image.now (pages_of (table_names (indirect.now.first ++ indirect.now.second) count)) (ok s) }
    ensures counted { Adds result mended.old (mended_over format image.now (pages_of (table_names (indirect.now.first ++ indirect.now.second) count))) mended.new }
{
    for t in 0..2 * count {
        let p = indirect.table_page(count, t);
        if !judge_counted(format, image, p, mended) {
            return Err(Refusal::UnreadablePage(p));
        }
    }
    Ok(())
}

// The check of the table. Its clusters' names are in the indirect cluster, whose own name is judged first.
#[tactic(auto, unfolding(crate::specs::Table::open_table, crate::specs::Table::unless, crate::specs::Table::with_page))]
pub(crate) fn judge_table(image: &[u8], s: &Superblock, mended: &mut usize) -> Result<(), Refusal>
    requires { s.now.end ≤ most_clusters }
    ensures judged { told_by (λ u. s.now) result ≡ open_table image.now s.now }
    ensures counted { Adds result mended.old (mended_over s.now.geometry.format image.now (pages_of (s.now.indirect ∷ names_of image.now s.now))) mended.new }
{
    let format = s.geometry.format;
    if !good_name(s.geometry.offset, &s.bad, s.indirect) {
        return Err(Refusal::BadTableName);
    }
    let p = 2 * (s.indirect as usize);
    let mut indirect = Indirect {
        first: [0; 512],
        second: [0; 512],
    };
    need_page(format, image, p, &mut indirect.first, mended)?;
    need_page(format, image, p + 1, &mut indirect.second, mended)?;
    let count = (s.end as usize).div_ceil(256);
    if indirect.good_names(s, count) {
        judge_pages(format, image, &indirect, count, mended)
    } else {
        Err(Refusal::BadTableName)
    }
}

// The words of the clusters below `end`, from the table's pages in turn; each page was judged readable.
fn load_words(format: Format, image: &[u8], indirect: &Indirect, end: usize, table: &mut [u32])
    requires { (end ≤ most_clusters) × (end ≤ length table.old) × ((t : ℕ) → t < 2 * table_clusters end → is_some (page_at format image.now (table_page (table_names (indirect.now.first ++ indirect.now.second) (table_clusters end)) t)) ≡ true) }
    ensures { table.new ≡ up_to (table_word format image.now (table_names (indirect.now.first ++ indirect.now.second) (table_clusters end))) end ++ drop end table.old }
{
    let count = end.div_ceil(256);
    let mut page = [0u8; 512];
    for c in 0..end {
        if c % 128 == 0 {
            read_page(
                format,
                image,
                indirect.table_page(count, c / 128),
                &mut page,
            );
        }
        table[c] = word_at(&page, 4 * (c % 128));
    }
}

// Loads the table of a card that passed the check.
pub(crate) fn load_table(image: &[u8], s: &Superblock, table: &mut [u32])
    requires { (open_card s.now.geometry.format image.now ≡ ok s.now) × (s.now.end ≤ length table.old) }
    ensures { table.new ≡ table_of image.now s.now ++ drop s.now.end table.old }
{
    let format = s.geometry.format;
    let indirect = Indirect::read(format, image, s.indirect);
    load_words(format, image, &indirect, s.end as usize, table);
}
