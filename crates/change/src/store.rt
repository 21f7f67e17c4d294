// The allocation table stored back into the image: the pages in which a word changed.
ghost use Rattle.std.specs.Prelude.{◌≡◌, true, ◌++◌, ◌+◌, ◌*◌, ◌≤◌, ◌<◌, get_or, length};
ghost use Rattle.page.specs.Page.{is_some, page_at};
ghost use Rattle.layout.specs.Table.{names_of, table_clusters, table_names};
ghost use Rattle.model.specs.View.{most_clusters};
ghost use Rattle.change.specs.Image.{alter_page, store_table, words_in};
ghost use Rattle.change.specs.Pages.{table_in, table_stored};

use fields::writes::put_word;
use layout::Superblock;
use layout::table::Indirect;
use page::{Format, read_page, rewrite_page};

// How many words of a table of `end` words are in its page t. Here and below t is so small that its first word's number fits: a
// bound of the loop of `store_pages`, which no type says.
fn words_in(end: usize, t: usize) -> usize
    requires { t < 65536 }
    ensures { result ≡ words_in end t }
{
    end.saturating_sub(128 * t).min(128)
}

// The words of page t of the table put into a page from its first word on.
fn put_words(page: &mut [u8; 512], table: &[u32], t: usize)
    requires { t < 65536 }
    ensures { page.new ≡ table_in table.now t page.old }
{
    for i in 0..words_in(table.len(), t) {
        put_word(page, 4 * i, table[128 * t + i]);
    }
}

// Page t of the table, which is page p of the image, rewritten where a word of it changed.
fn store_page(format: Format, image: &mut [u8], p: usize, table: &[u32], t: usize)
    requires { t < 65536 }
    ensures { image.new ≡ alter_page format p (table_in table.now t) image.old }
{
    let mut page = [0u8; 512];
    if read_page(format, image, p, &mut page).is_some() {
        put_words(&mut page, table, t);
        rewrite_page(format, image, p, &page);
    }
}

// All pages of the table, by the first `count` names of the indirect cluster.
fn store_pages(format: Format, image: &mut [u8], indirect: &Indirect, count: usize, table: &[u32])
    requires { count < 32768 }
    ensures { image.new ≡ table_stored format (table_names (indirect.now.first ++ indirect.now.second) count) table.now (2 * count) image.old }
{
    for t in 0..2 * count {
        store_page(format, image, indirect.table_page(count, t), table, t);
    }
}

// Stores the table of a card whose indirect cluster is readable.
pub(crate) fn store_table(image: &mut [u8], s: Superblock, table: &[u32])
    requires { (s.end ≤ most_clusters) × (length table.now ≡ s.end) × (is_some (page_at s.geometry.format image.old (2 * s.indirect)) ≡ true) × (is_some (page_at s.geometry.format image.old (2 * s.indirect + 1)) ≡ true) }
    ensures { image.new ≡ store_table s.geometry.format (names_of image.old s) s.end (λ c. get_or table.now c 0) (2 * table_clusters s.end) image.old }
{
    let format = s.geometry.format;
    let indirect = Indirect::read(format, image, s.indirect);
    let count = (s.end as usize).div_ceil(256);
    store_pages(format, image, &indirect, count, table)
}
