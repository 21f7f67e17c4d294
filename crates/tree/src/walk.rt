// The walk of the directory tree, depth first (RULES, "Directories"): the first fault met, or the clusters reached.
ghost use Rattle.std.specs.Prelude.{◌≡◌, ◌+◌, ◌*◌, ◌<◌, ◌≤◌, [], ◌∷◌, length};
ghost use Rattle.model.specs.Bytes.{page_limit};
ghost use Rattle.layout.specs.Refusal.{told};
ghost use Rattle.layout.specs.See.{on_image};
ghost use Rattle.model.specs.Check.{check_tree, judge_dots};
ghost use Rattle.model.specs.Holds.{deepest};
ghost use Rattle.model.specs.View.{most_clusters};
ghost use Rattle.model.specs.Needed.{total_over};
ghost use Rattle.reached.specs.Marks.{Sound, marks_of};
ghost use Rattle.layout.specs.Mended.{Adds};
ghost use Rattle.tree.specs.Card.{view_of};
ghost use Rattle.tree.specs.Mended.{mended_page};
ghost use Rattle.tree.specs.Met.{Grows, Knows, most_pages};
ghost use Rattle.tree.specs.Slots.{cluster_at, slot_page};
ghost use Rattle.tree.specs.Walk.{LookAdds, Tells, dot_in, dot_pages, inside_of, looked_in, root_tallied};

use crate::card::Card;
use crate::names::{CELLS, meet};
use crate::slots::{cluster_after, next_of, slot_page, slots_of};
use crate::tasks::task_of;
use fields::kinds::{Kind, is_directory, is_live, is_root, kind_of};
use fields::names::{entry_name, is_named};
use fields::numbers::word_at;
use layout::Refusal;
use model::DEEPEST;
use reached::{Reached, walk_chain, walk_near};

// What stands in slot k, in cluster c, of the directory that begins with cluster `first` and whose slots begin in `start`,
// judged before its chain: page, entry rules, unique name. The cells have the live names before it, and then its own. The
// lent page is room for the entry's.
fn look_at(
    card: &Card,
    first: u32,
    start: u32,
    c: u32,
    k: u32,
    d: &mut [u8; 512],
    cells: &mut [u32; CELLS],
    mended: &mut usize,
) -> Result<Kind, Refusal>
    requires { (length card.now.table.now ≤ most_clusters) × (c ≡ cluster_at card.now.table.now start k) × Knows (view_of card.now) card.now.table.now first start k cells.old }
    ensures value { result ≡ looked_in (view_of card.now) card.now.geometry card.now.table.now start c k }
    ensures knows { Knows (view_of card.now) card.now.table.now first start (k + 1) cells.new × Grows cells.old cells.new }
    ensures look_adds { LookAdds result mended.old (mended_page card.now.geometry card.now.image.now (slot_page c k)) mended.new }
{
    let page = slot_page(c, k);
    if !card.read_needed(page, d, mended) {
        return Err(card.unreadable(page));
    }
    if !is_live(d) {
        return Ok(Kind::Dead);
    }
    if !meet(card, first, start, k, page, entry_name(d), cells) {
        return Ok(kind_of(d));
    }
    if card.name_taken(start, k, d) {
        return Ok(Kind::Bad);
    }
    Ok(kind_of(d))
}

// One of a directory's first two entries.
fn judge_dot(card: &Card, page: usize, name: &[u8], mended: &mut usize) -> Result<(), Refusal>
    requires { page < page_limit }
    ensures judged { told result ≡ on_image card.now.geometry (dot_in (view_of card.now) name.now page) }
    ensures counted { Adds result mended.old (mended_page card.now.geometry card.now.image.now page) mended.new }
{
    let mut d = [0u8; 512];
    if !card.read_needed(page, &mut d, mended) {
        return Err(card.unreadable(page));
    }
    if is_directory(&d) & is_named(&d, name) {
        return Ok(());
    }
    Err(Refusal::BadEntry)
}

fn judge_dots(card: &Card, first: u32, mended: &mut usize) -> Result<(), Refusal>
    ensures judged { told result ≡ on_image card.now.geometry (judge_dots (view_of card.now) (first ∷ [])) }
    ensures counted { Adds result mended.old (total_over (mended_page card.now.geometry card.now.image.now) (dot_pages first)) mended.new }
{
    let page = first as usize * 2;
    judge_dot(card, page, b".", mended)?;
    judge_dot(card, page + 1, b"..", mended)
}

// The inside of a directory of that many entries whose sound chain begins with cluster `first`; directories may lie `below`
// further down. A slot that leads nowhere hands the record to nobody, a chain is followed in the current word before the record
// is handed on, and only at the end is it handed out, so that few copies are made.
fn walk_dir(
    card: &Card,
    cells: &mut [u32; CELLS],
    mended: &mut usize,
    reached: Reached,
    first: u32,
    entries: u32,
    below: u32,
) -> Result<Reached, Refusal>
    requires { (length card.now.table.now ≤ most_clusters) × Sound reached × (length cells.old ≡ most_pages) }
    ensures tells { Tells (on_image card.now.geometry (inside_of (view_of card.now) (mended_page card.now.geometry card.now.image.now) below card.now.table.now first entries (marks_of reached) mended.old)) result mended.new }
    ensures grows { Grows cells.old cells.new }
{
    judge_dots(card, first, mended)?;
    let start = next_of(card.table, first);
    let mut r = reached;
    let mut c = start;
    let mut d = [0u8; 512];
    for k in 0..slots_of(entries) {
        let kind = look_at(card, first, start, c, k, &mut d, cells, mended)?;
        if let Some(task) = task_of(kind, below)? {
            let near = walk_near(card.table, r, task.first, task.clusters);
            r = near.reached;
            let mut sound = near.sound;
            if 0 < near.left {
                let far = walk_chain(card.table, r, near.next, near.left);
                r = far.reached;
                sound = far.sound;
            }
            if !sound {
                return Err(Refusal::BadChain);
            }
            if let Some(inside) = task.inside {
                // A `?` would clear and copy the record once more for each directory.
                match walk_dir(card, cells, mended, r, task.first, inside, below - 1) {
                    Ok(inner) => r = inner,
                    Err(refusal) => return Err(refusal),
                }
            }
        }
        c = cluster_after(card.table, c, k);
    }
    Ok(r)
}

// The inside of the root. The cells come first here: declared behind a return they are cleared twice.
fn walk_tree(
    card: &Card,
    mended: &mut usize,
    reached: Reached,
    entries: u32,
) -> Result<Reached, Refusal>
    requires { (length card.now.table.now ≤ most_clusters) × Sound reached }
    ensures { Tells (on_image card.now.geometry (inside_of (view_of card.now) (mended_page card.now.geometry card.now.image.now) deepest card.now.table.now 0 entries (marks_of reached) mended.old)) result mended.new }
{
    let mut cells = [0u32; CELLS];
    walk_dir(card, &mut cells, mended, reached, 0, entries, DEEPEST)
}

// The whole tree: the root's first entry, its chain, its entries. That entry's page is counted with the root's entries, and not before.
pub(crate) fn walk_root(card: &Card, mended: &mut usize) -> Result<Reached, Refusal>
    requires { length card.now.table.now ≤ most_clusters }
    ensures { Tells (on_image card.now.geometry (root_tallied (mended_page card.now.geometry card.now.image.now) mended.old (check_tree (view_of card.now)))) result mended.new }
{
    let mut d = [0u8; 512];
    if !card.read_slot(0, &mut d) {
        return Err(card.unreadable(0));
    }
    if !is_root(&d) {
        return Err(Refusal::BadEntry);
    }
    let n = word_at(&d, 4);
    let chain = walk_chain(card.table, Reached::new(), 0, n.div_ceil(2));
    if !chain.sound {
        return Err(Refusal::BadChain);
    }
    walk_tree(card, mended, chain.reached, n)
}
