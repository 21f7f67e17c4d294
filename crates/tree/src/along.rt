// Along the pages of a directory or a file: the first one that a test takes.
ghost use Rattle.std.specs.Prelude.{◌≡◌, ℕ, Bool, nat_lt};
ghost use Rattle.model.specs.Entry.{entry_of};
ghost use Rattle.tree.specs.Card.{view_of};
ghost use Rattle.tree.specs.Scan.{Computes, FirstFrom, FirstOf, bearing, bears, dies, dying, lives, living_from, unread};
ghost use Rattle.tree.specs.Slots.{cluster_at, live_before};

use crate::card::Card;
use crate::slots::{cluster_after, slot_page};
use fields::kinds::is_live;
use fields::names::{entry_name, is_named};

// A slot of a directory, counted from slot 2, or a page of a file, counted from its first, with its page.
#[derive(Clone, Copy, PartialEq, Eq)]
pub struct Place {
    pub slot: u32,
    pub page: usize,
}

// The cluster of half cluster `count` of the chain that begins with cluster `first`.
pub fn cluster_at(table: &[u32], first: u32, count: u32) -> u32
    ensures { result ≡ cluster_at table.now first count }
{
    let mut c = first;
    for k in 0..count {
        c = cluster_after(table, c, k);
    }
    c
}

impl Card<'_> {
    // Whether a live entry with this name stands in the page.
    pub(crate) fn named_at(&self, page: usize, name: &[u8]) -> bool
        ensures { result ≡ bears name.now ((view_of self.now).entry page) }
    {
        let mut d = [0u8; 512];
        self.read_slot(page, &mut d) && is_live(&d) && is_named(&d, name)
    }

    // Whether a live entry stands in the page.
    fn live_at(&self, page: usize) -> bool
        ensures { result ≡ lives ((view_of self.now).entry page) }
    {
        let mut d = [0u8; 512];
        self.read_slot(page, &mut d) && is_live(&d)
    }

    // Whether a dead entry stands in the page.
    fn dead_at(&self, page: usize) -> bool
        ensures { result ≡ dies ((view_of self.now).entry page) }
    {
        let mut d = [0u8; 512];
        self.read_slot(page, &mut d) && !is_live(&d)
    }

    // The first of the slots `low` to `high` - 1 that the test takes; slot `low` lies in cluster `start`.
    fn first<F: Fn(u32, usize) -> bool>(
        &self,
        start: u32,
        low: u32,
        high: u32,
        test: F,
    ) -> Option<Place>
        requires { F.IsAlwaysCallable test }
        ensures { (tests : ℕ → ℕ → Bool) → Computes (F.post test) tests → FirstFrom tests self.now.table.now start low high result }
    {
        let mut c = start;
        for k in low..high {
            let page = slot_page(c, k);
            if test(k, page) {
                return Some(Place { slot: k, page });
            }
            c = cluster_after(self.table, c, k);
        }
        None
    }

    // The first of `count` slots, which begin in cluster `start`, whose live entry has this name.
    pub fn find_name(&self, start: u32, count: u32, name: &[u8]) -> Option<Place>
        ensures { FirstOf (bearing (view_of self.now) name.now) self.now.table.now start count result }
    {
        self.first(start, 0, count, |_, page| self.named_at(page, name))
    }

    // The first of them that is slot `from` or a later one and has a live entry.
    pub fn first_live(&self, start: u32, count: u32, from: u32) -> Option<Place>
        ensures { FirstOf (living_from (view_of self.now) from) self.now.table.now start count result }
    {
        self.first(start, 0, count, |k, page| from <= k && self.live_at(page))
    }

    // The first of them whose entry is dead.
    pub fn first_dead(&self, start: u32, count: u32) -> Option<Place>
        ensures { FirstOf (dying (view_of self.now)) self.now.table.now start count result }
    {
        self.first(start, 0, count, |_, page| self.dead_at(page))
    }

    // The first unreadable one of the pages `low` to `high` - 1 of a file; page `low` lies in cluster `start`.
    pub fn first_unreadable(&self, start: u32, low: u32, high: u32) -> Option<Place>
        ensures { FirstFrom (unread (view_of self.now)) self.now.table.now start low high result }
    {
        self.first(start, low, high, |_, page| !self.judge_slot(page))
    }

    // Whether a live entry before slot k has the name of the entry d; the slots begin in cluster `start`.
    pub(crate) fn name_taken(&self, start: u32, k: u32, d: &[u8; 512]) -> bool
        ensures { result ≡ nat_lt 0 (live_before (view_of self.now) self.now.table.now start k (entry_of d.now).name) }
    {
        self.find_name(start, k, entry_name(d)).is_some()
    }
}
