// The model of a card is in specs/. Each claim about it is the contract of a function that does nothing.
#![tactic(auto)]

ghost use Rattle.model.specs.Claims.{ChainsAreSound, CheckIsHolding, ViewCountsAddUp, AcceptedExactly, ViewChangeKeeps, WritesGiveView, ViewDemand3};
ghost use Rattle.model.specs.Bench.{BenchNumbers};
ghost use Rattle.model.specs.Shifts.{ShiftNumbers, ShiftsReturn};

// The limits (RULES), each with its one name in code: the largest N, how far below the root a directory may lie, and the most names of a path.
pub const MOST_CLUSTERS: usize = 65536;

pub const DEEPEST: u32 = 7;

pub const MOST_NAMES: usize = 8;

// The reserved tail: on a card of this many clusters no new cluster is taken from this table index up.
pub const STANDARD_CLUSTERS: u32 = 8192;

pub const TAIL_START: usize = 8000;

// An erase block has this many clusters.
pub const BLOCK_CLUSTERS: usize = 8;

// The bad block list: this many words, each the number of an erase block or NO_BLOCK.
pub const LIST_WORDS: usize = 32;

pub const NO_BLOCK: u32 = 0xFFFF_FFFF;

// A word that names no cluster: the first cluster of an empty file, and the end of a chain.
pub const END_MARK: u32 = 0xFFFF_FFFF;

// A day of the calendar, and a time as a calendar and a clock show it.
#[derive(Clone, Copy)]
pub struct Date {
    pub year: u32,
    pub month: u32,
    pub day: u32,
}

#[derive(Clone, Copy)]
pub struct Moment {
    pub date: Date,
    pub hour: u32,
    pub minute: u32,
    pub second: u32,
}

// The check follows exactly the sound chains: below alloc_end, not free, not reached before, the end mark at exactly the k-th.
pub fn chains_are_sound()
    ensures { ChainsAreSound }
{}

// The check answers a tree exactly when the view holds it.
pub fn check_is_holding()
    ensures { CheckIsHolding }
{}

// Free, reached, orphaned and held back clusters add up to the allocatable ones.
pub fn counts_add_up()
    ensures { ViewCountsAddUp }
{}

// A change is accepted exactly when it meets no refusal.
pub fn accepted_exactly()
    ensures { AcceptedExactly }
{}

// After an accepted change the card is accepted again, its own path is what the rules say, and every other path stays.
pub fn change_keeps()
    ensures { ViewChangeKeeps }
{}

// The page writes and table words of an accepted change give the view after it.
pub fn writes_give_view()
    ensures { WritesGiveView }
{}

// Demand 3: any two changes at paths of which neither is a beginning of the other commute.
pub fn demand_3()
    ensures { ViewDemand3 }
{}

// The numbers of the bench card.
pub fn bench_numbers()
    ensures { BenchNumbers }
{}

// A time shifted by any number of minutes: 0 leaves it, the opposite takes back, seconds stay, and it is the one that lies exactly so
// many minutes away, wherever that is in the calendar's years.
pub fn shifts_return()
    ensures { ShiftsReturn }
{}

// Shifts at the ends of days, months, years and of the calendar.
pub fn shift_numbers()
    ensures { ShiftNumbers }
{}
