// A time shifted by minutes: it carries across day, month and year.
ghost use Rattle.std.specs.Prelude.{◌≡◌, true, ◌<◌, pos, ◌+ℤ◌};
ghost use Rattle.model.specs.Calendar.{clock_at, day_after, day_before, is_shift, moved, shown};
ghost use Rattle.model.specs.Entry.{entry_of};
ghost use Rattle.model.specs.Time.{valid_date, valid_moment};
ghost use Rattle.fields.specs.Calendar.{shown_as};

use crate::times::{days_in, in_years, is_valid_time, moment_of};
use model::{Date, Moment};

// The shifts that a listing takes, in minutes: so far behind Japan, and so far ahead.
const MOST_BEHIND: i32 = -1260;

const MOST_AHEAD: i32 = 300;

// A day has this many minutes.
const DAY: i32 = 1440;

pub fn is_shift(minutes: i32) -> bool
    ensures { result ≡ is_shift minutes }
{
    (MOST_BEHIND..=MOST_AHEAD).contains(&minutes)
}

fn day_after(date: Date) -> Date
    requires { valid_date date ≡ true }
    ensures { result ≡ day_after date }
{
    if date.day < days_in(date.year, date.month) {
        return Date {
            day: date.day + 1,
            ..date
        };
    }
    if date.month < 12 {
        return Date {
            month: date.month + 1,
            day: 1,
            ..date
        };
    }
    Date {
        year: date.year + 1,
        month: 1,
        day: 1,
    }
}

fn day_before(date: Date) -> Date
    requires { valid_date date ≡ true }
    ensures { result ≡ day_before date }
{
    if 1 < date.day {
        return Date {
            day: date.day - 1,
            ..date
        };
    }
    if 1 < date.month {
        return Date {
            month: date.month - 1,
            day: days_in(date.year, date.month - 1),
            ..date
        };
    }
    Date {
        year: date.year - 1,
        month: 12,
        day: 31,
    }
}

// A minute of a day, with the seconds of a moment.
fn clock_at(moment: Moment, date: Date, minute: u32) -> Moment
    ensures { result ≡ clock_at moment date minute }
{
    Moment {
        date,
        hour: minute / 60,
        minute: minute % 60,
        ..moment
    }
}

// The shifted minute, from the midnight before the unshifted one.
fn add_shift(minute: u32, minutes: i32) -> i32
    requires { (minute < 1440) × (is_shift minutes ≡ true) }
    ensures { result ≡ pos minute +ℤ minutes }
{
    minute as i32 + minutes
}

// A shift that a listing takes leads at most one day back or on.
fn shift(moment: Moment, minutes: i32) -> Moment
    requires { (valid_moment moment ≡ true) × (is_shift minutes ≡ true) }
    ensures { result ≡ moved minutes moment }
{
    let date = moment.date;
    let minute = add_shift(moment.hour * 60 + moment.minute, minutes);
    if minute < 0 {
        return clock_at(moment, day_before(date), (minute + DAY) as u32);
    }
    if minute < DAY {
        return clock_at(moment, date, minute as u32);
    }
    clock_at(moment, day_after(date), (minute - DAY) as u32)
}

// A stored time in the shop's own: not known where it is invalid or falls out of 1980 to 9999.
#[tactic(auto, unfolding(model::specs::Calendar::shown, model::specs::Calendar::shifted, model::specs::Time::valid_time))]
pub fn shop_time(time: &[u8], minutes: i32) -> Option<Moment>
    ensures { result ≡ shown_as (shown minutes time.now) }
{
    if !is_valid_time(time) | !is_shift(minutes) {
        return None;
    }
    let moment = shift(moment_of(time), minutes);
    in_years(moment.date.year).then_some(moment)
}

// When the entry in a page was last changed, in the shop's own time.
pub fn modified_at(page: &[u8; 512], minutes: i32) -> Option<Moment>
    ensures { result ≡ shown_as (shown minutes (entry_of page.now).modified) }
{
    shop_time(&page[0x18..0x20], minutes)
}
