// When a time that is handed in is valid, and what it shows.
ghost use Rattle.std.specs.Prelude.{◌≡◌, ◌≤◌};
ghost use Rattle.model.specs.Time.{days_in, in_years, is_leap, moment_of, valid_date, valid_time};

use crate::numbers::{byte_in, half_at};
use model::{Date, Moment};

// The days of each month, one row for ordinary and one for leap years.
const DAYS: [[u8; 12]; 2] = [
    [31, 28, 31, 30, 31, 30, 31, 31, 30, 31, 30, 31],
    [31, 29, 31, 30, 31, 30, 31, 31, 30, 31, 30, 31],
];

fn is_leap(year: u32) -> bool
    ensures { result ≡ is_leap year }
{
    (year % 4 == 0) & (!(year % 100 == 0) | (year % 400 == 0))
}

// How many days a month has.
pub(crate) fn days_in(year: u32, month: u32) -> u32
    requires { (1 ≤ month) × (month ≤ 12) }
    ensures { result ≡ days_in year month }
{
    let row = is_leap(year) as usize;
    u32::from(DAYS[row][(month - 1) as usize])
}

pub(crate) fn in_years(year: u32) -> bool
    ensures { result ≡ in_years year }
{
    (1980..=9999).contains(&year)
}

// What the bytes of a time show.
pub(crate) fn moment_of(time: &[u8]) -> Moment
    ensures { result ≡ moment_of time.now }
{
    Moment {
        date: Date {
            year: half_at(time, 6),
            month: byte_in(time, 5) as u32,
            day: byte_in(time, 4) as u32,
        },
        hour: byte_in(time, 3) as u32,
        minute: byte_in(time, 2) as u32,
        second: byte_in(time, 1) as u32,
    }
}

// Month 1 to 12, year 1980 to 9999, day from 1 to the month's last.
fn is_valid_date(date: Date) -> bool
    ensures { result ≡ valid_date date }
{
    (1..=12).contains(&date.month)
        && in_years(date.year)
        && (1..=days_in(date.year, date.month)).contains(&date.day)
}

// Whether eight bytes are a time: zero, second, minute, hour, day, month, and a half for the year.
#[tactic(auto, unfolding(model::specs::Time::valid_time))]
pub fn is_valid_time(time: &[u8]) -> bool
    ensures { result ≡ valid_time time.now }
{
    if (time.len() != 8) | (byte_in(time, 0) != 0) {
        return false;
    }
    let moment = moment_of(time);
    (moment.second <= 59) & (moment.minute <= 59) & (moment.hour <= 23) & is_valid_date(moment.date)
}
