// A time as text.
ghost use Rattle.listing.specs.Emit.{Writes};
ghost use Rattle.listing.specs.Stamps.{shown_text};
ghost use Rattle.listing.specs.Text.{date_text, four_digits, time_text, two_digits};

use crate::emit::Text;
use model::{Date, Moment};

impl Text<'_> {
    // The last two digits of a number.
    fn put_two(&mut self, number: u32)
        ensures { Writes self.old (two_digits number) self.new }
    {
        self.put_byte(b'0' + (number / 10 % 10) as u8);
        self.put_byte(b'0' + (number % 10) as u8);
    }

    // The last four.
    fn put_four(&mut self, number: u32)
        ensures { Writes self.old (four_digits number) self.new }
    {
        self.put_two(number / 100);
        self.put_two(number);
    }

    // `YYYY-MM-DD`.
    fn put_date(&mut self, date: Date)
        ensures { Writes self.old (date_text date) self.new }
    {
        self.put_four(date.year);
        self.put_byte(b'-');
        self.put_two(date.month);
        self.put_byte(b'-');
        self.put_two(date.day);
    }

    // `YYYY-MM-DD hh:mm:ss`.
    fn put_time(&mut self, moment: Moment)
        ensures { Writes self.old (time_text moment) self.new }
    {
        self.put_date(moment.date);
        self.put_byte(b' ');
        self.put_two(moment.hour);
        self.put_byte(b':');
        self.put_two(moment.minute);
        self.put_byte(b':');
        self.put_two(moment.second);
    }

    // A time, or `unknown`.
    pub(crate) fn put_stamp(&mut self, changed: Option<Moment>)
        ensures { Writes self.old (shown_text changed) self.new }
    {
        match changed {
            None => self.put(b"unknown"),
            Some(moment) => self.put_time(moment),
        }
    }
}
