// Text into a lent buffer: bytes that do not fit are dropped, and the place after them is counted all the same.
ghost use Rattle.std.specs.Prelude.{◌≤◌, length};
ghost use Rattle.listing.specs.Sizes.{most};

use fields::writes::put_bytes;

// A text in writing: its buffer, and the place after all of it, which stands still at the greatest number.
#[derive(Drop)]
pub(crate) struct Text<'a> {
    pub(crate) out: &'a mut [u8],
    pub(crate) at: usize,
    pub(crate) ghost counted: { (at ≤ most) × (length out.now ≤ most) },
}

impl Text<'_> {
    ghost use Rattle.std.specs.Prelude.{◌∷◌, []};
    ghost use Rattle.listing.specs.Emit.{Writes};
    ghost use Rattle.listing.specs.Text.{decimal_of, digits_of};

    // One byte, where it fits: a test, since of what is written through `get_mut` no proof knows the other bytes.
    pub(crate) fn put_byte(&mut self, byte: u8)
        ensures { Writes self.old (byte ∷ []) self.new }
    {
        if self.at < self.out.len() {
            self.out[self.at] = byte;
        }
        self.at = self.at.saturating_add(1);
    }

    // Bytes, as many as fit, at once: one by one, place and buffer would go through memory for each.
    pub(crate) fn put(&mut self, bytes: &[u8])
        ensures { Writes self.old bytes.now self.new }
    {
        put_bytes(self.out, self.at, bytes);
        self.at = self.at.saturating_add(bytes.len());
    }

    // The last `count` digits of a number, without zeros in front.
    fn put_digits(&mut self, number: u64, count: u32)
        ensures { Writes self.old (digits_of count number) self.new }
    {
        if count == 0 {
            return;
        }
        if 10 <= number {
            self.put_digits(number / 10, count - 1);
        }
        self.put_byte(b'0' + (number % 10) as u8);
    }

    // A number in decimal.
    pub(crate) fn put_number(&mut self, number: u64)
        ensures { Writes self.old (decimal_of number) self.new }
    {
        self.put_digits(number, 20);
    }
}
