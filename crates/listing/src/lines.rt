// The lines of the listing: the counts, an entry, a refusal.
ghost use Rattle.layout.specs.Refusal.{number_of, page_of};
ghost use Rattle.listing.specs.Emit.{Writes};
ghost use Rattle.listing.specs.Stamps.{shown_text};
ghost use Rattle.listing.specs.Text.{count_line, counts_text, entry_line, refusal_text};

use crate::emit::Text;
use layout::Refusal;
use model::Moment;
use tree::Counts;

impl Text<'_> {
    // A word and a number.
    fn put_count(&mut self, word: &[u8], number: u64)
        ensures { Writes self.old (count_line word.now number) self.new }
    {
        self.put(word);
        self.put_number(number);
        self.put_byte(b'\n');
    }

    // N, free, reached, orphaned, held back, and the corrected chunks.
    pub(crate) fn put_counts(&mut self, counts: Counts)
        ensures { Writes self.old (counts_text counts) self.new }
    {
        self.put_count(b"card ", counts.clusters as u64);
        self.put_count(b"free ", counts.free as u64);
        self.put_count(b"reached ", counts.reached as u64);
        self.put_count(b"orphaned ", counts.orphaned as u64);
        self.put_count(b"held ", counts.held as u64);
        self.put_count(b"mended ", counts.mended as u64);
    }

    // A letter, the length and the path of an entry, and its last change. The letter is the text itself, no code for a kind.
    pub(crate) fn put_entry(
        &mut self,
        letter: u8,
        length: u32,
        path: &[u8],
        changed: Option<Moment>,
    )
        ensures { Writes self.old (entry_line letter length path.now (shown_text changed)) self.new }
    {
        self.put_byte(letter);
        self.put_byte(b' ');
        self.put_number(length as u64);
        self.put_byte(b' ');
        self.put(path);
        self.put_byte(b' ');
        self.put_stamp(changed);
        self.put_byte(b'\n');
    }

    // The one line of a refusal: only the number 2 has a page.
    pub(crate) fn put_refusal(&mut self, refusal: Refusal)
        ensures { Writes self.old (refusal_text (number_of refusal) (page_of refusal)) self.new }
    {
        let number = refusal.number() as u64;
        self.put(b"refused ");
        self.put_number(number);
        if number == 2 {
            self.put_byte(b' ');
            self.put_number(refusal.page() as u64);
        }
        self.put_byte(b'\n');
    }
}
