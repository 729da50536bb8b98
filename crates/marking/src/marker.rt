// A shelf of letters that takes orders.
ghost use Rattle.std.specs.Prelude.{◌≡◌, map};
ghost use Rattle.marking.specs.Tags.{tags_at};

use alphabet::letters::Letters;
use automaton::MOST_SYMBOLS;
use orders::order::Order;
use orders::printing::{
    write_filed, write_longest, write_marks, write_parts, write_refused, write_unknown,
    write_withdrawn,
};
use ranking::Extent;
use sheet::Sheet;
use shelf::refusal::Refusal;
use shelf::{PLACES, Shelf};
use splitting::MEASURES;
use text::buffer::Text;

/// A shelf of letters, and of the pattern at each place the number of tags.
#[derive(Drop)]
pub struct Marker {
    shelf: Shelf<Letters>,
    // How many tags the pattern at each place has, and 0 where none stands. The shelf tells it when the pattern is filed, and not later.
    tags: [usize; PLACES],
    ghost tags_are: { tags ≡ map tags_at shelf.places },
}

impl Marker {
    ghost use Rattle.std.specs.Prelude.{ℕ, ◌<◌, ◌≤◌, List, length, replicate, take, None, Ok, IfOk, OnOk};
    ghost use Rattle.alphabet.specs.Letters.{letter_meaning, letter_reading};
    ghost use Rattle.marking.specs.Answers.{filing_text, withdrawing_text, bared, Found, Reported, Answered};
    ghost use Rattle.pattern.specs.Expressions.{Syntax};
    ghost use Rattle.shelf.specs.Filing.{filing, counts, FiledAfter, withdrawing};
    ghost use Rattle.shelf.specs.Reports.{asked, LongestBy};
    ghost use Rattle.text.specs.Texts.{written, Adds};

    /// A marker on whose shelf nothing stands.
    pub fn new() -> Marker
        ensures { result.shelf.places ≡ replicate 10 None }
    {
        Marker {
            shelf: Shelf::new(Letters::new()),
            tags: [0; PLACES],
        }
    }

    // Files a pattern, and writes how many tests and tags it has, or the refusal.
    fn file(&mut self, place: usize, pattern: &[u8], out: &mut Text)
        ensures printed { Adds out.old (filing_text (counts (filing letter_reading self.old.shelf.places place pattern.now))) out.new }
        ensures places { FiledAfter (filing letter_reading self.old.shelf.places place pattern.now) place self.old.shelf.places self.new.shelf.places }
    {
        match self.shelf.file(place, pattern) {
            Ok((tests, tags)) => {
                self.tags[place] = tags;
                write_filed(out, tests, tags);
            }
            Err(refusal) => write_refused(out, refusal),
        }
    }

    // Withdraws what stands at a place, and writes that it is done, or the refusal.
    fn withdraw(&mut self, place: usize, out: &mut Text)
        ensures printed { Adds out.old (withdrawing_text (withdrawing self.old.shelf.places place)) out.new }
        ensures places { self.new.shelf.places ≡ bared self.old.shelf.places place }
    {
        match self.shelf.withdraw(place) {
            Ok(()) => {
                self.tags[place] = 0;
                write_withdrawn(out);
            }
            Err(refusal) => write_refused(out, refusal),
        }
    }

    // The longest stretch of a line, the mark of each symbol, and on the sheet the parts of that stretch, split by extent.
    fn look(
        &self,
        place: usize,
        line: &[u8],
        marks: &mut [u8; MOST_SYMBOLS],
        sheet: &mut Sheet,
    ) -> Result<(usize, usize), Refusal>
        ensures longest_or_refusal { LongestBy letter_meaning (asked self.now.shelf.places place (length line.now)) line.now result }
        ensures found { IfOk result (λ ends. (x : Syntax) × (asked self.now.shelf.places place (length line.now) ≡ Ok x) × Found x line.now ends (take (length line.now) marks.new) sheet.new.entries) }
        ensures one_of_ten { OnOk result (place < 10) }
        ensures short { OnOk result (length line.now ≤ 160) }
    {
        let (left, right) = self.shelf.longest(place, line)?;
        self.shelf.mark(place, line, marks)?;
        let mut trail = [0; MOST_SYMBOLS];
        let mut work = [0; MEASURES];
        self.shelf.split(
            place, line, left, right, &Extent, &mut trail, sheet, &mut work,
        )?;
        Ok((left, right))
    }

    // Writes what the pattern at a place reads of a line, in three lines, or the refusal.
    fn report(&self, place: usize, line: &[u8], out: &mut Text)
        ensures { (text : List ℕ) × Reported (asked self.now.shelf.places place (length line.now)) line.now text × Adds out.old text out.new }
    {
        let mut marks = [0; MOST_SYMBOLS];
        let mut sheet = Sheet::new();
        match self.look(place, line, &mut marks, &mut sheet) {
            Ok((left, right)) => {
                write_longest(out, left, right);
                write_marks(out, &marks[..line.len()]);
                write_parts(out, self.tags[place], &sheet);
            }
            Err(refusal) => write_refused(out, refusal),
        }
    }

    /// Does what the order says, if the bytes are one, and writes what is printed for it.
    pub fn answer(&mut self, bytes: &[u8], out: &mut Text)
        ensures { Answered bytes.now self.old.shelf.places self.new.shelf.places (written out.new) }
    {
        out.clear();
        match Order::read(bytes) {
            Some(Order::File(place, pattern)) => self.file(place, pattern, out),
            Some(Order::Withdraw(place)) => self.withdraw(place, out),
            Some(Order::Ask(place, line)) => self.report(place, line, out),
            None => write_unknown(out),
        }
    }
}
