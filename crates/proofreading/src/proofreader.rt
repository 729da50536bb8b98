// A proof-reader: it files each pattern on a shelf of letters, takes it away again, and keeps count.
ghost use Rattle.std.specs.Prelude.{◌≡◌, false, is_some};
ghost use Rattle.shelf.specs.Places.{held_at};

use crate::report::write_report;
use crate::tally::Tally;
use crate::verdict::write_verdict;
use alphabet::letters::Letters;
use shelf::Shelf;
use text::buffer::Text;

/// A shelf on which each pattern is filed in turn, and the tally of the verdicts.
#[derive(Drop)]
pub struct Proofreader {
    shelf: Shelf<Letters>,
    tally: Tally,
    ghost bare: { is_some (held_at shelf.places 0) ≡ false },
}

impl Proofreader {
    ghost use Rattle.std.specs.Prelude.{◌≡◌};
    ghost use Rattle.proofreading.specs.Proofreading.{verdict_on, FrontSuffices};
    ghost use Rattle.proofreading.specs.Reports.{report_text};
    ghost use Rattle.proofreading.specs.Tallies.{Starts, Counts, one_more};
    ghost use Rattle.proofreading.specs.Verdicts.{verdict_text};
    ghost use Rattle.text.specs.Texts.{written};

    /// A proof-reader that has seen no pattern.
    pub fn new() -> Proofreader
        ensures { Starts result.tally }
    {
        Proofreader {
            shelf: Shelf::new(Letters::new()),
            tally: Tally::new(),
        }
    }

    /// Writes the verdict on the next pattern. Of a longer one its first 121 bytes are enough.
    pub fn proofread(&mut self, bytes: &[u8], out: &mut Text)
        ensures verdict { written out.new ≡ verdict_text (one_more self.old.tally.patterns) bytes.now (verdict_on bytes.now) }
        ensures tally { Counts self.old.tally (verdict_on bytes.now) self.new.tally }
        ensures front { FrontSuffices }
    {
        let verdict = self.shelf.file(0, bytes);
        let _ = self.shelf.withdraw(0);
        self.tally.count(verdict);
        write_verdict(out, self.tally.patterns, bytes, verdict);
    }

    /// Writes how many patterns there were, and how many of them were refused under each number.
    pub fn report(&self, out: &mut Text)
        ensures { written out.new ≡ report_text self.now.tally }
    {
        write_report(out, &self.tally);
    }
}
