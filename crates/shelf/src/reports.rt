// What a filed pattern reads of a line.
ghost use Rattle.std.specs.Prelude.{◌≡◌, ℕ, List, length, Ok, Err, MatchResult};
ghost use Rattle.automaton.specs.RowList.{rows_of};
ghost use Rattle.pattern.specs.Expressions.{Expr, Syntax};
ghost use Rattle.shelf.specs.Asking.{Asked};
ghost use Rattle.shelf.specs.Histories.{a_longest_call, a_marking, LongestRight, MarkingRight, InEveryHistory};
ghost use Rattle.shelf.specs.Languages.{ReadsByLanguage};
ghost use Rattle.shelf.specs.Matching.{test_admits};
ghost use Rattle.shelf.specs.Reports.{asked, LongestBy, with_room, MarksBy};

use crate::Shelf;
use crate::refusal::Refusal;
use alphabet::{Alphabet, Notation};
use asking::rows;
use automaton::{Automaton, Rows};

impl<N: Notation> Shelf<N> {
    // The automaton of the pattern at a place, and for each symbol of a line the tests that admit it.
    fn asked(&self, place: usize, line: &[N::Symbol]) -> Result<(&Automaton, Rows), Refusal>
        ensures { MatchResult result (λ r. (x : Syntax) × (asked self.now.places place (length line.now) ≡ Ok x) × Asked (N.Alphabet.meaning self.now.notation) line.now x r.0.now (rows_of r.1)) (λ f. asked self.now.places place (length line.now) ≡ Err f) }
    {
        let pattern = self.pattern_at(place)?;
        let rows = rows(&self.notation, pattern.codes(), line).ok_or(Refusal::LineTooLong)?;
        Ok((pattern.automaton(), rows))
    }

    /// The longest stretch that the pattern at a place reads, by its two ends, and of several the leftmost.
    #[tactic(auto, using(crate::proofs::LanguageLaws::by_language))]
    pub fn longest(&self, place: usize, line: &[N::Symbol]) -> Result<(usize, usize), Refusal>
        ensures longest_or_refusal { LongestBy (N.Alphabet.meaning self.now.notation) (asked self.now.places place (length line.now)) line.now result }
        ensures reads_by_the_language { (codes : List ℕ) (e : Expr) → ReadsByLanguage (test_admits (N.Alphabet.meaning self.now.notation) codes) e line.now }
        ensures right_in_every_history { InEveryHistory N.Alphabet.meaning N.Notation.reading self.now self.now (a_longest_call place line.now) (λ n register. LongestRight (N.Alphabet.meaning n) register place line.now result) }
    {
        let (automaton, rows) = self.asked(place, line)?;
        automaton.longest(&rows).ok_or(Refusal::NoMatch)
    }

    /// Marks each symbol of a line that some stretch that reads covers by 1, and each other by 0, at the front of the
    /// buffer, and answers how many are 1.
    pub fn mark(
        &self,
        place: usize,
        line: &[N::Symbol],
        buffer: &mut [u8],
    ) -> Result<usize, Refusal>
        ensures marks_or_refusal { MarksBy (N.Alphabet.meaning self.now.notation) (with_room (asked self.now.places place (length line.now)) (length line.now) (length buffer.old)) line.now buffer.old buffer.new result }
        ensures right_in_every_history { InEveryHistory N.Alphabet.meaning N.Notation.reading self.now self.now (a_marking place line.now (length buffer.old)) (λ n register. MarkingRight (N.Alphabet.meaning n) register place line.now buffer.old buffer.new result) }
    {
        let (automaton, rows) = self.asked(place, line)?;
        automaton.mark(&rows, buffer).ok_or(Refusal::BufferTooShort)
    }
}
