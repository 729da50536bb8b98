// The best trail of a stretch, and its parts.
ghost use Rattle.std.specs.Prelude.{◌≡◌, length, Ok, Err, MatchResult};
ghost use Rattle.std.specs.Option.{option_copied};
ghost use Rattle.sheet.specs.Entries.{entry};
ghost use Rattle.shelf.specs.Histories.{a_splitting, SplittingRight, InEveryHistory};
ghost use Rattle.shelf.specs.Splits.{asked_split, SplitBy, part_in};

use crate::Shelf;
use crate::refusal::Refusal;
use alphabet::{Alphabet, Notation};
use automaton::MOST_SYMBOLS;
use parts::parts_along;
use ranking::Ranking;
use sheet::Sheet;
use splitting::best_trail;

impl<N: Notation> Shelf<N> {
    /// Splits the stretch from left up to right of a line, by the pattern at a place: writes its best trail under the ranking at the
    /// front of the trail buffer, and the parts along this trail on the sheet. The trail buffer must be at least as long as the stretch,
    /// and the work buffer must have room for at least 128 measures; what that holds does not matter, before or after.
    pub fn split<R: Ranking>(
        &self,
        place: usize,
        line: &[N::Symbol],
        left: usize,
        right: usize,
        ranking: &R,
        trail: &mut [u8],
        sheet: &mut Sheet,
        work: &mut [R::Measure],
    ) -> Result<(), Refusal>
        ensures split_or_refusal { SplitBy (R.Ranking.start ranking.now) (R.Ranking.stepped ranking.now) (R.Ranking.compared ranking.now) (N.Alphabet.meaning self.now.notation) (asked_split self.now.places place (length line.now) left right (length trail.old) (length work.old)) line.now left right trail.old trail.new sheet.old.entries sheet.new.entries result }
        ensures right_in_every_history { InEveryHistory N.Alphabet.meaning N.Notation.reading self.now self.now (a_splitting place line.now left right (length trail.old) (length work.old)) (λ n register. SplittingRight (R.Ranking.start ranking.now) (R.Ranking.stepped ranking.now) (R.Ranking.compared ranking.now) (N.Alphabet.meaning n) register place line.now left right (length work.old) trail.old trail.new sheet.old.entries sheet.new.entries result) }
    {
        let pattern = self.pattern_at(place)?;
        if line.len() > MOST_SYMBOLS {
            return Err(Refusal::LineTooLong);
        }
        let stretch = line.get(left..right).ok_or(Refusal::EndsMisfit)?;
        let sets = pattern.tag_sets();
        best_trail(
            &self.notation,
            pattern.codes(),
            pattern.automaton(),
            sets,
            stretch,
            ranking,
            work,
            trail,
        )?;
        *sheet = parts_along(&trail[..stretch.len()], sets, left as u32);
        Ok(())
    }
}

/// The part of a tag, of the line itself; nothing where the tag has no part or is not 1 to 8. An entry that is no stretch of the line is
/// refused.
pub fn part_of_line<'a, S>(
    sheet: &Sheet,
    tag: usize,
    line: &'a [S],
) -> Result<Option<&'a [S]>, Refusal>
    ensures { MatchResult result (λ o. part_in (entry sheet.now.entries tag) line.now ≡ Ok (option_copied o)) (λ refusal. part_in (entry sheet.now.entries tag) line.now ≡ Err refusal) }
{
    match sheet.part(tag) {
        Some(part) => line
            .get(part.left..part.right)
            .map(Some)
            .ok_or(Refusal::EndsMisfit),
        None => Ok(None),
    }
}
