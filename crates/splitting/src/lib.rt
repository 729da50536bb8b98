//! Splits a stretch of symbols: finds its best trail, by any ranking.
//!
//! A trail of a stretch is a walk of a position automaton that has one position for each symbol, whose test admits the symbol. Of all
//! trails the best is the one that ranks highest; of those that rank equal, the first in the tie order.
#![tactic(auto)]

ghost use Rattle.std.specs.Prelude.{length, slice_index};
ghost use Rattle.splitting.specs.Trails.{BestTrail};

use alphabet::Alphabet;
use asking::row;
use automaton::{Automaton, MOST_SYMBOLS, POSITIONS};
use ranking::Ranking;
use std::mem::swap;

mod sweep;

use sweep::{Fronts, walk_back};

/// How many measures the work buffer must have room for, at least: two for each position.
pub const MEASURES: usize = 2 * POSITIONS;

/// Why no trail is written.
#[derive(Clone, Copy, Debug, PartialEq, Eq)]
pub enum Unsplit {
    /// The stretch has more than 160 symbols, the bytes for the trail are fewer than the symbols, or the work has fewer than 128
    /// measures.
    NoRoom,
    /// The stretch has no trail.
    NoTrail,
}

/// The best trail of a stretch: the one that ranks highest, and of several the first in the tie order, in which of two trails the one
/// with the smaller position comes first, at the last symbol at which they differ.
///
/// `codes` has the alphabet's number of the test of each position, and `tags` the set of the tags that each position belongs to, bit
/// k - 1 for tag k. `work` is room for at least 128 measures (`MEASURES`); what it holds does not matter, before or after.
///
/// With `Ok` the trail stands at the front of `trail`, as the numbers of the tests, each one more than its position; what stands
/// behind is as it was. An `Err` leaves `trail` as it was.
// Codes, tags and automaton are three arguments and no struct: nothing else takes them together, and here each goes to another function.
pub fn best_trail<A: Alphabet, R: Ranking>(
    alphabet: &A,
    codes: &[u32],
    automaton: &Automaton,
    tags: &[u8; POSITIONS],
    stretch: &[A::Symbol],
    ranking: &R,
    work: &mut [R::Measure],
    trail: &mut [u8],
) -> Result<(), Unsplit>
    ensures { BestTrail (R.Ranking.start ranking.now) (R.Ranking.stepped ranking.now) (R.Ranking.compared ranking.now) automaton.now (λ q s. A.Alphabet.meaning alphabet.now (slice_index codes.now q) s) (length codes.now) tags.now stretch.now (length work.old) trail.old trail.new result }
{
    let symbols = stretch.len();
    if symbols > MOST_SYMBOLS || trail.len() < symbols || work.len() < MEASURES {
        return Err(Unsplit::NoRoom);
    }
    if symbols == 0 {
        return automaton.nullable.then_some(()).ok_or(Unsplit::NoTrail);
    }
    let (mut measures, mut spare) = work.split_at_mut(POSITIONS);
    let mut back = [[0; POSITIONS]; MOST_SYMBOLS];
    let mut live = 0;
    for (i, symbol) in stretch.iter().enumerate() {
        let fronts = Fronts::new(ranking, tags, i, &back, live, measures);
        let reached = fronts.advance(automaton, row(alphabet, codes, symbol), spare);
        // By a variable, since the borrow checker does not cover `back[i] = reached.previous`.
        let previous = reached.previous;
        live = reached.positions;
        back[i] = previous;
        swap(&mut measures, &mut spare);
    }
    let fronts = Fronts::new(ranking, tags, symbols, &back, live, measures);
    let Some(last) = fronts.best_in(automaton.last) else {
        return Err(Unsplit::NoTrail);
    };
    walk_back(&back, last as u8, &mut trail[..symbols]);
    Ok(())
}

#[cfg(test)]
mod tests {
    use super::*;
    use alphabet::letters::Letters;
    use ranking::{Extent, TagOrder};

    // The test of the letter a, and the test of every letter.
    const A: u32 = 353;

    const ANY: u32 = 65536;

    fn automaton(first: u64, last: u64, follow: [u64; 64], nullable: bool) -> Automaton {
        Automaton {
            first,
            last,
            follow,
            nullable,
        }
    }

    fn by_extent(
        automaton: &Automaton,
        codes: &[u32],
        tags: &[u8; 64],
        stretch: &[u8],
        trail: &mut [u8],
    ) -> Result<(), Unsplit> {
        let mut work = [0; 128];
        best_trail(
            &Letters::new(),
            codes,
            automaton,
            tags,
            stretch,
            &Extent,
            &mut work,
            trail,
        )
    }

    // Position 0 has the most tags, and leads nowhere.
    #[test]
    fn leader_leads_nowhere(rt: HostRuntime) {
        let mut follow = [0; 64];
        follow[1] = 4;
        let automaton = automaton(3, 4, follow, false);
        let mut tags = [0; 64];
        tags[0] = 255;
        let mut trail = [9; 4];
        assert_eq!(rt;
            by_extent(&automaton, &[ANY; 3], &tags, b"xy", &mut trail),
            Ok(())
        );
        assert_eq!(rt; trail, [2, 3, 9, 9]);
    }

    // All trails rank equal: the smaller positions come first, from the last symbol back.
    #[test]
    fn ties(rt: HostRuntime) {
        let automaton = automaton(3, 3, [3; 64], false);
        let mut trail = [9; 4];
        assert_eq!(rt;
            by_extent(&automaton, &[A, ANY], &[1; 64], b"aab", &mut trail),
            Ok(())
        );
        assert_eq!(rt; trail, [1, 1, 2, 9]);
    }

    #[test]
    fn none(rt: HostRuntime) {
        let automaton = automaton(1, 3, [1; 64], true);
        let mut trail = [9; 4];
        assert_eq!(rt;
            by_extent(&automaton, &[A, ANY], &[1; 64], b"ab", &mut trail),
            Err(Unsplit::NoTrail)
        );
        assert_eq!(rt;
            by_extent(&automaton, &[A, ANY], &[1; 64], b"", &mut trail),
            Ok(())
        );
        assert_eq!(rt; trail, [9; 4]);
    }

    // Positions 0 and 1 lead to position 2. They have one tag each, so by extent they are equal and the smaller comes first; by the
    // tags in their order the one with tag 1 ranks higher.
    #[test]
    fn equal_by_one_ranking(rt: HostRuntime) {
        let automaton = automaton(3, 4, [4; 64], false);
        let mut tags = [0; 64];
        tags[0] = 2;
        tags[1] = 1;
        let codes = [ANY; 3];
        let mut trail = [9; 2];
        assert_eq!(rt;
            by_extent(&automaton, &codes, &tags, b"xy", &mut trail),
            Ok(())
        );
        assert_eq!(rt; trail, [1, 3]);
        let mut work = [[0; 8]; 128];
        let letters = Letters::new();
        let answer = best_trail(
            &letters, &codes, &automaton, &tags, b"xy", &TagOrder, &mut work, &mut trail,
        );
        assert_eq!(rt; answer, Ok(()));
        assert_eq!(rt; trail, [2, 3]);
    }

    #[test]
    fn no_room(rt: HostRuntime) {
        let automaton = automaton(1, 1, [1; 64], true);
        let mut trail = [9; 161];
        assert_eq!(rt;
            by_extent(&automaton, &[ANY], &[0; 64], &[b'x'; 161], &mut trail),
            Err(Unsplit::NoRoom)
        );
        assert_eq!(rt;
            by_extent(&automaton, &[ANY], &[0; 64], &[b'x'; 160], &mut trail),
            Ok(())
        );
        assert_eq!(rt;
            by_extent(&automaton, &[ANY], &[0; 64], b"xy", &mut [9; 1]),
            Err(Unsplit::NoRoom)
        );
        let letters = Letters::new();
        assert_eq!(rt;
            best_trail(
                &letters,
                &[ANY],
                &automaton,
                &[0; 64],
                b"",
                &Extent,
                &mut [0; 127],
                &mut trail,
            ),
            Err(Unsplit::NoRoom)
        );
        assert!(rt; trail[159] == 1);
        assert!(rt; trail[160] == 9);
    }
}
