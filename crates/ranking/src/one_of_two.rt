// A ranking that is one of two, for lists in which rankings are mixed.
ghost use Rattle.std.specs.Prelude.{◌≡◌};
ghost use Rattle.either.specs.Either.{map_either};
ghost use Rattle.ranking.specs.OneOfTwo.{step_either, compare_either, start_there, stepped_there, compared_there};
ghost use Rattle.ranking.specs.Ranks.{RankAlike};
ghost use Rattle.ranking.specs.Sides.{either_law};

use crate::Ranking;
use either::{Either, Left, Right};
use std::cmp::Ordering;

/// Ranks as the ranking that is there. A measure stands on the side of the ranking that it is of.
impl<Q: Ranking, R: Ranking> Ranking for Either<Q, R> {
    type Measure = Either<Q::Measure, R::Measure>;

    ghost start = { map_either Q.start R.start };

    ghost stepped = { step_either Q.stepped R.stepped };

    ghost compared = { compare_either Q.compared R.compared };

    ghost lawful = { either_law Q.lawful R.lawful };

    // Each rank begins here, so it is said here how ranks compare: as they do under the ranking that is there.
    fn start(&self) -> Self::Measure
        ensures on_its_side { result ≡ map_either Q.start R.start self.now }
        ensures ranks_as_the_one_there { RankAlike result (step_either Q.stepped R.stepped self.now) (compare_either Q.compared R.compared self.now) (start_there Q.start R.start self.now) (stepped_there Q.stepped R.stepped self.now) (compared_there Q.compared R.compared self.now) }
    {
        match self {
            Left(ranking) => Left(ranking.start()),
            Right(ranking) => Right(ranking.start()),
        }
    }

    fn step(&self, measure: Self::Measure, tags: u8) -> Self::Measure {
        match (self, measure) {
            (Left(ranking), Left(measure)) => Left(ranking.step(measure, tags)),
            (Right(ranking), Right(measure)) => Right(ranking.step(measure, tags)),
            _ => measure,
        }
    }

    fn compare(&self, a: &Self::Measure, b: &Self::Measure) -> Ordering {
        match (self, a, b) {
            (Left(ranking), Left(a), Left(b)) => ranking.compare(a, b),
            (Right(ranking), Right(a), Right(b)) => ranking.compare(a, b),
            _ => Ordering::Equal,
        }
    }
}
