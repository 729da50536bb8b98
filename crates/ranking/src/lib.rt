//! Rankings: how a trail is ranked by the tags of its symbols.
//!
//! A ranking begins with the measure `start`, steps it once for each symbol of a trail, from the first to the last, by the set of the
//! tags that the symbol belongs to, and compares the measures that come out. Two rankings ship, `Extent` and `TagOrder`; others may
//! be written. An `Either` of two rankings is one too, so that one list may mix them.
#![tactic(auto)]

ghost use Rattle.std.specs.Prelude.{◌≡◌, ℕ};
ghost use Rattle.std.specs.declared.cmp.Ordering.{Ordering as Order};
ghost use Rattle.ranking.specs.Laws.{Near, Lawful};
ghost use Rattle.std.proofs.Common.{rules};

use std::cmp::Ordering;

pub mod extent;
mod one_of_two;
pub mod tag_order;

pub use extent::Extent;
pub use tag_order::TagOrder;

/// A ranking of trails.
///
/// A set of tags is one byte: bit k - 1 stands for tag k. An implementation tells its three functions by the ghost members of the same
/// names (`stepped` for `step`, `compared` for `compare`), and shows by the law that the comparison is an order that one same step on
/// both sides does not change. A trail has at most 160 symbols, so nothing is asked of measures that are further from the start than
/// 160 steps: a count of steps may be a byte, and what it does beyond does not matter.
pub trait Ranking {
    /// What a trail comes to, and what is compared.
    type Measure: Copy;

    /// The measure of no symbols.
    ghost start: { Self → Self.Measure };

    /// The measure with one symbol more, by the set of its tags.
    ghost stepped: { Self → Self.Measure → ℕ → Self.Measure };

    /// How two measures compare: `Greater` where the first ranks higher.
    ghost compared: { Self → Self.Measure → Self.Measure → Order };

    /// The measure of no symbols.
    fn start(&self) -> Self::Measure
        ensures { result ≡ start self.now };

    /// The measure with one symbol more. It is asked of measures that are at most 159 steps from the start.
    fn step(&self, measure: Self::Measure, tags: u8) -> Self::Measure
        requires { Near (start self.now) (stepped self.now) 159 measure }
        ensures { result ≡ stepped self.now measure tags };

    /// How two measures compare. It is asked of measures that are at most 160 steps from the start.
    fn compare(&self, a: &Self::Measure, b: &Self::Measure) -> Ordering
        requires { Near (start self.now) (stepped self.now) 160 a.now × Near (start self.now) (stepped self.now) 160 b.now }
        ensures { result ≡ compared self.now a.now b.now };

    /// The comparison is an order, and one same step on both sides leaves it as it was.
    ghost lawful: { (s : Self) → Lawful (start s) (stepped s) (compared s) };
}

#[cfg(test)]
mod tests {
    use super::*;
    use either::{Left, Right};

    // Calls every two trails equal.
    #[derive(Clone, Copy)]
    struct Alike;

    impl Ranking for Alike {
        type Measure = u8;

        ghost start = { λ _. 0 };

        ghost stepped = { λ _ m _. m };

        ghost compared = { λ _ _ _. Order.Equal };

        ghost lawful = { Prim.search rules };

        fn start(&self) -> u8 {
            0
        }

        fn step(&self, measure: u8, _tags: u8) -> u8 {
            measure
        }

        fn compare(&self, _a: &u8, _b: &u8) -> Ordering {
            Ordering::Equal
        }
    }

    // The measure of three symbols with these sets of tags.
    fn three<R: Ranking>(ranking: &R, a: u8, b: u8, c: u8) -> R::Measure
        ensures { Near (R.Ranking.start ranking.now) (R.Ranking.stepped ranking.now) 160 result }
    {
        ranking.step(ranking.step(ranking.step(ranking.start(), a), b), c)
    }

    #[test]
    fn more_tags_rank_higher(rt: HostRuntime) {
        let some = three(&Extent, 3, 0, 1);
        let more = three(&Extent, 0, 128, 7);
        assert_eq!(rt; some, 3);
        assert_eq!(rt; more, 4);
        assert!(rt; Extent.compare(&some, &more).is_lt());
    }

    #[test]
    fn the_first_tag_decides(rt: HostRuntime) {
        let some = three(&TagOrder, 1, 0, 254);
        let more = three(&TagOrder, 1, 1, 0);
        assert_eq!(rt; some, [1, 1, 1, 1, 1, 1, 1, 1]);
        assert_eq!(rt; more, [2, 0, 0, 0, 0, 0, 0, 0]);
        assert!(rt; TagOrder.compare(&some, &more).is_lt());
        assert!(rt;
            TagOrder
                .compare(&some, &three(&TagOrder, 1, 254, 0))
                .is_eq()
        );
    }

    #[test]
    fn all_alike(rt: HostRuntime) {
        assert!(rt;
            Alike
                .compare(&three(&Alike, 1, 2, 3), &three(&Alike, 0, 0, 0))
                .is_eq()
        );
    }

    #[test]
    fn two_rankings_in_one_list(rt: HostRuntime) {
        let rankings = [Left(Extent), Right(TagOrder)];
        let lengths = [1, 1, 1, 1, 1, 1, 1, 1];
        assert_eq!(rt; three(&rankings[0], 1, 0, 254), Left(8));
        assert_eq!(rt; three(&rankings[1], 1, 0, 254), Right(lengths));
        for ranking in &rankings {
            let some = three(ranking, 1, 0, 254);
            let more = three(ranking, 1, 1, 0);
            let first_is_higher = ranking.compare(&some, &more).is_gt();
            assert_eq!(rt; first_is_higher, ranking.is_left());
        }
    }
}
