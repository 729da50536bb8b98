// By the tags in their order: the longer tag 1 the higher; where it is as long, the longer tag 2, and so on to tag 8.
ghost use Rattle.ranking.specs.TagLengths.{no_lengths, longer_by, first_difference};
ghost use Rattle.ranking.specs.Lengths.{swapped, transitive, same_step};

use crate::Ranking;
use std::cmp::Ordering;

// How many tags there are.
// As many as a set of tags, which is one byte, has room for.
const TAGS: usize = 8;

/// Ranks a trail by the length of tag 1, then by that of tag 2, and so on to tag 8. The length of a tag is how many symbols have it.
#[derive(Clone, Copy)]
pub struct TagOrder;

impl Ranking for TagOrder {
    type Measure = [u8; TAGS];

    ghost start = { λ _. no_lengths };

    ghost stepped = { λ _ lengths tags. longer_by lengths tags };

    ghost compared = { λ _ a b. first_difference a b };

    ghost lawful = { λ s.
        record {
          swapped = λ {a} {b} _ _. swapped a b;
          transitive = λ {a} {b} {c} _ _ _ h g. transitive a b c h g;
          same_step = λ {a} {b} _ _ tags _. same_step a b tags;
        } };

    fn start(&self) -> [u8; TAGS] {
        [0; TAGS]
    }

    fn step(&self, measure: [u8; TAGS], tags: u8) -> [u8; TAGS] {
        let mut lengths = measure;
        for (k, length) in lengths.iter_mut().enumerate() {
            *length += (tags >> k) % 2;
        }
        lengths
    }

    #[tactic(auto, using(crate::specs::Lengths::answered))]
    fn compare(&self, a: &[u8; TAGS], b: &[u8; TAGS]) -> Ordering {
        a.cmp(b)
    }
}
