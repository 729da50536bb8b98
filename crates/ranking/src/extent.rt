// By extent: the more tags the symbols have, counted over all symbols, the higher.
ghost use Rattle.ranking.specs.Numbers.{ordered};
ghost use Rattle.ranking.specs.TagSets.{no_extent, extent_with};
ghost use Rattle.std.proofs.Common.{rules};

use crate::Ranking;
use std::cmp::Ordering;

/// Ranks a trail by how many tags its symbols have, counted over all symbols.
#[derive(Clone, Copy)]
pub struct Extent;

impl Ranking for Extent {
    type Measure = u32;

    ghost start = { λ _. no_extent };

    ghost stepped = { λ _ extent tags. extent_with extent tags };

    ghost compared = { λ _ a b. ordered a b };

    ghost lawful = { Prim.search rules };

    fn start(&self) -> u32 {
        0
    }

    fn step(&self, measure: u32, tags: u8) -> u32 {
        measure + tags.count_ones()
    }

    fn compare(&self, a: &u32, b: &u32) -> Ordering {
        a.cmp(b)
    }
}
