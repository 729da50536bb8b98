ghost use Rattle.std.specs.Prelude.{◌≡◌};
ghost use Rattle.std.specs.Iterator.{at_most};
ghost use Rattle.automaton.specs.PositionSets.{GivesLowest};

/// The positions of a set, one after another from the lowest up.
#[derive(Drop)]
pub struct Positions {
    left: u64,
}

impl Positions {
    /// All positions of a set.
    #[inline]
    pub fn of(set: u64) -> Positions
        ensures { result.left ≡ set }
    {
        Positions { left: set }
    }
}

impl Iterator for Positions {
    type Item = usize;

    ghost next_gives = { GivesLowest };

    ghost remaining = { λ s. at_most s.left };

    #[inline]
    fn next(&mut self) -> Option<usize> {
        if self.left == 0 {
            return None;
        }
        let lowest = self.left.trailing_zeros() as usize;
        self.left &= self.left - 1;
        Some(lowest)
    }
}
