ghost use Rattle.std.specs.Prelude.{◌≡◌, ◌<◌, ◌≤◌, true, false, [], ◌∷◌, ◌++◌, length, take, MatchOption};
ghost use Rattle.automaton.specs.RowList.{rows_of};

use super::Rows;
use crate::MOST_SYMBOLS;

impl Rows {
    /// No rows.
    #[tactic(auto, unfolding(crate::specs::RowList::rows_of))]
    pub fn new() -> Rows
        ensures { rows_of result ≡ [] }
    {
        Rows {
            list: [0; MOST_SYMBOLS],
            len: 0,
        }
    }

    /// The first so many rows of a list; `None` where that is more than 160.
    #[tactic(auto, unfolding(crate::specs::RowList::rows_of))]
    pub fn of(list: [u64; MOST_SYMBOLS], len: usize) -> Option<Rows>
        ensures { MatchOption result (160 < len) (λ rows. (len ≤ 160) × (rows_of rows ≡ take len list)) }
    {
        if len > MOST_SYMBOLS {
            return None;
        }
        Some(Rows { list, len })
    }

    // A bool and no error, which would have one value and say no more.
    /// Adds the row of one symbol more. Where there are 160 rows already it says `false`, and adds nothing.
    #[tactic(auto, unfolding(crate::specs::RowList::rows_of))]
    pub fn push(&mut self, row: u64) -> bool
        ensures { elim result [ true ↦ rows_of self.new ≡ rows_of self.old ++ (row ∷ []) | false ↦ (rows_of self.new ≡ rows_of self.old) × (length (rows_of self.old) ≡ 160) ] }
    {
        if self.len == self.list.len() {
            return false;
        }
        self.list[self.len] = row;
        self.len += 1;
        true
    }

    /// How many rows there are.
    pub fn len(&self) -> usize
        ensures count { result ≡ length (rows_of self.now) }
        ensures bound { result ≤ 160 }
    {
        self.as_slice().len()
    }

    // The rows, first to last.
    #[tactic(auto, unfolding(crate::specs::RowList::rows_of))]
    pub(crate) fn as_slice(&self) -> &[u64]
        ensures rows { result.now ≡ rows_of self.now }
        ensures bound { length result.now ≤ 160 }
    {
        &self.list[..self.len]
    }
}
