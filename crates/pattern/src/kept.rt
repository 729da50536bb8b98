ghost use Rattle.std.specs.Prelude.{◌≡◌, ℕ, ◌+◌, ◌<◌, ◌≤◌, true, slice_index};
ghost use Rattle.automaton.specs.Bit.{bit};
ghost use Rattle.pattern.specs.Positions.{has_empty, begins, ends, follows, size, numbered};
ghost use Rattle.pattern.specs.Tags.{tag_set};
ghost use Rattle.pattern.specs.Trees.{tree};

use crate::node::{MOST_NODES, Node};
use automaton::{Automaton, POSITIONS};

/// A pattern as it is kept: its nodes, its tests by the numbers under which the alphabet keeps them, its position automaton,
/// and for each test the set of the tags that it is inside. The test p has the position p - 1.
// Tests stand in an array with their count beside it, since a pattern is `Copy`.
#[derive(Clone, Copy)]
pub struct Pattern {
    pub(crate) nodes: [Node; MOST_NODES],
    pub(crate) root: u8,
    pub(crate) codes: [u32; POSITIONS],
    pub(crate) tests: u8,
    pub(crate) tags: u8,
    pub(crate) machine: Automaton,
    pub(crate) sets: [u8; POSITIONS],
    ghost few: { tests ≤ 64 },
    ghost counted: { size (tree 240 nodes root) ≡ tests },
    ghost ordered: { numbered (tree 240 nodes root) 1 ≡ true },
    ghost empty: { machine.nullable ≡ has_empty (tree 240 nodes root) },
    ghost beginnings: { (k : ℕ) → bit machine.first k ≡ begins (tree 240 nodes root) (k + 1) },
    ghost endings: { (k : ℕ) → bit machine.last k ≡ ends (tree 240 nodes root) (k + 1) },
    ghost followings: { (p : ℕ) → (q : ℕ) → p < 64 → bit (slice_index machine.follow p) q ≡ follows (tree 240 nodes root) (p + 1) (q + 1) },
    ghost sets_are: { (q : ℕ) → slice_index sets q ≡ tag_set (tree 240 nodes root) (q + 1) },
}
