use crate::POSITIONS;

/// A position automaton. Its positions are numbered from 0 to 63, and a set of positions is one number: bit k stands for position k.
#[derive(Clone, Copy)]
pub struct Automaton {
    /// The positions that may begin a word.
    pub first: u64,
    /// The positions that may end a word.
    pub last: u64,
    /// For each position those that may follow it.
    pub follow: [u64; POSITIONS],
    /// Whether the empty word belongs.
    pub nullable: bool,
}
