//! Cue records: what playout is told of a line, its marks and parts, in a few bytes.
#![tactic(auto)]

pub mod cursor;
mod reading;
pub mod refusal;
mod writing;

pub use cursor::{Cue, Cursor};
pub use reading::read;
pub use refusal::{Fault, Refusal};
pub use writing::write;

/// A line has at most so many symbols. The automaton's bound has this name and value too, but cue does not stand on automaton.
pub const MOST_SYMBOLS: usize = 160;
