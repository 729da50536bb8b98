//! What a proof-reader of patterns prints: a verdict on each pattern, and a report at the end.
#![tactic(auto, using(text::proofs::Chains::nothing))]

use pattern::MOST_BYTES;

pub mod proofreader;
pub mod report;
mod showing;
pub mod tally;
#[cfg(test)]
mod tests;
pub mod verdict;
mod words;

/// So many bytes of a line are enough for its verdict (`FrontSuffices`): one more than a pattern may have tells that a line is too long.
pub const FRONT: usize = MOST_BYTES + 1;
