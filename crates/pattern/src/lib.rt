//! Patterns: their bytes are cut into tokens, and the tokens are read as an expression.
#![tactic(auto)]

mod cutter;
pub mod fault;
pub mod kept;
mod node;
mod positions;
mod reader;
mod reading;
mod tagging;
mod token;

pub use cutter::MOST_BYTES;
