//! Text in a fixed room: what is written, and the front of a line that is read.
#![tactic(auto)]

mod appending;
pub mod buffer;
pub mod line;
#[cfg(test)]
mod tests;
