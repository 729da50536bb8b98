//! Orders to a shelf of letters, as they are written, and what is printed in answer.
#![tactic(auto, using(text::proofs::Chains::nothing))]

pub mod order;
pub mod printing;
#[cfg(test)]
mod tests;
