//! A shelf of letters to which orders are given line by line: does what each says, and writes what is printed for it.
#![tactic(auto, using(text::proofs::Chains::nothing))]

pub mod marker;
#[cfg(test)]
mod tests;
