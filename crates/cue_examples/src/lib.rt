// Cue records, good and damaged, as tests.
#![tactic(auto)]

#[cfg(test)]
mod tests;
