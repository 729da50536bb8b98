// How many patterns were lawful, and how many were refused under each number.
ghost use Rattle.proofreading.specs.Tallies.{Starts, Counts};

use shelf::refusal::Refusal;

/// Counts of verdicts.
#[derive(Clone, Copy)]
pub struct Tally {
    pub patterns: u64,
    pub lawful: u64,
    pub refused: u64,
    // By the refusals' numbers, which are what the report tells.
    pub by_number: [u64; 16],
}

impl Tally {
    /// No verdict is counted yet.
    #[tactic(auto, using(crate::proofs::Recounts::none_yet_lem))]
    pub fn new() -> Tally
        ensures { Starts result }
    {
        Tally {
            patterns: 0,
            lawful: 0,
            refused: 0,
            by_number: [0; 16],
        }
    }

    /// Counts a verdict. A count that can rise no more stays as it is.
    #[tactic(auto, using(crate::proofs::Recounts::recounted))]
    pub fn count(&mut self, verdict: Result<(usize, usize), Refusal>)
        ensures { Counts self.old verdict self.new }
    {
        self.patterns = self.patterns.saturating_add(1);
        match verdict {
            Ok(_) => self.lawful = self.lawful.saturating_add(1),
            Err(refusal) => {
                let number = usize::from(refusal.number());
                self.refused = self.refused.saturating_add(1);
                self.by_number[number] = self.by_number[number].saturating_add(1);
            }
        }
    }
}
