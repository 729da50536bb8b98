// Two notations that are lawful, and odd.
ghost use Rattle.std.specs.Prelude.{◌-◌, ◌/◌, false, List, Ok, ◌==◌, slice_index};
ghost use Rattle.std.proofs.Common.{rules};

use alphabet::{Alphabet, Cause, Notation};

// Every byte is a test, and no test admits a symbol.
#[derive(Clone, Copy)]
pub struct Nothing;

impl Alphabet for Nothing {
    type Symbol = bool;

    ghost meaning = { λ _ _ _. false };

    fn admits(&self, _test: u32, _symbol: &bool) -> bool {
        false
    }
}

impl Notation for Nothing {
    ghost reading = { λ _ _. Ok (7, 1) };

    ghost uses_some = { Prim.search rules };

    fn read(&mut self, _bytes: &[u8]) -> Result<(u32, usize), Cause> {
        Ok((7, 1))
    }
}

// A byte's test is numbered down from the largest number, and the notation counts how often it was asked.
#[derive(Clone, Copy)]
pub struct Downward {
    pub asked: u64,
}

impl Alphabet for Downward {
    type Symbol = u32;

    ghost meaning = { λ _ test symbol. (4294967295 - test == symbol) };

    fn admits(&self, test: u32, symbol: &u32) -> bool {
        u32::MAX - test == *symbol
    }
}

impl Notation for Downward {
    ghost reading = { λ _ bytes. Ok (4294967295 - slice_index bytes 0, 1) };

    ghost uses_some = { Prim.search rules };

    fn read(&mut self, bytes: &[u8]) -> Result<(u32, usize), Cause> {
        self.asked = self.asked.wrapping_add(1);
        match bytes {
            [] => unreachable(),
            [byte, ..] => Ok((u32::MAX - u32::from(*byte), 1)),
        }
    }
}
