// From a pattern's bytes to the pattern as it is kept.
ghost use Rattle.std.specs.Prelude.{◌≡◌, ℕ, ◌+◌, ◌<◌, ◌≤◌, length, MatchResult, slice_index};
ghost use Rattle.pattern.specs.Expressions.{Syntax};
ghost use Rattle.pattern.specs.Grammar.{Derivable, DerivesOnly};
ghost use Rattle.pattern.specs.Patterns.{syntax, written};
ghost use Rattle.pattern.specs.Spelling.{HasWords};
ghost use Rattle.pattern.specs.Scanning.{syntax_of};
ghost use Rattle.pattern.specs.Tags.{tag_set};
ghost use Rattle.pattern.specs.Tokens.{SameReading};

use crate::cutter::{MOST_BYTES, cut};
use crate::fault::Fault;
use crate::kept::Pattern;
use crate::reader::parse;
use alphabet::{Alphabet, Notation};
use arrayvec::ArrayVec;
use automaton::{Automaton, POSITIONS};

impl Pattern {
    /// Reads a pattern in a notation, or says what is the first thing wrong with it.
    pub fn read<N: Notation>(notation: &mut N, bytes: &[u8]) -> Result<Pattern, Fault>
        ensures pattern_or_first_fault { written result ≡ syntax_of (N.Notation.reading notation.old) bytes.now }
        ensures exactly_what_the_grammar_derives { MatchResult result (λ p. DerivesOnly (N.Notation.reading notation.old) bytes.now (syntax p)) (λ _. (x : Syntax) → Derivable (N.Notation.reading notation.old) bytes.now x → ⊥) }
        ensures asks_nothing_if_too_long { 120 < length bytes.now → notation.new ≡ notation.old }
        ensures keeps_meaning { N.Alphabet.meaning notation.new ≡ N.Alphabet.meaning notation.old }
        ensures keeps_reading { SameReading (N.Notation.reading notation.new) (N.Notation.reading notation.old) }
    {
        if bytes.len() > MOST_BYTES {
            return Err(Fault::TooLong);
        }
        let mut tokens = ArrayVec::new();
        cut(notation, bytes, &mut tokens);
        parse(&tokens, bytes.len())
    }

    /// The numbers by which the alphabet keeps the tests, in their order.
    pub fn codes(&self) -> &[u32]
        ensures codes { result.now ≡ (syntax self.now).codes }
        ensures few { length result.now ≤ 64 }
    {
        &self.codes[..self.tests as usize]
    }

    /// The position automaton, which has exactly the pattern's words.
    pub fn automaton(&self) -> &Automaton
        ensures { HasWords (length (syntax self.now).codes) (syntax self.now).tree result.now }
    {
        &self.machine
    }

    /// How many tests the pattern has.
    pub fn tests(&self) -> usize
        ensures { result ≡ length (syntax self.now).codes }
    {
        self.codes().len()
    }

    /// How many tags the pattern has.
    pub fn tags(&self) -> usize
        ensures { result ≡ (syntax self.now).tags }
    {
        self.tags as usize
    }

    /// For each test the set of the tags that it is inside: the test p stands at p - 1, and bit t - 1 of its set says
    /// whether it is inside the tag t.
    pub fn tag_sets(&self) -> &[u8; POSITIONS]
        ensures { (q : ℕ) → slice_index result.now q ≡ tag_set (syntax self.now).tree (q + 1) }
    {
        &self.sets
    }
}
