//! Alphabets and notations, and the two that come with the shelf.
#![tactic(auto)]

ghost use Rattle.std.specs.Prelude.{◌≡◌, ℕ, Bool, List, Some, Result, IfOk};
ghost use Rattle.alphabet.specs.declared.Cause.{Cause};
ghost use Rattle.alphabet.specs.Signs.{is_sign, BeginsNoSign};
ghost use Rattle.alphabet.specs.Causes.{cause_number, cause_words};
ghost use Rattle.alphabet.specs.Readings.{UsesSome};

use std::error::Error;
use std::fmt;

pub mod letters;
pub mod words;

/// Why bytes are not a test.
#[derive(Clone, Copy, PartialEq, Eq, Debug)]
pub enum Cause {
    CutShort = 1,
    OutOfRange = 2,
    UnknownForm = 3,
}

impl Cause {
    /// The number under which a cause is reported.
    pub fn number(self) -> u8
        ensures { result ≡ cause_number self }
    {
        self as u8
    }

    /// The same in words.
    pub fn words(self) -> &'static str
        ensures { result.now ≡ cause_words self }
    {
        match self {
            Cause::CutShort => "not a test: cut short",
            Cause::OutOfRange => "not a test: out of range",
            Cause::UnknownForm => "not a test: unknown form",
        }
    }
}

// By hand, since a derived message has no contract, and `output` tells what is printed.
impl fmt::Display for Cause {
    ghost output = { λ cause. Some (cause_words cause) };

    fn fmt<W: fmt::Write>(&self, f: &mut fmt::Formatter<W>) -> fmt::Result {
        f.write_str(self.words())
    }
}

impl Error for Cause {}

/// Symbols, tests and a meaning: which symbols each test admits. A test is kept as a number, and the alphabet chooses its
/// numbers freely.
pub trait Alphabet {
    type Symbol;

    /// Which symbols each test admits.
    ghost meaning: { Self → ℕ → Self.Symbol → Bool };

    /// Whether a test admits a symbol.
    fn admits(&self, test: u32, symbol: &Self::Symbol) -> bool
        ensures { result ≡ meaning self.now test symbol.now };
}

/// How a test is written in bytes. A notation is given all the bytes from the test's first to the pattern's end, and is
/// asked only of bytes that begin with none of the eight signs. It may keep a state, but neither its meaning nor what it
/// reads depends on what it was asked before. That it means and reads what it did stands in the contract of each function that
/// asks it: no field and no invariant can compare a value before and after.
pub trait Notation: Alphabet {
    /// What is read at the front of bytes: a test and how many bytes it takes, or why there is none.
    ghost reading: { Self → List ℕ → Result (ℕ × ℕ) Cause };

    /// Reads a test at the front of the bytes, of which there is one at least, and the first is no sign.
    fn read(&mut self, bytes: &[u8]) -> Result<(u32, usize), Cause>
        requires { BeginsNoSign bytes.now }
        ensures answer { result ≡ reading self.old bytes.now }
        ensures keeps_meaning { Self.Alphabet.meaning self.new ≡ Self.Alphabet.meaning self.old }
        ensures keeps_reading { (other : List ℕ) → BeginsNoSign other → reading self.new other ≡ reading self.old other };

    /// A test that is read takes at least one of the bytes, and none past their end.
    ghost uses_some: { (s : Self) (bytes : List ℕ) → BeginsNoSign bytes → IfOk (reading s bytes) (UsesSome bytes) };
}

/// Whether a byte is one of the eight signs.
pub fn is_sign(byte: u8) -> bool
    ensures { result ≡ is_sign byte }
{
    matches!(byte, b'|' | b'*' | b'+' | b'?' | b'(' | b')' | b'{' | b'}')
}

// How the tests of a notation ask it.
#[cfg(test)]
mod forms {
    use super::{Cause, Notation, is_sign};
    use std::process::Abort;
    use std::test::Fail;

    pub(crate) fn read<N: Notation + Drop>(
        mut notation: N,
        bytes: &[u8],
    ) -> Option<Result<(u32, usize), Cause>> {
        match bytes {
            [first, ..] if !is_sign(*first) => Some(notation.read(bytes)),
            _ => None,
        }
    }

    // A form takes so many bytes, and admits the one symbol and not the other.
    pub(crate) fn check_form<N: Notation + Copy>(
        rt: &impl Abort,
        notation: N,
        form: &[u8],
        used: usize,
        inside: &N::Symbol,
        outside: &N::Symbol,
    ) -> Result<(), Fail> {
        let Some(Ok((test, taken))) = read(notation, form) else {
            return Err(Fail::new("no form"));
        };
        assert_eq!(rt; taken, used);
        assert!(rt; notation.admits(test, inside));
        assert!(rt; !notation.admits(test, outside));
        Ok(())
    }
}
