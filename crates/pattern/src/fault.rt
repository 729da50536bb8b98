// Why bytes are no lawful pattern: the first thing that goes wrong from left to right.
ghost use Rattle.std.specs.Prelude.{◌≡◌, Some};
ghost use Rattle.pattern.specs.Faults.{fault_number, fault_words, fault_offset, fault_cause};
ghost use Rattle.pattern.specs.declared.fault.Fault.TheVariants.{BadTest};

use alphabet::Cause;
use std::error::Error;
use std::fmt;

/// What the notation does not read as a test, with the offset of its first byte.
#[derive(Clone, Copy, PartialEq, Eq, Debug)]
pub struct Misread {
    pub cause: Cause,
    pub offset: usize,
}

/// A case that holds a number holds an offset into the pattern's bytes.
#[derive(Clone, Copy, PartialEq, Eq, Debug)]
pub enum Fault {
    TooLong,
    BadTest(Misread),
    MissingUnit(usize),
    LooseBracket(usize),
    TooDeep(usize),
    TooManyTests(usize),
    TooManyTags(usize),
    RepeatedTag(usize),
}

// By hand, since a derived `From` has no contract, and contracts name what a `?` makes.
impl From<Misread> for Fault {
    ghost from_gives = { λ m r. r ≡ BadTest m };

    fn from(value: Misread) -> Fault {
        Fault::BadTest(value)
    }
}

// By hand, since a derived message has no contract, and `output` tells what is printed.
impl fmt::Display for Fault {
    ghost output = { λ fault. Some (fault_words fault) };

    fn fmt<W: fmt::Write>(&self, f: &mut fmt::Formatter<W>) -> fmt::Result {
        f.write_str(self.words())
    }
}

impl Error for Fault {}

impl Fault {
    /// The number under which a fault is reported.
    // By hand, since a case that holds a value has no discriminant of its own.
    pub fn number(self) -> u8
        ensures { result ≡ fault_number self }
    {
        match self {
            Fault::TooLong => 4,
            Fault::BadTest(_) => 5,
            Fault::MissingUnit(_) => 6,
            Fault::LooseBracket(_) => 7,
            Fault::TooDeep(_) => 8,
            Fault::TooManyTests(_) => 9,
            Fault::TooManyTags(_) => 10,
            Fault::RepeatedTag(_) => 11,
        }
    }

    /// What is wrong, for one who has no manual at hand.
    pub fn words(self) -> &'static str
        ensures { result.now ≡ fault_words self }
    {
        match self {
            Fault::TooLong => "longer than 120 bytes",
            Fault::BadTest(misread) => misread.cause.words(),
            Fault::MissingUnit(_) => "a test or a group is missing here",
            Fault::LooseBracket(_) => "a bracket closes nothing, or one is still open at the end",
            Fault::TooDeep(_) => "more than 8 groups are open",
            Fault::TooManyTests(_) => "more than 64 tests",
            Fault::TooManyTags(_) => "more than 8 tags",
            Fault::RepeatedTag(_) => "a * or + repeats a tag",
        }
    }

    /// Where the pattern goes wrong; a pattern that is too long goes wrong nowhere in particular.
    pub fn offset(self) -> Option<usize>
        ensures { result ≡ fault_offset self }
    {
        match self {
            Fault::TooLong => None,
            Fault::BadTest(misread) => Some(misread.offset),
            Fault::MissingUnit(offset)
            | Fault::LooseBracket(offset)
            | Fault::TooDeep(offset)
            | Fault::TooManyTests(offset)
            | Fault::TooManyTags(offset)
            | Fault::RepeatedTag(offset) => Some(offset),
        }
    }

    /// The notation's own cause, of a bad test.
    pub fn cause(self) -> Option<Cause>
        ensures { result ≡ fault_cause self }
    {
        match self {
            Fault::BadTest(misread) => Some(misread.cause),
            _ => None,
        }
    }
}
