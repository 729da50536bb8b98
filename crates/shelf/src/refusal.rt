// The refusals of the shelf's calls.
ghost use Rattle.std.specs.Prelude.{◌≡◌, Some};
ghost use Rattle.shelf.specs.Refusals.{refusal_number, refusal_words, refusal_offset, refusal_cause, unsplit};
ghost use Rattle.shelf.specs.declared.refusal.Refusal.TheVariants.{Unlawful};

use alphabet::Cause;
use pattern::fault::Fault;
use splitting::Unsplit;
use std::error::Error;
use std::fmt;

/// Why a call is turned down.
#[derive(Clone, Copy, PartialEq, Eq, Debug)]
pub enum Refusal {
    NoSuchPlace,
    PlaceTaken,
    PlaceBare,
    Unlawful(Fault),
    LineTooLong,
    BufferTooShort,
    EndsMisfit,
    NoMatch,
}

// These two by hand, since a derived `From` has no contract, and contracts name what a `?` makes.
impl From<Fault> for Refusal {
    ghost from_gives = { λ f r. r ≡ Unlawful f };

    fn from(value: Fault) -> Refusal {
        Refusal::Unlawful(value)
    }
}

impl From<Unsplit> for Refusal {
    ghost from_gives = { λ u r. r ≡ unsplit u };

    fn from(value: Unsplit) -> Refusal {
        match value {
            Unsplit::NoRoom => Refusal::BufferTooShort,
            Unsplit::NoTrail => Refusal::NoMatch,
        }
    }
}

// By hand, since a derived message has no contract, and `output` tells what is printed.
impl fmt::Display for Refusal {
    ghost output = { λ refusal. Some (refusal_words refusal) };

    fn fmt<W: fmt::Write>(&self, f: &mut fmt::Formatter<W>) -> fmt::Result {
        f.write_str(self.words())
    }
}

impl Error for Refusal {}

impl Refusal {
    /// The number under which a refusal is reported.
    // By hand, since a case that holds a value has no discriminant of its own.
    pub fn number(self) -> u8
        ensures { result ≡ refusal_number self }
    {
        match self {
            Refusal::NoSuchPlace => 1,
            Refusal::PlaceTaken => 2,
            Refusal::PlaceBare => 3,
            Refusal::Unlawful(fault) => fault.number(),
            Refusal::LineTooLong => 12,
            Refusal::BufferTooShort => 13,
            Refusal::EndsMisfit => 14,
            Refusal::NoMatch => 15,
        }
    }

    /// What is wrong, for one who has no manual at hand.
    pub fn words(self) -> &'static str
        ensures { result.now ≡ refusal_words self }
    {
        match self {
            Refusal::NoSuchPlace => "no such place",
            Refusal::PlaceTaken => "the place is taken",
            Refusal::PlaceBare => "the place has no pattern",
            Refusal::Unlawful(fault) => fault.words(),
            Refusal::LineTooLong => "a line of more than 160 symbols",
            Refusal::BufferTooShort => "the buffer is too short",
            Refusal::EndsMisfit => "the ends are not those of a stretch of the line",
            Refusal::NoMatch => "nothing reads",
        }
    }

    /// Where in the pattern it goes wrong, if it is the pattern that goes wrong.
    pub fn offset(self) -> Option<usize>
        ensures { result ≡ refusal_offset self }
    {
        match self {
            Refusal::Unlawful(fault) => fault.offset(),
            _ => None,
        }
    }

    /// The notation's own cause, of a bad test.
    pub fn cause(self) -> Option<Cause>
        ensures { result ≡ refusal_cause self }
    {
        match self {
            Refusal::Unlawful(fault) => fault.cause(),
            _ => None,
        }
    }
}
