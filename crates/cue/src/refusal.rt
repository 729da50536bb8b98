// Why bytes are no cue record, and why a call is turned down.
ghost use Rattle.std.specs.Prelude.{◌≡◌, ◌≤◌, Some, IfOk};
ghost use Rattle.cue.specs.Answers.{line_check};
ghost use Rattle.cue.specs.Faults.{fault_number, fault_words, fault_offset, refusal_number, refusal_words, refusal_offset};
ghost use Rattle.cue.specs.declared.refusal.Refusal.TheVariants.{NoRecord};

use crate::MOST_SYMBOLS;
use std::error::Error;
use std::fmt;

/// The first thing that is wrong with a record, at an offset of its bytes.
#[derive(Clone, Copy, PartialEq, Eq, Debug)]
pub enum Fault {
    /// The record ends where a number goes on; at its length.
    CutShort(usize),
    /// A number is not in its shortest form, or has over two bytes; at its first byte.
    LongNumber(usize),
    /// A number is too small or too large for where it stands, or a byte is left over; at its first byte.
    BrokenRule(usize),
}

/// Why a record is not written or not read. These stand apart from the shelf's refusals: cue knows nothing of the shelf.
#[derive(Clone, Copy, PartialEq, Eq, Debug)]
pub enum Refusal {
    LineTooLong,
    BufferTooShort,
    PartMisfits,
    NoRecord(Fault),
}

// By hand, since the `From` that thiserror derives has no contract, and contracts name what a `?` makes.
impl From<Fault> for Refusal {
    ghost from_gives = { λ f r. r ≡ NoRecord f };

    fn from(value: Fault) -> Refusal {
        Refusal::NoRecord(value)
    }
}

// By hand, since a derived message has no contract, and `output` tells what is printed.
impl fmt::Display for Fault {
    ghost output = { λ fault. Some (fault_words fault) };

    fn fmt<W: fmt::Write>(&self, f: &mut fmt::Formatter<W>) -> fmt::Result {
        f.write_str(self.words())
    }
}

impl Error for Fault {}

// By hand, since a derived message has no contract, and `output` tells what is printed.
impl fmt::Display for Refusal {
    ghost output = { λ refusal. Some (refusal_words refusal) };

    fn fmt<W: fmt::Write>(&self, f: &mut fmt::Formatter<W>) -> fmt::Result {
        f.write_str(self.words())
    }
}

impl Error for Refusal {}

impl Fault {
    /// The number under which a fault is reported.
    // By hand, since a case that holds a value has no number of its own.
    pub fn number(self) -> u8
        ensures { result ≡ fault_number self }
    {
        match self {
            Fault::CutShort(_) => 16,
            Fault::LongNumber(_) => 17,
            Fault::BrokenRule(_) => 18,
        }
    }

    /// What is wrong, for one who has no manual at hand.
    pub fn words(self) -> &'static str
        ensures { result.now ≡ fault_words self }
    {
        match self {
            Fault::CutShort(_) => "the record is cut short",
            Fault::LongNumber(_) => "a number is not in its shortest form, or too long",
            Fault::BrokenRule(_) => "a number breaks a rule, or a byte is left over",
        }
    }

    /// Where in the record it stands.
    pub fn offset(self) -> usize
        ensures { result ≡ fault_offset self }
    {
        match self {
            Fault::CutShort(offset) | Fault::LongNumber(offset) | Fault::BrokenRule(offset) =>
                offset,
        }
    }
}

impl Refusal {
    /// The number under which a refusal is reported.
    // By hand, as a fault's is.
    pub fn number(self) -> u8
        ensures { result ≡ refusal_number self }
    {
        match self {
            Refusal::LineTooLong => 12,
            Refusal::BufferTooShort => 13,
            Refusal::PartMisfits => 14,
            Refusal::NoRecord(fault) => fault.number(),
        }
    }

    /// What is wrong, for one who has no manual at hand.
    pub fn words(self) -> &'static str
        ensures { result.now ≡ refusal_words self }
    {
        match self {
            Refusal::LineTooLong => "a line of more than 160 symbols",
            Refusal::BufferTooShort => "the buffer is too short",
            Refusal::PartMisfits => "a part is empty, reversed or past the line",
            Refusal::NoRecord(fault) => fault.words(),
        }
    }

    /// Where in the record it goes wrong, if it is the record that goes wrong.
    pub fn offset(self) -> Option<usize>
        ensures { result ≡ refusal_offset self }
    {
        match self {
            Refusal::NoRecord(fault) => Some(fault.offset()),
            _ => None,
        }
    }
}

// Whether a call may go on with a line of so many symbols, where there is room for so many marks.
pub(crate) fn check_line(symbols: usize, room: usize) -> Result<(), Refusal>
    ensures refusal_that_is_due { result ≡ line_check symbols room }
    ensures within { IfOk result (λ _. (symbols ≤ 160) × (symbols ≤ room)) }
{
    // Both bounds, since a line may have fewer symbols than there is room for marks, and a refusal tells so.
    if symbols > MOST_SYMBOLS {
        return Err(Refusal::LineTooLong);
    }
    if symbols > room {
        return Err(Refusal::BufferTooShort);
    }
    Ok(())
}
