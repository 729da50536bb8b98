// How answers are printed.
use alphabet::Cause;
use sheet::{Part, Sheet};
use std::fmt;

// A refusal of any of the libraries: its number, and where it has them its offset and its cause.
#[derive(Clone, Copy)]
pub struct Refused {
    number: u8,
    offset: Option<usize>,
    cause: Option<Cause>,
}

impl From<shelf::refusal::Refusal> for Refused {
    fn from(value: shelf::refusal::Refusal) -> Refused {
        Refused {
            number: value.number(),
            offset: value.offset(),
            cause: value.cause(),
        }
    }
}

impl From<cue::Refusal> for Refused {
    fn from(value: cue::Refusal) -> Refused {
        Refused {
            number: value.number(),
            offset: value.offset(),
            cause: None,
        }
    }
}

impl fmt::Display for Refused {
    fn fmt<W: fmt::Write>(&self, f: &mut fmt::Formatter<W>) -> fmt::Result {
        write!(f, "refused {}", self.number)?;
        if let Some(offset) = self.offset {
            write!(f, " at {offset}")?;
        }
        if let Some(cause) = self.cause {
            write!(f, " cause {}", cause.number())?;
        }
        Ok(())
    }
}

// What a call answers: `ok`, with up to two numbers, or its refusal.
#[derive(Clone, Copy)]
pub enum Verdict {
    Done,
    Count(usize),
    Pair(usize, usize),
    Refused(Refused),
}

impl<E: Into<Refused>> From<Result<(), E>> for Verdict {
    fn from(value: Result<(), E>) -> Verdict {
        match value {
            Ok(()) => Verdict::Done,
            Err(refusal) => Verdict::Refused(refusal.into()),
        }
    }
}

impl<E: Into<Refused>> From<Result<usize, E>> for Verdict {
    fn from(value: Result<usize, E>) -> Verdict {
        match value {
            Ok(count) => Verdict::Count(count),
            Err(refusal) => Verdict::Refused(refusal.into()),
        }
    }
}

impl<E: Into<Refused>> From<Result<(usize, usize), E>> for Verdict {
    fn from(value: Result<(usize, usize), E>) -> Verdict {
        match value {
            Ok((first, second)) => Verdict::Pair(first, second),
            Err(refusal) => Verdict::Refused(refusal.into()),
        }
    }
}

impl fmt::Display for Verdict {
    fn fmt<W: fmt::Write>(&self, f: &mut fmt::Formatter<W>) -> fmt::Result {
        match self {
            Verdict::Done => f.write_str("ok"),
            Verdict::Count(count) => write!(f, "ok {count}"),
            Verdict::Pair(first, second) => write!(f, "ok {first} {second}"),
            Verdict::Refused(refused) => write!(f, "{refused}"),
        }
    }
}

// The eight entries of a sheet.
#[derive(Clone, Copy)]
pub struct Entries<'a>(pub &'a Sheet);

impl fmt::Display for Entries<'_> {
    fn fmt<W: fmt::Write>(&self, f: &mut fmt::Formatter<W>) -> fmt::Result {
        for (k, entry) in self.0.entries().iter().enumerate() {
            if k > 0 {
                f.write_str(",")?;
            }
            match entry {
                Some(Part { left, right }) => write!(f, "{left}-{right}")?,
                None => f.write_str("none")?,
            }
        }
        Ok(())
    }
}

// The numbers of the tests along a trail.
#[derive(Clone, Copy)]
pub struct Trail<'a>(pub &'a [u8]);

impl fmt::Display for Trail<'_> {
    fn fmt<W: fmt::Write>(&self, f: &mut fmt::Formatter<W>) -> fmt::Result {
        if self.0.is_empty() {
            return f.write_str("-");
        }
        for (k, test) in self.0.iter().enumerate() {
            if k > 0 {
                f.write_str(",")?;
            }
            write!(f, "{test}")?;
        }
        Ok(())
    }
}
