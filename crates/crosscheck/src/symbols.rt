// Bytes and symbols, as they are written: in hexadecimal digits, and `-` where there are none.
use crate::failure::Failure;
use hex::FromHexError;
use std::alloc::{AllocError, Global};
use std::fmt;

// What stands for no bytes at all.
const NOTHING: &str = "-";

// The bytes that two digits each tell.
pub fn read_bytes(alloc: Global, digits: &str) -> Result<Vec<u8>, Failure> {
    match digits {
        "" => Err(Failure::NoCase),
        NOTHING => Ok(Vec::new(alloc)),
        _ => hex::decode(alloc, digits).map_err(|error| match error {
            FromHexError::OutOfMemory => Failure::from(AllocError),
            _ => Failure::NoCase,
        }),
    }
}

// A symbol of one of the notations that come with the shelf.
pub trait Symbol: Copy {
    // A line of such symbols.
    fn read_line(alloc: Global, digits: &str) -> Result<Vec<Self>, Failure>;

    // Writes the symbol, in as many digits as each of its kind has.
    fn write_hex<W: fmt::Write>(self, f: &mut fmt::Formatter<W>) -> fmt::Result;
}

impl Symbol for u8 {
    fn read_line(alloc: Global, digits: &str) -> Result<Vec<u8>, Failure> {
        read_bytes(alloc, digits)
    }

    fn write_hex<W: fmt::Write>(self, f: &mut fmt::Formatter<W>) -> fmt::Result {
        write!(f, "{self:02x}")
    }
}

impl Symbol for u32 {
    fn read_line(alloc: Global, digits: &str) -> Result<Vec<u32>, Failure> {
        let bytes = read_bytes(alloc, digits)?;
        let (codes, rest) = bytes.as_chunks::<4>();
        if !rest.is_empty() {
            return Err(Failure::NoCase);
        }
        Ok(
            codes
                .iter()
                .map(|code| u32::from_be_bytes(*code))
                .collect(alloc)?,
        )
    }

    fn write_hex<W: fmt::Write>(self, f: &mut fmt::Formatter<W>) -> fmt::Result {
        write!(f, "{self:08x}")
    }
}

// Symbols as they are printed.
#[derive(Clone, Copy)]
pub struct Hex<'a, S>(pub &'a [S]);

impl<S: Symbol> fmt::Display for Hex<'_, S> {
    fn fmt<W: fmt::Write>(&self, f: &mut fmt::Formatter<W>) -> fmt::Result {
        if self.0.is_empty() {
            return f.write_str(NOTHING);
        }
        for symbol in self.0 {
            symbol.write_hex(f)?;
        }
        Ok(())
    }
}
