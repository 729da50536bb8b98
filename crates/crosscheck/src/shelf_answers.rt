// The answers of a shelf, over any notation whose symbols can be read and printed.
use crate::cases::{RankedBy, ShelfCall, Split};
use crate::failure::Failure;
use crate::symbols::{Hex, Symbol};
use crate::texts::{Entries, Refused, Trail, Verdict};
use alphabet::{Alphabet, Notation};
use ranking::{Extent, Ranking, TagOrder};
use sheet::Sheet;
use shelf::{Shelf, part_of_line};
use std::alloc::Global;
use std::io::Write;

// What the bytes of a buffer of marks are before a call, so that it shows which of them were written.
pub const NO_MARK: u8 = 7;

// The same for a trail.
const NO_TEST: u8 = 99;

// Prints an answer that is a verdict and no more.
fn print<W: Write>(answer: impl Into<Verdict>, out: &mut W) -> Result<(), Failure> {
    let verdict: Verdict = answer.into();
    Ok(writeln!(out, "{verdict}")?)
}

impl ShelfCall<'_> {
    // Makes the call, and prints the answer, with the whole buffer and the sheet where the call may write them.
    pub fn answer<N: Notation, W: Write>(
        &self,
        alloc: Global,
        shelf: &mut Shelf<N>,
        sheet: &mut Sheet,
        out: &mut W,
    ) -> Result<(), Failure>
    where
        N::Symbol: Symbol,
    {
        match self {
            ShelfCall::File { place, pattern } => print(shelf.file(*place, pattern), out),
            ShelfCall::Withdraw { place } => print(shelf.withdraw(*place), out),
            ShelfCall::Longest { place, line } => {
                let line = N::Symbol::read_line(alloc, line)?;
                print(shelf.longest(*place, &line), out)
            }
            ShelfCall::Mark { place, room, line } => {
                let line = N::Symbol::read_line(alloc, line)?;
                let mut buffer = vec![in alloc; NO_MARK; *room]?;
                let verdict = Verdict::from(shelf.mark(*place, &line, &mut buffer));
                Ok(writeln!(out, "{verdict} {}", Hex(&buffer))?)
            }
            ShelfCall::Split { order, split } => match order {
                RankedBy::Extent => split.answer(alloc, shelf, &Extent, sheet, out),
                RankedBy::TagOrder => split.answer(alloc, shelf, &TagOrder, sheet, out),
            },
            ShelfCall::PartOfLine { tag, line } => {
                let line = N::Symbol::read_line(alloc, line)?;
                print_part(sheet, *tag, &line, out)
            }
        }
    }
}

impl Split<'_> {
    // Splits by the ranking, and prints the whole trail buffer and the sheet.
    fn answer<N: Notation, R: Ranking, W: Write>(
        &self,
        alloc: Global,
        shelf: &Shelf<N>,
        ranking: &R,
        sheet: &mut Sheet,
        out: &mut W,
    ) -> Result<(), Failure>
    where
        N::Symbol: Symbol,
    {
        let line = N::Symbol::read_line(alloc, self.line)?;
        let mut trail = vec![in alloc; NO_TEST; self.room]?;
        let mut work = vec![in alloc; ranking.start(); self.work]?;
        let verdict = Verdict::from(shelf.split(
            self.place, &line, self.left, self.right, ranking, &mut trail, sheet, &mut work,
        ));
        Ok(writeln!(out, "{verdict} {} {}", Trail(&trail), Entries(sheet))?)
    }
}

// Prints the symbols of a tag's part of a line.
fn print_part<S: Symbol, W: Write>(
    sheet: &Sheet,
    tag: usize,
    line: &[S],
    out: &mut W,
) -> Result<(), Failure> {
    match part_of_line(sheet, tag, line) {
        Ok(Some(part)) => writeln!(out, "ok {}", Hex(part))?,
        Ok(None) => writeln!(out, "none")?,
        Err(refusal) => writeln!(out, "{}", Refused::from(refusal))?,
    }
    Ok(())
}
