// The answers about cue records.
use crate::cases::CueCall;
use crate::failure::Failure;
use crate::shelf_answers::NO_MARK;
use crate::symbols::Hex;
use crate::texts::{Entries, Verdict};
use cue::cursor::{MarkedRun, TaggedPart};
use cue::{Cue, Cursor, Fault};
use sheet::{Part, Sheet};
use std::alloc::Global;
use std::fmt;
use std::io::Write;

// What the bytes of a buffer of a record are before a call, so that it shows which of them were written.
const NO_RECORD: u8 = 165;

impl CueCall {
    // Makes the call, and prints the answer, with the whole buffer and the sheet where the call may write them.
    pub fn answer<W: Write>(
        &self,
        alloc: Global,
        sheet: &mut Sheet,
        out: &mut W,
    ) -> Result<(), Failure> {
        match self {
            CueCall::Write {
                symbols,
                room,
                marks,
            } => {
                let mut buffer = vec![in alloc; NO_RECORD; *room]?;
                let verdict = Verdict::from(cue::write(marks, sheet, *symbols, &mut buffer));
                writeln!(out, "{verdict} {}", Hex(&buffer))?;
            }
            CueCall::Read {
                symbols,
                room,
                record,
            } => {
                let mut marks = vec![in alloc; NO_MARK; *room]?;
                let verdict = Verdict::from(cue::read(record, *symbols, &mut marks, sheet));
                writeln!(out, "{verdict} {} {}", Hex(&marks), Entries(sheet))?;
            }
            CueCall::Walk { symbols, record } => {
                let walk = Walk {
                    symbols: *symbols,
                    record,
                };
                writeln!(out, "{walk}")?;
            }
        }
        Ok(())
    }
}

// The runs and parts of a record, as the cursor hands them out, and then the end or the fault.
#[derive(Clone, Copy)]
struct Walk<'a> {
    symbols: usize,
    record: &'a [u8],
}

impl fmt::Display for Walk<'_> {
    fn fmt<W: fmt::Write>(&self, f: &mut fmt::Formatter<W>) -> fmt::Result {
        let mut cursor = match Cursor::new(self.record, self.symbols) {
            Ok(cursor) => cursor,
            Err(fault) => return write_fault(f, fault),
        };
        loop {
            match cursor.next() {
                Ok(Some(cue)) => write_cue(f, cue)?,
                Ok(None) => return f.write_str("end"),
                Err(fault) => return write_fault(f, fault),
            }
        }
    }
}

// Writes a run or a part, by the offset of its first number and its ends in the line.
fn write_cue<W: fmt::Write>(f: &mut fmt::Formatter<W>, cue: Cue) -> fmt::Result {
    match cue {
        Cue::Run(
            MarkedRun {
                offset,
                left,
                right,
            },
        ) => write!(f, "run {offset} {left} {right};"),
        Cue::TagPart(
            TaggedPart {
                offset,
                tag,
                part: Part { left, right },
            },
        ) => write!(f, "part {offset} {tag} {left} {right};"),
    }
}

// Writes the number of a fault, and its offset.
fn write_fault<W: fmt::Write>(f: &mut fmt::Formatter<W>, fault: Fault) -> fmt::Result {
    write!(f, "fault {} at {}", fault.number(), fault.offset())
}
