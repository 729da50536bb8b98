// Reads a record into a buffer of marks and a sheet.
ghost use Rattle.std.specs.Prelude.{◌≡◌, ◌≤◌, length, take, replicate, None, Ok, Err, IfErr, MatchResult};
ghost use Rattle.cue.specs.Answers.{content_of, reading, ReadAfter, IsRecord, RoundTrip};
ghost use Rattle.cue.specs.Contents.{Fits, With};
ghost use Rattle.cue.specs.FirstFaults.{RefusedForFirst};

use crate::MOST_SYMBOLS;
use crate::cursor::{Cue, Cursor, MarkedRun};
use crate::refusal::{Fault, Refusal, check_line};
use sheet::Sheet;

// The marks and parts of a record, as far as it is read.
#[derive(Clone, Copy)]
struct Content {
    marks: [u8; MOST_SYMBOLS],
    sheet: Sheet,
}

impl Content {
    fn new() -> Content
        ensures unmarked { result.marks ≡ replicate 160 0 }
        ensures no_parts { result.sheet.entries ≡ replicate 8 None }
    {
        Content {
            marks: [0; MOST_SYMBOLS],
            sheet: Sheet::new(),
        }
    }

    // Marks a run, or fills the entry of a part.
    fn add(&mut self, cue: Cue)
        requires { Fits 160 cue }
        ensures { With cue self.old self.new }
    {
        match cue {
            Cue::Run(MarkedRun { left, right, .. }) => self.marks[left..right].fill(1),
            Cue::TagPart(one) => {
                let _ = self.sheet.fill(one.tag, Some(one.part));
            }
        }
    }
}

// What a record holds of a line of so many symbols.
fn content_of(bytes: &[u8], symbols: usize) -> Result<Content, Fault>
    requires { symbols ≤ 160 }
    ensures { MatchResult result (λ x. content_of symbols bytes.now ≡ Ok (take symbols x.marks, x.sheet.entries)) (λ fault. content_of symbols bytes.now ≡ Err fault) }
{
    let mut cursor = Cursor::new(bytes, symbols)?;
    let mut found = Content::new();
    while let Some(cue) = cursor.next()? {
        found.add(cue);
    }
    Ok(found)
}

/// Reads the record of a line of so many symbols: 1 or 0 for each symbol at the front of the buffer, and the parts on the sheet.
#[tactic(auto, using(crate::proofs::RoundTrip::round_trip))]
pub fn read(
    bytes: &[u8],
    symbols: usize,
    marks: &mut [u8],
    sheet: &mut Sheet,
) -> Result<(), Refusal>
    ensures marks_and_parts_or_refusal { ReadAfter (reading symbols (length marks.old) bytes.now) symbols marks.old marks.new sheet.old sheet.new result }
    ensures exactly_the_records { MatchResult result (λ _. IsRecord symbols bytes.now) (λ _. symbols ≤ 160 → symbols ≤ length marks.old → IsRecord symbols bytes.now → ⊥) }
    ensures refused_for_the_first_fault { IfErr result (λ refusal. RefusedForFirst symbols bytes.now refusal) }
    ensures round_trip { RoundTrip symbols bytes.now }
{
    check_line(symbols, marks.len())?;
    let found = content_of(bytes, symbols)?;
    marks[0..symbols].copy_from_slice(&found.marks[0..symbols]);
    *sheet = found.sheet;
    Ok(())
}
