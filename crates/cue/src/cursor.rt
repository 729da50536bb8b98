// A cue record, read in place: one run or part at a time.
ghost use Rattle.std.specs.Prelude.{◌≡◌, ◌<◌, ◌≤◌, IfOk, MatchResult, OnErr};
ghost use Rattle.cue.specs.Cues.{first_number, number_within, runs_to_come, parts_to_come, cues_of, bad};
ghost use Rattle.cue.specs.Cursors.{left, cues_left, Took, Yields};

use crate::refusal::Fault;
use sheet::{Part, TAGS};

// Set in a byte of a number behind which another follows.
const HIGH_BIT: u8 = 128;

/// A longest run of marked symbols, from `left` up to `right`, and the offset of its first number in the record.
#[derive(Clone, Copy, PartialEq, Debug)]
pub struct MarkedRun {
    pub offset: usize,
    pub left: usize,
    pub right: usize,
}

/// The part of a tag, and the offset of its first number in the record.
#[derive(Clone, Copy, PartialEq, Debug)]
pub struct TaggedPart {
    pub offset: usize,
    pub tag: usize,
    pub part: Part,
}

/// What a record holds.
#[derive(Clone, Copy, PartialEq, Debug)]
pub enum Cue {
    Run(MarkedRun),
    TagPart(TaggedPart),
}

// What comes next in a record.
#[derive(Clone, Copy)]
enum Stage {
    // So many runs, where the run before ended at `end`.
    Runs { to_come: usize, end: usize },
    // So many parts, with tags from `least` on.
    Parts { to_come: usize, least: usize },
}

/// A place in a record's bytes, which are those of a line of so many symbols.
#[derive(Clone, Copy)]
pub struct Cursor<'a> {
    bytes: &'a [u8],
    offset: usize,
    symbols: usize,
    stage: Stage,
}

impl<'a> Cursor<'a> {
    /// At the first run, once the count of runs is read.
    pub fn new(bytes: &'a [u8], symbols: usize) -> Result<Cursor<'a>, Fault>
        ensures { MatchResult result (λ c. cues_left c ≡ cues_of symbols bytes.now) (λ fault. cues_of symbols bytes.now ≡ bad fault) }
    {
        let mut cursor = Cursor {
            bytes,
            offset: 0,
            symbols,
            stage: Stage::Runs { to_come: 0, end: 0 },
        };
        let to_come = cursor.number()?;
        cursor.stage = Stage::Runs { to_come, end: 0 };
        Ok(cursor)
    }

    // The bytes that are not read yet.
    fn rest(&self) -> &'a [u8]
        ensures { result.now ≡ left self.now }
    {
        let read = self.offset.min(self.bytes.len());
        &self.bytes[read..]
    }

    // The number at the cursor.
    fn number(&mut self) -> Result<usize, Fault>
        ensures { Took (first_number self.old.offset (left self.old)) self.old self.new result }
    {
        let at = self.offset;
        match self.rest() {
            [byte, ..] if *byte < HIGH_BIT => {
                self.offset = at + 1;
                Ok(usize::from(*byte))
            }
            [byte, high @ 1..=127, ..] => {
                self.offset = at + 2;
                Ok(usize::from(*byte) - 128 + 128 * usize::from(*high))
            }
            [_, _, ..] => Err(Fault::LongNumber(at)),
            [_] => Err(Fault::CutShort(at + 1)),
            [] => Err(Fault::CutShort(at)),
        }
    }

    // The number at the cursor, which has to be from least to most.
    fn number_within(&mut self, least: usize, most: usize) -> Result<usize, Fault>
        ensures took { Took (number_within least most self.old.offset (left self.old)) self.old self.new result }
        ensures within { IfOk result (λ n. (least ≤ n) × (n ≤ most)) }
    {
        let at = self.offset;
        let n = self.number()?;
        if n < least || n > most {
            return Err(Fault::BrokenRule(at));
        }
        Ok(n)
    }

    // The run at the cursor, one of so many, where the run before ended there.
    fn run(&mut self, runs: usize, end: usize) -> Result<Option<Cue>, Fault>
        requires { 0 < runs }
        ensures { Yields (runs_to_come self.old.symbols runs end self.old.offset (left self.old)) self.new result }
    {
        let offset = self.offset;
        // A gap behind a run is at least 1.
        let gap = self.number_within(end.min(1), self.symbols.saturating_sub(end))?;
        let left = end + gap;
        let length = self.number_within(1, self.symbols.saturating_sub(left))?;
        let right = left + length;
        self.stage = Stage::Runs {
            to_come: runs - 1,
            end: right,
        };
        Ok(Some(Cue::Run(MarkedRun {
            offset,
            left,
            right,
        })))
    }

    // The part at the cursor, one of so many, with a tag from `least` on; nothing where none is left and the record ends.
    fn part(&mut self, parts: usize, least: usize) -> Result<Option<Cue>, Fault>
        ensures { Yields (parts_to_come self.old.symbols parts least self.old.offset (left self.old)) self.new result }
    {
        let offset = self.offset;
        if parts == 0 {
            if offset < self.bytes.len() {
                return Err(Fault::BrokenRule(offset));
            }
            self.stage = Stage::Parts { to_come: 0, least };
            return Ok(None);
        }
        let tag = self.number_within(least, TAGS)?;
        let left = self.number_within(0, self.symbols)?;
        let length = self.number_within(1, self.symbols - left)?;
        let right = left + length;
        self.stage = Stage::Parts {
            to_come: parts - 1,
            least: tag + 1,
        };
        let part = Part { left, right };
        Ok(Some(Cue::TagPart(TaggedPart { offset, tag, part })))
    }

    // The run or part at the cursor, or nothing at the end of a good record.
    fn advance(&mut self) -> Result<Option<Cue>, Fault>
        ensures { Yields (cues_left self.old) self.new result }
    {
        match self.stage {
            Stage::Runs { to_come: 0, .. } => {
                let parts = self.number()?;
                self.part(parts, 1)
            }
            Stage::Runs { to_come, end } => self.run(to_come, end),
            Stage::Parts { to_come, least } => self.part(to_come, least),
        }
    }

    /// The next run or part, or `None` at the end of a good record. At a fault the cursor stays where it is.
    pub fn next(&mut self) -> Result<Option<Cue>, Fault>
        ensures next_or_fault { Yields (cues_left self.old) self.new result }
        ensures stays_at_a_fault { OnErr result (self.new ≡ self.old) }
    {
        let mut ahead = *self;
        let cue = ahead.advance()?;
        *self = ahead;
        Ok(cue)
    }
}
