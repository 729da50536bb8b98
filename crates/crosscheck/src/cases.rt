// The cases, and how they are written: fields with one space between them, numbers in decimal digits.
use crate::failure::Failure;
use crate::symbols::read_bytes;
use sheet::Part;
use std::alloc::Global;
use std::str::from_utf8;

// What one line asks for.
#[derive(Drop)]
pub enum Case<'a> {
    // A new shelf of letters, and a new sheet.
    Letters,
    // A new shelf of words, and a new sheet.
    Words,
    // A call that goes by the shelf in use.
    Shelf(ShelfCall<'a>),
    // An entry of the sheet is filled.
    Fill { tag: usize, part: Option<Part> },
    // A call on cue records.
    Cue(CueCall),
    // A new marker.
    Marker,
    // An order to the marker.
    Order(Vec<u8>),
}

// A call that goes by the notation of the shelf in use. A line is kept as its digits: the notation tells which symbols they are.
#[derive(Drop)]
pub enum ShelfCall<'a> {
    File {
        place: usize,
        pattern: Vec<u8>,
    },
    Withdraw {
        place: usize,
    },
    Longest {
        place: usize,
        line: &'a str,
    },
    Mark {
        place: usize,
        room: usize,
        line: &'a str,
    },
    Split {
        order: RankedBy,
        split: Split<'a>,
    },
    PartOfLine {
        tag: usize,
        line: &'a str,
    },
}

// The rankings that come with the shelf.
#[derive(Clone, Copy)]
pub enum RankedBy {
    Extent,
    TagOrder,
}

// What a splitting is given beside its ranking: the ends of the stretch, and room for so many tests and measures.
#[derive(Clone, Copy)]
pub struct Split<'a> {
    pub place: usize,
    pub left: usize,
    pub right: usize,
    pub room: usize,
    pub work: usize,
    pub line: &'a str,
}

// A call on cue records, of a line of so many symbols.
#[derive(Drop)]
pub enum CueCall {
    Write {
        symbols: usize,
        room: usize,
        marks: Vec<u8>,
    },
    Read {
        symbols: usize,
        room: usize,
        record: Vec<u8>,
    },
    Walk {
        symbols: usize,
        record: Vec<u8>,
    },
}

// The number that decimal digits tell.
fn number(digits: &str) -> Result<usize, Failure> {
    digits.parse().map_err(|_| Failure::NoCase)
}

impl<'a> Case<'a> {
    // The case that a line tells.
    pub fn read(alloc: Global, line: &'a [u8]) -> Result<Case<'a>, Failure> {
        let text = from_utf8(line).map_err(|_| Failure::NoCase)?;
        let fields: Vec<&str> = text.split(' ').collect(alloc)?;
        match fields.as_slice() {
            ["letters"] => Ok(Case::Letters),
            ["words"] => Ok(Case::Words),
            ["fill", tag, "none"] => Ok(Case::Fill {
                tag: number(tag)?,
                part: None,
            }),
            ["fill", tag, left, right] => Ok(Case::Fill {
                tag: number(tag)?,
                part: Some(Part {
                    left: number(left)?,
                    right: number(right)?,
                }),
            }),
            ["marker"] => Ok(Case::Marker),
            ["order", order] => Ok(Case::Order(read_bytes(alloc, order)?)),
            ["write" | "read" | "cues", ..] => Ok(Case::Cue(CueCall::read(alloc, &fields)?)),
            _ => Ok(Case::Shelf(ShelfCall::read(alloc, &fields)?)),
        }
    }
}

impl<'a> ShelfCall<'a> {
    // The call that the fields of a case tell.
    fn read(alloc: Global, fields: &[&'a str]) -> Result<ShelfCall<'a>, Failure> {
        match fields {
            ["file", place, pattern] => Ok(ShelfCall::File {
                place: number(place)?,
                pattern: read_bytes(alloc, pattern)?,
            }),
            ["withdraw", place] => Ok(ShelfCall::Withdraw {
                place: number(place)?,
            }),
            ["longest", place, line] => Ok(ShelfCall::Longest {
                place: number(place)?,
                line,
            }),
            ["mark", place, room, line] => Ok(ShelfCall::Mark {
                place: number(place)?,
                room: number(room)?,
                line,
            }),
            ["split", place, ranking, rest @ ..] => Ok(ShelfCall::Split {
                order: RankedBy::read(ranking)?,
                split: Split::read(place, rest)?,
            }),
            ["part", tag, line] => Ok(ShelfCall::PartOfLine {
                tag: number(tag)?,
                line,
            }),
            _ => Err(Failure::NoCase),
        }
    }
}

impl RankedBy {
    // The ranking of a name.
    fn read(name: &str) -> Result<RankedBy, Failure> {
        match name {
            "extent" => Ok(RankedBy::Extent),
            "order" => Ok(RankedBy::TagOrder),
            _ => Err(Failure::NoCase),
        }
    }
}

impl<'a> Split<'a> {
    // At a place, with what the fields behind the ranking tell.
    fn read(place: &str, fields: &[&'a str]) -> Result<Split<'a>, Failure> {
        match fields {
            [left, right, room, work, line] => Ok(Split {
                place: number(place)?,
                left: number(left)?,
                right: number(right)?,
                room: number(room)?,
                work: number(work)?,
                line,
            }),
            _ => Err(Failure::NoCase),
        }
    }
}

impl CueCall {
    // The call that the fields of a case tell.
    fn read(alloc: Global, fields: &[&str]) -> Result<CueCall, Failure> {
        match fields {
            ["write", symbols, room, marks] => Ok(CueCall::Write {
                symbols: number(symbols)?,
                room: number(room)?,
                marks: read_bytes(alloc, marks)?,
            }),
            ["read", symbols, room, record] => Ok(CueCall::Read {
                symbols: number(symbols)?,
                room: number(room)?,
                record: read_bytes(alloc, record)?,
            }),
            ["cues", symbols, record] => Ok(CueCall::Walk {
                symbols: number(symbols)?,
                record: read_bytes(alloc, record)?,
            }),
            _ => Err(Failure::NoCase),
        }
    }
}
