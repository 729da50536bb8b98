// What the cases are put to: the shelf, the sheet and the marker in use.
use crate::cases::Case;
use crate::failure::Failure;
use crate::symbols::Hex;
use crate::texts::Entries;
use alphabet::letters::Letters;
use alphabet::words::Words;
use marking::marker::Marker;
use sheet::{Part, Sheet};
use shelf::Shelf;
use std::alloc::Global;
use std::io::Write;
use text::buffer::Text;

#[derive(Drop)]
enum InUse {
    Letters(Shelf<Letters>),
    Words(Shelf<Words>),
}

#[derive(Drop)]
pub struct Desk {
    alloc: Global,
    shelf: InUse,
    sheet: Sheet,
    marker: Marker,
}

impl Desk {
    // With a new shelf of letters.
    pub fn new(alloc: Global) -> Desk {
        Desk {
            alloc,
            shelf: InUse::Letters(Shelf::new(Letters::new())),
            sheet: Sheet::new(),
            marker: Marker::new(),
        }
    }

    // Makes the call that a line asks for, and prints the answer.
    pub fn answer<W: Write>(&mut self, line: &[u8], out: &mut W) -> Result<(), Failure> {
        match Case::read(self.alloc, line)? {
            Case::Letters => self.begin(InUse::Letters(Shelf::new(Letters::new())), out),
            Case::Words => self.begin(InUse::Words(Shelf::new(Words::new())), out),
            Case::Shelf(call) => match &mut self.shelf {
                InUse::Letters(shelf) => call.answer(self.alloc, shelf, &mut self.sheet, out),
                InUse::Words(shelf) => call.answer(self.alloc, shelf, &mut self.sheet, out),
            },
            Case::Fill { tag, part } => self.fill(tag, part, out),
            Case::Cue(call) => call.answer(self.alloc, &mut self.sheet, out),
            Case::Marker => {
                self.marker = Marker::new();
                Ok(writeln!(out, "new")?)
            }
            Case::Order(order) => self.order(&order, out),
        }
    }

    // Puts a new shelf and a new sheet in use.
    fn begin<W: Write>(&mut self, shelf: InUse, out: &mut W) -> Result<(), Failure> {
        self.shelf = shelf;
        self.sheet = Sheet::new();
        Ok(writeln!(out, "new")?)
    }

    // Fills an entry of the sheet, if there is such a tag, and prints the sheet.
    fn fill<W: Write>(
        &mut self,
        tag: usize,
        part: Option<Part>,
        out: &mut W,
    ) -> Result<(), Failure> {
        let word = if self.sheet.fill(tag, part) {
            "ok"
        } else {
            "no"
        };
        let entries = Entries(&self.sheet);
        Ok(writeln!(out, "{word} {entries}")?)
    }

    // Puts an order to the marker, and prints what the program `mark` would print for it.
    fn order<W: Write>(&mut self, order: &[u8], out: &mut W) -> Result<(), Failure> {
        let mut text = Text::new();
        self.marker.answer(order, &mut text);
        let printed = Hex(text.bytes());
        Ok(writeln!(out, "{printed}")?)
    }
}
