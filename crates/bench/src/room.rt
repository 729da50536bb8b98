// Room for what a splitting by extent writes.
use crate::cases::Case;
use alphabet::letters::Letters;
use ranking::Extent;
use sheet::Sheet;
use shelf::Shelf;
use shelf::refusal::Refusal;

// A line has at most so many symbols. (`automaton` has the same number, and `bench` does not stand on it.)
pub const SYMBOLS: usize = 160;

// Splitting takes room for so many measures. (So says `splitting`, on which `bench` does not stand either.)
const MEASURES: usize = 128;

#[derive(Drop)]
pub struct Room {
    trail: [u8; SYMBOLS],
    sheet: Sheet,
    work: [u32; MEASURES],
}

impl Room {
    pub fn new() -> Room {
        Room {
            trail: [0; SYMBOLS],
            sheet: Sheet::new(),
            work: [0; MEASURES],
        }
    }

    // Splits the stretch between two ends of a case's line, by the pattern at a place.
    pub fn split(
        &mut self,
        shelf: &Shelf<Letters>,
        place: usize,
        case: &Case<'_>,
        ends: (usize, usize),
    ) -> Result<(), Refusal> {
        shelf.split(
            place,
            case.line,
            ends.0,
            ends.1,
            &Extent,
            &mut self.trail,
            &mut self.sheet,
            &mut self.work,
        )
    }

    // How many tags have a part.
    pub fn parts(&self) -> usize {
        let entries = self.sheet.entries();
        entries.iter().filter(|part| part.is_some()).count()
    }

    // The sum of the numbers of the trail's tests.
    pub fn sum(&self) -> usize {
        let tests = self.trail.iter();
        tests.fold(0usize, |sum, &test| sum.wrapping_add(usize::from(test)))
    }

    // A number that takes the whole trail and the parts: where the first tag's part ends, or where it has none the first test.
    pub fn number(&self) -> usize {
        let first = usize::from(self.trail[0]);
        self.sheet.part(1).map_or(first, |part| part.right)
    }
}
