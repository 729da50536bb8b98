// The program `mark` on a case: the whole order `?`.
use crate::cases::Case;
use crate::timing::PLACES;
use marking::marker::Marker;
use text::buffer::Text;

// A marker, with orders for it and the text of its last answer.
#[derive(Drop)]
pub struct Orders {
    marker: Marker,
    asks: [Text; PLACES],
    answer: Text,
}

// An order at a place: its sign, the place, and what it is about.
fn order(sign: u8, place: usize, about: &[u8]) -> Text {
    let mut order = Text::new();
    order.byte(sign);
    order.number(place as u64);
    order.byte(b' ');
    order.text(about);
    order
}

impl Orders {
    // Files the pattern of a case at each place.
    pub fn new(case: &Case<'_>) -> Orders {
        let mut marker = Marker::new();
        let mut answer = Text::new();
        for place in 0..PLACES {
            marker.answer(order(b'+', place, case.pattern).bytes(), &mut answer);
        }
        Orders {
            marker,
            asks: [order(b'?', 0, case.line), order(b'?', 1, case.line)],
            answer,
        }
    }

    // Asks what the pattern at a place reads of the case's line: what is printed.
    pub fn ask(&mut self, place: usize) -> &[u8] {
        if let Some(ask) = self.asks.get(place) {
            self.marker.answer(ask.bytes(), &mut self.answer);
        }
        self.answer.bytes()
    }

    // The sum of the bytes that are printed for the pattern at place 0.
    pub fn sum(&mut self) -> usize {
        let printed = self.ask(0).iter();
        printed.fold(0usize, |sum, &byte| sum.wrapping_add(usize::from(byte)))
    }
}
