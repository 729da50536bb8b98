//! Position automata, and the stretches of a line that they read.
//!
//! An automaton has up to 64 positions, each with a test that a symbol passes or not. It reads a word where a walk over its positions
//! has, one by one, positions whose tests the word's symbols pass. Of a line it is told only that, as `Rows`: for each symbol the set
//! of the positions that admit it.
#![tactic(auto)]

pub mod machine;
pub mod positions;
pub mod rows;
mod sweep;

pub use machine::Automaton;
pub use positions::Positions;
pub use rows::Rows;

/// An automaton has so many positions, and a set of positions is a number of so many bits.
pub const POSITIONS: usize = 64;

/// A line has at most so many symbols.
// 160 stands here and again in `cue`, which stands on nothing of the automaton, and would have to for a number.
pub const MOST_SYMBOLS: usize = 160;

#[cfg(test)]
mod tests {
    use super::*;

    // A `b` and then any number of them: position 0 is the first `b`, position 1 each other.
    fn some_bs() -> Automaton {
        let mut follow = [0; 64];
        follow[0] = 2;
        follow[1] = 2;
        Automaton {
            first: 1,
            last: 3,
            follow,
            nullable: false,
        }
    }

    fn rows_of(text: &[u8]) -> Rows {
        let mut rows = Rows::new();
        for c in text {
            let _ = rows.push(if *c == b'b' { 3 } else { 0 });
        }
        rows
    }

    #[test]
    fn positions_from_the_lowest_up(rt: HostRuntime) {
        let mut positions = Positions::of(1 << 63 | 0b1010);
        assert_eq!(rt; positions.next(), Some(1));
        assert_eq!(rt; positions.next(), Some(3));
        assert_eq!(rt; positions.next(), Some(63));
        assert_eq!(rt; positions.next(), None);
        assert_eq!(rt; positions.next(), None);
    }

    #[test]
    fn longest_stretch_of_bs(rt: HostRuntime) {
        let rows = rows_of(b"abbabbbab");
        assert_eq!(rt; rows.len(), 9);
        assert_eq!(rt; some_bs().longest(&rows), Some((4, 7)));
        assert_eq!(rt; some_bs().longest(&rows_of(b"aaa")), None);
    }

    #[test]
    fn marks_of_bs(rt: HostRuntime) {
        let rows = rows_of(b"abbabbbab");
        let mut marks = [7; 10];
        assert_eq!(rt; some_bs().mark(&rows, &mut marks), Some(6));
        assert_eq!(rt; marks, [0, 1, 1, 0, 1, 1, 1, 0, 1, 7]);
        assert_eq!(rt; some_bs().mark(&rows, &mut [0; 8]), None);
    }
}
