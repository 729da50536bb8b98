//! From a trail of tests to the parts of the line that fall to the tags.
#![tactic(auto)]

ghost use Rattle.std.specs.Prelude.{◌≡◌, ◌+◌, ◌-◌, ◌^◌, ◌<◌, ◌≤◌};
ghost use Rattle.std.specs.Option.{option_map_or};
ghost use Rattle.automaton.specs.Bit.{bit};
ghost use Rattle.parts.specs.Parts.{PartAlong, PartsAlong, tags_of, is_in};

use automaton::POSITIONS;
use sheet::{Part, Sheet, TAGS};

// The set of a test's tags, or none where there is no such test.
fn tags_of(sets: &[u8; POSITIONS], test: u8) -> u8
    ensures { result ≡ tags_of sets.now test }
{
    match test as usize {
        number @ 1..=POSITIONS => sets[number - 1],
        _ => 0,
    }
}

// The part with one symbol more, the one at a place behind it.
fn with_symbol(part: Option<Part>, place: usize) -> Part
    requires { place < 2 ^ 64 - 1 }
    ensures { result ≡ record { left = option_map_or (λ p. p.left) part place; right = place + 1 } }
{
    Part {
        left: part.map_or(place, |part| part.left),
        right: place + 1,
    }
}

// The part of one tag.
fn part_along(trail: &[u8], sets: &[u8; POSITIONS], left: u32, tag: u8) -> Option<Part>
    requires low { 1 ≤ tag }
    requires high { tag ≤ 8 }
    ensures { PartAlong (is_in sets.now tag) left trail.now result }
{
    let mut part = None;
    for (i, test) in trail.iter().enumerate() {
        if (tags_of(sets, *test) >> (tag - 1)) % 2 == 1 {
            part = Some(with_symbol(part, left as usize + i));
        }
    }
    part
}

/// The part of each tag along a trail, which has the number of a test for each symbol from `left` on: from the first symbol
/// whose test is inside the tag to the last. A set has bit t - 1 for the tag t, and the set of the test p stands at p - 1;
/// a number that is not from 1 to 64 has no tags.
// `left` is a u32, so that no place in the line is past the largest number.
pub fn parts_along(trail: &[u8], sets: &[u8; POSITIONS], left: u32) -> Sheet
    ensures { PartsAlong (is_in sets.now) left trail.now result.entries }
{
    let mut sheet = Sheet::new();
    for tag in 1..=TAGS {
        sheet.fill(tag, part_along(trail, sets, left, tag as u8));
    }
    sheet
}

#[cfg(test)]
mod tests {
    use super::*;

    // Test 1 has the tag 1, test 2 the tags 1 and 2, test 3 none, and test 64 the tag 8.
    fn sets() -> [u8; POSITIONS] {
        let mut sets = [0; POSITIONS];
        sets[0] = 0b1;
        sets[1] = 0b11;
        sets[63] = 0b1000_0000;
        sets
    }

    #[test]
    fn from_the_first_symbol_to_the_last(rt: HostRuntime) {
        let sheet = parts_along(&[3, 1, 2, 3, 1, 64], &sets(), 10);
        assert_eq!(rt;
            sheet.part(1),
            Some(Part {
                left: 11,
                right: 15
            })
        );
        assert_eq!(rt;
            sheet.part(2),
            Some(Part {
                left: 12,
                right: 13
            })
        );
        assert_eq!(rt; sheet.part(3), None);
        assert_eq!(rt;
            sheet.part(8),
            Some(Part {
                left: 15,
                right: 16
            })
        );
    }

    #[test]
    fn no_symbols_and_no_tests(rt: HostRuntime) {
        assert_eq!(rt; parts_along(&[], &sets(), 7), Sheet::new());
        assert_eq!(rt; parts_along(&[0, 65, 255], &sets(), 7), Sheet::new());
    }
}
