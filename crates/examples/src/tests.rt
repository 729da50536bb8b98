use crate::notations::{Downward, Nothing};
use alphabet::letters::Letters;
use alphabet::words::Words;
use alphabet::{Alphabet, Cause, Notation};
use pattern::fault::{Fault, Misread};
use ranking::{Extent, TagOrder};
use sheet::{Part, Sheet};
use shelf::refusal::Refusal;
use shelf::{Shelf, part_of_line};
use std::process::Abort;

// What filing a pattern of letters on a bare shelf answers.
fn filed(bytes: &[u8]) -> Result<(usize, usize), Refusal> {
    let mut shelf = Shelf::new(Letters::new());
    shelf.file(0, bytes)
}

fn check_filed(rt: &impl Abort, bytes: &[u8], tests: usize, tags: usize) {
    assert_eq!(rt; filed(bytes), Ok((tests, tags)));
}

fn check_fault(rt: &impl Abort, bytes: &[u8], fault: Fault) {
    assert_eq!(rt; filed(bytes), Err(Refusal::Unlawful(fault)));
}

#[test]
fn lawful_patterns(rt: HostRuntime) {
    check_filed(&rt, b"{[A-Z]+}: {.*}", 4, 2);
    check_filed(&rt, b"a**", 1, 0);
    check_filed(&rt, b"((a|ab)(b|ba)*)(a*b)*", 8, 0);
    check_filed(&rt, b"{a}?|{b}", 2, 2);
    check_filed(&rt, b"[(-)]\\*", 2, 0);
    check_filed(&rt, &[b'a'; 64], 64, 0);
    check_filed(&rt, b"((((((((a))))))))", 1, 0);
}

#[test]
fn faults(rt: HostRuntime) {
    check_fault(&rt, b"", Fault::MissingUnit(0));
    check_fault(&rt, b"*[", Fault::MissingUnit(0));
    check_fault(&rt, b"a|", Fault::MissingUnit(2));
    check_fault(&rt, b"()", Fault::MissingUnit(1));
    check_fault(&rt, b"a)[", Fault::LooseBracket(1));
    check_fault(&rt, b"(a}", Fault::LooseBracket(2));
    check_fault(&rt, b"{a", Fault::LooseBracket(2));
    check_fault(&rt, &[b'('; 9], Fault::TooDeep(8));
    check_fault(&rt, &[b'a'; 65], Fault::TooManyTests(64));
    check_fault(&rt, b"{a}{a}{a}{a}{a}{a}{a}{a}{a}", Fault::TooManyTags(24));
    check_fault(&rt, b"{a}+", Fault::RepeatedTag(3));
    check_fault(&rt, &[b'a'; 121], Fault::TooLong);
}

#[test]
fn the_first_fault_is_told(rt: HostRuntime) {
    // a 65th test that is bad
    let mut bytes = [b'a'; 65];
    bytes[64] = b'[';
    let cut = Misread {
        cause: Cause::CutShort,
        offset: 64,
    };
    check_fault(&rt, &bytes, Fault::BadTest(cut));
    // eight closed tags, then eight open groups and a ninth tag
    check_fault(
        &rt,
        b"{a}{a}{a}{a}{a}{a}{a}{a}(((((((({",
        Fault::TooDeep(32),
    );
    let swapped = Misread {
        cause: Cause::OutOfRange,
        offset: 1,
    };
    check_fault(&rt, b"a[z-a])", Fault::BadTest(swapped));
}

#[test]
fn places(rt: HostRuntime) {
    let mut shelf = Shelf::new(Letters::new());
    assert_eq!(rt; shelf.withdraw(3), Err(Refusal::PlaceBare));
    assert_eq!(rt; shelf.file(3, b"a"), Ok((1, 0)));
    assert_eq!(rt; shelf.file(3, b"("), Err(Refusal::PlaceTaken));
    assert_eq!(rt; shelf.file(10, b"a"), Err(Refusal::NoSuchPlace));
    assert_eq!(rt; shelf.withdraw(usize::MAX), Err(Refusal::NoSuchPlace));
    assert_eq!(rt; shelf.file(9, b"{a}b"), Ok((2, 1)));
    assert_eq!(rt; shelf.withdraw(3), Ok(()));
    assert_eq!(rt; shelf.withdraw(3), Err(Refusal::PlaceBare));
    assert_eq!(rt; shelf.file(3, b"ab"), Ok((2, 0)));
}

#[test]
fn any_lawful_notation(rt: HostRuntime) {
    let mut bare = Shelf::new(Nothing);
    assert_eq!(rt; bare.file(0, b"[\\"), Ok((2, 0)));
    let mut down = Shelf::new(Downward { asked: 0 });
    assert_eq!(rt;
        down.file(9, b"{[}+"),
        Err(Refusal::Unlawful(Fault::RepeatedTag(3)))
    );
    assert_eq!(rt; down.file(9, b"{[}"), Ok((1, 1)));
    let mut words = Shelf::new(Words::new());
    assert_eq!(rt; words.file(0, b"#3;@7;*"), Ok((2, 0)));
}

// The longest stretch and the marks of a line of letters, by a pattern.
fn reported(
    pattern: &[u8],
    line: &[u8],
    marks: &mut [u8],
) -> (Result<(usize, usize), Refusal>, Result<usize, Refusal>) {
    let mut shelf = Shelf::new(Letters::new());
    let _ = shelf.file(4, pattern);
    (shelf.longest(4, line), shelf.mark(4, line, marks))
}

#[test]
fn longest_and_marks(rt: HostRuntime) {
    let mut marks = [7; 12];
    assert_eq!(rt;
        reported(b"bb*", b"abbabbbab", &mut marks),
        (Ok((4, 7)), Ok(6))
    );
    assert!(rt; marks == [0, 1, 1, 0, 1, 1, 1, 0, 1, 7, 7, 7]);
    assert_eq!(rt; reported(b"aba", b"ababa", &mut marks), (Ok((0, 3)), Ok(5)));
    assert_eq!(rt; reported(b"a*", b"bb", &mut marks), (Ok((0, 0)), Ok(0)));
    assert_eq!(rt;
        reported(b"a", b"", &mut marks),
        (Err(Refusal::NoMatch), Ok(0))
    );
    assert_eq!(rt;
        reported(b"(a|ab)(c|bcd)(d*)", b"abcd", &mut marks),
        (Ok((0, 4)), Ok(4))
    );
}

#[test]
fn reports_turned_down(rt: HostRuntime) {
    let mut shelf = Shelf::new(Letters::new());
    let mut marks = [7; 160];
    assert_eq!(rt; shelf.longest(10, &[b'a'; 161]), Err(Refusal::NoSuchPlace));
    assert_eq!(rt; shelf.longest(0, &[b'a'; 161]), Err(Refusal::PlaceBare));
    assert_eq!(rt; shelf.file(0, b"a"), Ok((1, 0)));
    assert_eq!(rt; shelf.longest(0, &[b'a'; 161]), Err(Refusal::LineTooLong));
    assert_eq!(rt;
        shelf.mark(0, &[b'a'; 161], &mut marks[0..1]),
        Err(Refusal::LineTooLong)
    );
    assert_eq!(rt;
        shelf.mark(0, b"aa", &mut marks[0..1]),
        Err(Refusal::BufferTooShort)
    );
    assert!(rt; marks == [7; 160]);
    assert_eq!(rt; shelf.longest(0, &[b'a'; 160]), Ok((0, 1)));
    assert_eq!(rt; shelf.mark(0, &[b'a'; 160], &mut marks), Ok(160));
}

#[test]
fn lines_of_any_symbols(rt: HostRuntime) {
    let mut words = Shelf::new(Words::new());
    assert_eq!(rt; words.file(0, b"#3;@7;*"), Ok((2, 0)));
    assert_eq!(rt; words.longest(0, &[196609, 131079, 327687]), Ok((0, 3)));
    let mut nothing = Shelf::new(Nothing);
    assert_eq!(rt; nothing.file(0, b"a"), Ok((1, 0)));
    assert_eq!(rt; nothing.longest(0, &[true, false]), Err(Refusal::NoMatch));
    let mut down = Shelf::new(Downward { asked: 0 });
    assert_eq!(rt; down.file(0, b"[+"), Ok((1, 0)));
    assert_eq!(rt; down.longest(0, &[91, 91, 92]), Ok((0, 2)));
}

fn part(left: usize, right: usize) -> Option<Part> {
    Some(Part { left, right })
}

// What a splitting by extent answers, with work for so many measures.
fn split_with(
    shelf: &Shelf<Letters>,
    place: usize,
    line: &[u8],
    ends: (usize, usize),
    trail: &mut [u8],
    sheet: &mut Sheet,
    measures: usize,
) -> Result<(), Refusal> {
    let mut work = [7; 128];
    let room = &mut work[..measures.min(128)];
    shelf.split(place, line, ends.0, ends.1, &Extent, trail, sheet, room)
}

#[test]
fn rankings_differ(rt: HostRuntime) {
    let mut shelf = Shelf::new(Letters::new());
    assert_eq!(rt; shelf.file(7, b"{a}bc|a{b{c}}"), Ok((6, 3)));
    let mut trail = [9; 5];
    let mut sheet = Sheet::new();
    assert_eq!(rt;
        split_with(&shelf, 7, b"abc", (0, 3), &mut trail, &mut sheet, 128),
        Ok(())
    );
    assert_eq!(rt; trail, [4, 5, 6, 9, 9]);
    assert_eq!(rt; sheet.part(1), None);
    assert_eq!(rt; sheet.part(2), part(1, 3));
    assert_eq!(rt; sheet.part(3), part(2, 3));
    let mut lengths = [[0; 8]; 128];
    assert_eq!(rt;
        shelf.split(
            7,
            b"abc",
            0,
            3,
            &TagOrder,
            &mut trail,
            &mut sheet,
            &mut lengths
        ),
        Ok(())
    );
    assert_eq!(rt; trail, [1, 2, 3, 9, 9]);
    assert_eq!(rt; sheet.part(1), part(0, 1));
    assert_eq!(rt; sheet.part(2), None);
    assert_eq!(rt; sheet.part(3), None);
}

// The trail of a whole line of two letters by extent, and the parts of the first two tags.
fn split_two(pattern: &[u8], line: &[u8], trail: &mut [u8; 2]) -> (Option<Part>, Option<Part>) {
    let shelf = shelf_with(pattern);
    let mut sheet = Sheet::new();
    let mut work = [0; 128];
    let _ = shelf.split(0, line, 0, 2, &Extent, trail, &mut sheet, &mut work);
    (sheet.part(1), sheet.part(2))
}

#[test]
fn ties_and_empty_tags(rt: HostRuntime) {
    let mut trail = [9; 2];
    assert_eq!(rt;
        split_two(b"a{b}|{a}b", b"ab", &mut trail),
        (part(1, 2), None)
    );
    assert_eq!(rt; trail, [1, 2]);
    assert_eq!(rt; split_two(b"a{b*}c", b"ac", &mut trail), (None, None));
    assert_eq!(rt; trail, [1, 3]);
}

#[test]
fn a_stretch_inside_a_line(rt: HostRuntime) {
    let mut shelf = Shelf::new(Letters::new());
    assert_eq!(rt; shelf.file(3, b"{[A-Z]+}: {.*}"), Ok((4, 2)));
    let line = b"hm ANNA: good evening";
    let mut trail = [9; 18];
    let mut sheet = Sheet::new();
    let mut work = [0; 128];
    assert_eq!(rt;
        shelf.split(3, line, 3, 21, &Extent, &mut trail, &mut sheet, &mut work),
        Ok(())
    );
    assert!(rt; trail == [1, 1, 1, 1, 2, 3, 4, 4, 4, 4, 4, 4, 4, 4, 4, 4, 4, 4]);
    assert_eq!(rt; part_of_line(&sheet, 1, line), Ok(Some(&b"ANNA"[..])));
    assert_eq!(rt;
        part_of_line(&sheet, 2, line),
        Ok(Some(&b"good evening"[..]))
    );
    assert_eq!(rt; part_of_line(&sheet, 3, line), Ok(None));
    assert_eq!(rt; part_of_line(&sheet, 0, line), Ok(None));
    assert_eq!(rt; part_of_line(&sheet, 9, line), Ok(None));
    assert_eq!(rt;
        part_of_line(&sheet, 1, b"hm ANN"),
        Err(Refusal::EndsMisfit)
    );
}

// All calls that one line takes, one after another.
#[test]
fn from_a_pattern_to_a_record(rt: HostRuntime) {
    let mut shelf = Shelf::new(Letters::new());
    let line = b"hm ANNA: good evening";
    assert_eq!(rt; shelf.file(3, b"{[A-Z]+}: {.*}"), Ok((4, 2)));
    assert_eq!(rt; shelf.longest(3, line), Ok((3, 21)));
    let (mut marks, mut trail) = ([0; 160], [0; 160]);
    assert_eq!(rt; shelf.mark(3, line, &mut marks), Ok(18));
    let (mut sheet, mut work) = (Sheet::new(), [0; 128]);
    assert_eq!(rt;
        shelf.split(3, line, 3, 21, &Extent, &mut trail, &mut sheet, &mut work),
        Ok(())
    );
    assert_eq!(rt; part_of_line(&sheet, 1, line), Ok(Some(&b"ANNA"[..])));
    let mut record = [0; 16];
    assert_eq!(rt; cue::write(&marks, &sheet, line.len(), &mut record), Ok(10));
    assert_eq!(rt; record, [1, 3, 18, 2, 1, 3, 4, 2, 9, 12, 0, 0, 0, 0, 0, 0]);
    assert_eq!(rt; shelf.withdraw(3), Ok(()));
}

#[test]
fn parts_that_misfit(rt: HostRuntime) {
    let mut sheet = Sheet::new();
    sheet.fill(4, part(2, 1));
    sheet.fill(5, part(2, 2));
    sheet.fill(6, part(0, usize::MAX));
    assert_eq!(rt; part_of_line(&sheet, 4, b"abc"), Err(Refusal::EndsMisfit));
    assert_eq!(rt; part_of_line(&sheet, 5, b"abc"), Ok(Some(&b""[..])));
    assert_eq!(rt; part_of_line(&sheet, 6, b"abc"), Err(Refusal::EndsMisfit));
}

// A shelf with a pattern of letters at place 0.
fn shelf_with(pattern: &[u8]) -> Shelf<Letters> {
    let mut shelf = Shelf::new(Letters::new());
    let _ = shelf.file(0, pattern);
    shelf
}

// A sheet that no splitting leaves: the part of tag 8 is reversed.
fn odd_sheet() -> Sheet {
    let mut sheet = Sheet::new();
    sheet.fill(8, part(5, 3));
    sheet
}

// Each refusal comes before those that follow, and leaves trail and sheet as they were.
#[test]
fn splittings_turned_down(rt: HostRuntime) {
    let shelf = shelf_with(b"{a}a");
    let mut sheet = odd_sheet();
    let before = sheet;
    let mut trail = [9; 4];
    let long = &[b'b'; 161];
    assert_eq!(rt;
        split_with(&shelf, 10, long, (2, 1), &mut trail[..0], &mut sheet, 0),
        Err(Refusal::NoSuchPlace)
    );
    assert_eq!(rt;
        split_with(&shelf, 1, long, (2, 1), &mut trail[..0], &mut sheet, 0),
        Err(Refusal::PlaceBare)
    );
    assert_eq!(rt;
        split_with(&shelf, 0, long, (2, 1), &mut trail[..0], &mut sheet, 0),
        Err(Refusal::LineTooLong)
    );
    assert_eq!(rt;
        split_with(&shelf, 0, b"bbb", (2, 1), &mut trail[..0], &mut sheet, 0),
        Err(Refusal::EndsMisfit)
    );
    assert_eq!(rt;
        split_with(&shelf, 0, b"bbb", (1, 4), &mut trail[..0], &mut sheet, 0),
        Err(Refusal::EndsMisfit)
    );
    assert_eq!(rt; trail, [9; 4]);
    assert_eq!(rt; sheet, before);
}

#[test]
fn no_room_and_no_match(rt: HostRuntime) {
    let shelf = shelf_with(b"{a}a");
    let mut sheet = odd_sheet();
    let before = sheet;
    let mut trail = [9; 4];
    assert_eq!(rt;
        split_with(&shelf, 0, b"bbb", (1, 3), &mut trail[..1], &mut sheet, 128),
        Err(Refusal::BufferTooShort)
    );
    assert_eq!(rt;
        split_with(&shelf, 0, b"bbb", (1, 3), &mut trail, &mut sheet, 127),
        Err(Refusal::BufferTooShort)
    );
    assert_eq!(rt;
        split_with(&shelf, 0, b"bbb", (1, 3), &mut trail, &mut sheet, 128),
        Err(Refusal::NoMatch)
    );
    assert_eq!(rt;
        split_with(&shelf, 0, b"aab", (0, 0), &mut trail[..0], &mut sheet, 128),
        Err(Refusal::NoMatch)
    );
    assert_eq!(rt; trail, [9; 4]);
    assert_eq!(rt; sheet, before);
    assert_eq!(rt;
        split_with(&shelf, 0, b"baa", (1, 3), &mut trail, &mut sheet, 128),
        Ok(())
    );
    assert_eq!(rt; trail, [1, 2, 9, 9]);
    assert_eq!(rt; sheet.part(1), part(1, 2));
    assert_eq!(rt; sheet.part(8), None);
}
