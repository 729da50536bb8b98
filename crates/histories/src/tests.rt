use super::{Answer, Call, Marking, Splitting, run, run_mixed};
use alphabet::Notation;
use alphabet::letters::Letters;
use alphabet::words::Words;
use either::{Left, Right};
use ranking::{Extent, Ranking, TagOrder};
use sheet::{Part, Sheet};
use shelf::refusal::Refusal;
use std::alloc::AllocError;
use std::process::Abort;

// Runs the calls on a new shelf, and compares what they are answered.
fn check<N: Notation + Drop, R: Ranking>(
    rt: &impl Abort,
    notation: N,
    calls: &mut [Call<'_, N::Symbol, R, R::Measure>],
    expected: &[Answer],
) {
    let mut answers = [Answer::Withdrawn(Ok(())); 8];
    assert_eq!(rt; calls.len(), expected.len());
    let (_shelf, done) = run(notation, calls, &mut answers);
    assert_eq!(rt; done, Ok(()));
    for (answer, expected) in answers.iter().zip(expected) {
        assert_eq!(rt; *answer, *expected);
    }
}

// A splitting of a whole line, by the pattern at place 0.
fn split_whole<'a, R, M>(
    line: &'a [u8],
    ranking: &'a R,
    trail: &'a mut [u8],
    sheet: &'a mut Sheet,
    work: &'a mut [M],
) -> Call<'a, u8, R, M> {
    Call::Split(Splitting {
        place: 0,
        line,
        left: 0,
        right: line.len(),
        ranking,
        trail,
        sheet,
        work,
    })
}

#[test]
fn filed_and_withdrawn(rt: HostRuntime) -> Result<(), AllocError> {
    let mut calls: Vec<Call<u8, Extent, u32>> = Vec::new(rt.alloc());
    calls.push(Call::File {
        place: 3,
        bytes: b"bb*",
    })?;
    calls.push(Call::File {
        place: 3,
        bytes: b"a",
    })?;
    calls.push(Call::Withdraw { place: 3 })?;
    calls.push(Call::Withdraw { place: 3 })?;
    calls.push(Call::Longest {
        place: 3,
        line: b"b",
    })?;
    calls.push(Call::Withdraw { place: 10 })?;
    let expected = [
        Answer::Filed(Ok((2, 0))),
        Answer::Filed(Err(Refusal::PlaceTaken)),
        Answer::Withdrawn(Ok(())),
        Answer::Withdrawn(Err(Refusal::PlaceBare)),
        Answer::Longest(Err(Refusal::PlaceBare)),
        Answer::Withdrawn(Err(Refusal::NoSuchPlace)),
    ];
    check(&rt, Letters::new(), &mut calls, &expected);
    Ok(())
}

#[test]
fn asked_of_a_line(rt: HostRuntime) -> Result<(), AllocError> {
    let line = *b"abbabbbab";
    let mut marks = [7; 10];
    let mut calls: Vec<Call<u8, Extent, u32>> = Vec::new(rt.alloc());
    calls.push(Call::File {
        place: 3,
        bytes: b"bb*",
    })?;
    calls.push(Call::Longest {
        place: 3,
        line: &line,
    })?;
    calls.push(Call::Mark(Marking {
        place: 3,
        line: &line,
        marks: &mut marks,
    }))?;
    let expected = [
        Answer::Filed(Ok((2, 0))),
        Answer::Longest(Ok((4, 7))),
        Answer::Marked(Ok(6)),
    ];
    check(&rt, Letters::new(), &mut calls, &expected);
    drop(calls);
    assert_eq!(rt; marks, [0, 1, 1, 0, 1, 1, 1, 0, 1, 7]);
    Ok(())
}

#[test]
fn rankings_in_one_list(rt: HostRuntime) -> Result<(), AllocError> {
    let line = *b"abc";
    let (extent, tag_order) = (Left(Extent), Right(TagOrder));
    let (mut by_extent, mut by_tag_order) = ([9; 4], [9; 4]);
    let (mut sheet, mut other) = (Sheet::new(), Sheet::new());
    let (mut work, mut more) = ([Left(0); 128], [Left(0); 128]);
    let mut calls = Vec::new(rt.alloc());
    calls.push(Call::File {
        place: 0,
        bytes: b"{a}bc|a{b{c}}",
    })?;
    calls.push(split_whole(&line, &extent, &mut by_extent, &mut sheet, &mut work))?;
    calls.push(split_whole(&line, &tag_order, &mut by_tag_order, &mut other, &mut more))?;
    let done = Answer::Split(Ok(()));
    let mut answers = [done; 4];
    let (_shelf, ran) = run_mixed(Letters::new(), &mut calls, &mut answers);
    assert_eq!(rt; ran, Ok(()));
    assert_eq!(rt; answers, [Answer::Filed(Ok((6, 3))), done, done, done]);
    drop(calls);
    assert_eq!(rt; by_extent, [4, 5, 6, 9]);
    assert_eq!(rt; by_tag_order, [1, 2, 3, 9]);
    assert_eq!(rt; sheet.part(1), None);
    assert_eq!(rt; sheet.part(2), Some(Part { left: 1, right: 3 }));
    assert_eq!(rt; other.part(1), Some(Part { left: 0, right: 1 }));
    Ok(())
}

#[test]
fn no_room_for_the_trail(rt: HostRuntime) -> Result<(), AllocError> {
    let line = *b"abc";
    let mut trail = [9; 2];
    let mut sheet = Sheet::new();
    let mut work = [0; 128];
    let mut calls = Vec::new(rt.alloc());
    calls.push(Call::File {
        place: 0,
        bytes: b"{a}bc",
    })?;
    calls.push(split_whole(&line, &Extent, &mut trail, &mut sheet, &mut work))?;
    let expected = [
        Answer::Filed(Ok((3, 1))),
        Answer::Split(Err(Refusal::BufferTooShort)),
    ];
    check(&rt, Letters::new(), &mut calls, &expected);
    drop(calls);
    assert_eq!(rt; trail, [9, 9]);
    assert_eq!(rt; sheet, Sheet::new());
    Ok(())
}

#[test]
fn ends_of_no_stretch(rt: HostRuntime) -> Result<(), AllocError> {
    let mut sheet = Sheet::new();
    let mut calls: Vec<Call<u8, Extent, u32>> = Vec::new(rt.alloc());
    calls.push(Call::File {
        place: 0,
        bytes: b"{a}bc",
    })?;
    calls.push(Call::Split(Splitting {
        place: 0,
        line: b"abc",
        left: 3,
        right: 2,
        ranking: &Extent,
        trail: &mut [],
        sheet: &mut sheet,
        work: &mut [],
    }))?;
    let expected = [
        Answer::Filed(Ok((3, 1))),
        Answer::Split(Err(Refusal::EndsMisfit)),
    ];
    check(&rt, Letters::new(), &mut calls, &expected);
    Ok(())
}

#[test]
fn word_codes(rt: HostRuntime) -> Result<(), AllocError> {
    let line = [196609, 131079, 327687];
    let mut calls: Vec<Call<u32, Extent, u32>> = Vec::new(rt.alloc());
    calls.push(Call::File {
        place: 1,
        bytes: b"#3;@7;*",
    })?;
    calls.push(Call::Longest {
        place: 1,
        line: &line,
    })?;
    let expected = [Answer::Filed(Ok((2, 0))), Answer::Longest(Ok((0, 3)))];
    check(&rt, Words::new(), &mut calls, &expected);
    Ok(())
}

#[test]
fn fewer_answers_than_calls(rt: HostRuntime) -> Result<(), AllocError> {
    let mut calls: Vec<Call<u8, Extent, u32>> = Vec::new(rt.alloc());
    calls.push(Call::File {
        place: 1,
        bytes: b"a",
    })?;
    calls.push(Call::Withdraw { place: 1 })?;
    let mut answers = [Answer::Longest(Ok((5, 6)))];
    let (mut shelf, done) = run(Letters::new(), &mut calls, &mut answers);
    assert_eq!(rt; done, Err(Refusal::BufferTooShort));
    assert_eq!(rt; answers[0], Answer::Longest(Ok((5, 6))));
    assert_eq!(rt; shelf.withdraw(1), Err(Refusal::PlaceBare));
    Ok(())
}
