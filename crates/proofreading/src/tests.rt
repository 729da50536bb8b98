// Whole texts, as they are printed.
use crate::report::write_report;
use crate::tally::Tally;
use crate::verdict::write_verdict;
use alphabet::Cause;
use pattern::fault::{Fault, Misread};
use shelf::refusal::Refusal;
use text::buffer::Text;

const BAD_TEST: Refusal = Refusal::Unlawful(Fault::BadTest(Misread {
    cause: Cause::OutOfRange,
    offset: 0,
}));

#[test]
fn lawful(rt: HostRuntime) {
    let mut out = Text::new();
    write_verdict(&mut out, 1, b"{[A-Z]+}: {.*}", Ok((4, 2)));
    assert!(rt; out.bytes() == b"line 1: lawful, 4 tests, 2 tags\n    {[A-Z]+}: {.*}\n".as_slice());
    write_verdict(&mut out, 10, b"{a}", Ok((1, 1)));
    assert!(rt; out.bytes() == b"line 10: lawful, 1 test, 1 tag\n    {a}\n".as_slice());
}

#[test]
fn refused_at_an_offset(rt: HostRuntime) {
    let mut out = Text::new();
    write_verdict(
        &mut out,
        2,
        b"({a})*",
        Err(Refusal::Unlawful(Fault::RepeatedTag(5))),
    );
    assert!(rt;
        out.bytes()
            == b"line 2: refused 11 at 5, a * or + repeats a tag\n    ({a})*\n         ^\n".as_slice()
    );
    write_verdict(&mut out, 3, b"[z-a]", Err(BAD_TEST));
    assert!(rt;
        out.bytes()
            == b"line 3: refused 5 at 0 cause 2, not a test: out of range\n    [z-a]\n    ^\n".as_slice()
    );
}

#[test]
fn past_the_end_and_unprintable(rt: HostRuntime) {
    let mut out = Text::new();
    write_verdict(
        &mut out,
        5,
        b"(\xE9\t",
        Err(Refusal::Unlawful(Fault::LooseBracket(3))),
    );
    assert!(rt;
        out.bytes()
            == b"line 5: refused 7 at 3, a bracket closes nothing, or one is still open at the end\n    (\\xE9\\x09\n             ^\n".as_slice()
    );
}

#[test]
fn too_long(rt: HostRuntime) {
    let mut out = Text::new();
    write_verdict(
        &mut out,
        4,
        &[b'a'; 121],
        Err(Refusal::Unlawful(Fault::TooLong)),
    );
    let bytes = out.bytes();
    assert!(rt; bytes.len() == 41 + 4 + 120 + 4);
    assert!(rt; bytes.starts_with(b"line 4: refused 4, longer than 120 bytes\n    aaaa"));
    assert!(rt; bytes.ends_with(b"aaaa...\n"));
}

#[test]
fn report(rt: HostRuntime) {
    let mut out = Text::new();
    let mut tally = Tally::new();
    tally.count(Ok((4, 2)));
    tally.count(Err(Refusal::Unlawful(Fault::RepeatedTag(5))));
    tally.count(Err(BAD_TEST));
    tally.count(Ok((1, 0)));
    tally.count(Err(Refusal::Unlawful(Fault::RepeatedTag(0))));
    write_report(&mut out, &tally);
    assert!(rt;
        out.bytes()
            == b"report: 5 patterns, 2 lawful, 3 refused\n    refused 5 (bad test): 1\n    refused 11 (repeated tag): 2\n".as_slice()
    );
}
