// Texts that are written, and lines that come in chunks.
use crate::buffer::{ROOM, Text};
use crate::line::LineBuffer;

#[test]
fn written(rt: HostRuntime) {
    let mut out = Text::new();
    out.text(b"n ");
    out.number(18446744073709551615);
    out.byte(b',');
    out.number(0);
    out.repeat(b'-', 3);
    assert!(rt; out.bytes() == b"n 18446744073709551615,0---".as_slice());
    out.clear();
    out.repeat(b'a', ROOM + 1);
    assert!(rt; out.bytes().len() == ROOM);
}

#[test]
fn cut_anywhere(rt: HostRuntime) {
    let mut short: LineBuffer<3> = LineBuffer::new();
    assert!(rt; short.take_in(b"ab") == None);
    assert!(rt; short.take_in(b"cd\nef") == Some(3));
    assert!(rt; short.bytes() == b"abc".as_slice());
    let mut long: LineBuffer<201> = LineBuffer::new();
    assert!(rt; long.take_in(b"abcd\nef") == Some(5));
    assert!(rt; long.bytes() == b"abcd".as_slice());
    long.clear();
    assert!(rt; long.bytes().is_empty());
}
