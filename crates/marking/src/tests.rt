// Orders one after another, and every byte that is printed for them.
use crate::marker::Marker;
use std::process::Abort;
use text::buffer::Text;

// The next order has this answer.
fn check(rt: &impl Abort, marker: &mut Marker, order: &[u8], answer: &[u8]) {
    let mut out = Text::new();
    marker.answer(order, &mut out);
    assert!(rt; out.bytes() == answer);
}

#[test]
fn a_caption_line(rt: HostRuntime) {
    let mut marker = Marker::new();
    check(&rt, &mut marker, b"+3 {[A-Z]+}: {.*}", b"ok 4 2\n");
    check(
        &rt,
        &mut marker,
        b"?3 hm ANNA: good evening",
        b"longest 3 21\nmarks ...##################\nparts 1:3-7 2:9-21\n",
    );
    check(&rt, &mut marker, b"-3", b"ok\n");
    check(&rt, &mut marker, b"?3 x", b"refused 3\n");
}

#[test]
fn parts_of_the_pattern_there_now(rt: HostRuntime) {
    let mut marker = Marker::new();
    check(&rt, &mut marker, b"+0 a{b*}c", b"ok 3 1\n");
    check(
        &rt,
        &mut marker,
        b"?0 xac",
        b"longest 1 3\nmarks .##\nparts 1:none\n",
    );
    check(&rt, &mut marker, b"-0", b"ok\n");
    check(&rt, &mut marker, b"+0 a*", b"ok 1 0\n");
    check(&rt, &mut marker, b"?0 ", b"longest 0 0\nmarks\nparts\n");
}

#[test]
fn refusals(rt: HostRuntime) {
    let mut marker = Marker::new();
    check(&rt, &mut marker, b"+9 [z-a]", b"refused 5 at 0 cause 2\n");
    check(&rt, &mut marker, b"+9 ({a})*", b"refused 11 at 5\n");
    check(&rt, &mut marker, b"+9 a", b"ok 1 0\n");
    check(&rt, &mut marker, b"+9 b", b"refused 2\n");
    check(&rt, &mut marker, b"?9 xyz", b"refused 15\n");
    check(&rt, &mut marker, b"", b"refused 19\n");
}
