// Orders as they are written, and the lines that answer them.
use crate::order::Order;
use crate::printing::{
    write_filed, write_longest, write_marks, write_parts, write_refused, write_unknown,
    write_withdrawn,
};
use pattern::fault::Fault;
use sheet::{Part, Sheet};
use shelf::refusal::Refusal;
use text::buffer::Text;

#[test]
fn orders(rt: HostRuntime) {
    assert_eq!(rt; Order::read(b"+3 {a}: "), Some(Order::File(3, b"{a}: ")));
    assert_eq!(rt; Order::read(b"+0 "), Some(Order::File(0, b"")));
    assert_eq!(rt; Order::read(b"-9"), Some(Order::Withdraw(9)));
    assert_eq!(rt; Order::read(b"?7 hm \xFF"), Some(Order::Ask(7, b"hm \xFF")));
}

#[test]
fn no_orders(rt: HostRuntime) {
    for bytes in [
        b"".as_slice(),
        b"+3",
        b"+3a",
        b"+12 a",
        b"+: a",
        b" +3 a",
        b"-3 ",
        b"-/",
        b"?x a",
        b"3 a",
    ] {
        assert_eq!(rt; Order::read(bytes), None);
    }
}

#[test]
fn two_hundred_bytes(rt: HostRuntime) {
    let mut bytes = [b'?'; 201];
    bytes[1] = b'3';
    bytes[2] = b' ';
    let longest = &bytes[..200];
    assert!(rt; matches!(Order::read(longest), Some(Order::Ask(3, line)) if line.len() == 197));
    assert!(rt; Order::read(&bytes).is_none());
}

#[test]
fn lines(rt: HostRuntime) {
    let mut out = Text::new();
    write_filed(&mut out, 4, 2);
    write_withdrawn(&mut out);
    write_longest(&mut out, 3, 21);
    write_refused(&mut out, Refusal::Unlawful(Fault::RepeatedTag(5)));
    write_unknown(&mut out);
    assert!(rt;
        out.bytes() == b"ok 4 2\nok\nlongest 3 21\nrefused 11 at 5\nrefused 19\n".as_slice()
    );
}

#[test]
fn marks(rt: HostRuntime) {
    let mut out = Text::new();
    write_marks(&mut out, &[0, 1, 1, 0]);
    write_marks(&mut out, &[]);
    assert!(rt; out.bytes() == b"marks .##.\nmarks\n".as_slice());
}

#[test]
fn parts(rt: HostRuntime) {
    let mut sheet = Sheet::new();
    let _ = sheet.fill(1, Some(Part { left: 3, right: 7 }));
    let _ = sheet.fill(3, Some(Part { left: 9, right: 21 }));
    let mut out = Text::new();
    write_parts(&mut out, 2, &sheet);
    write_parts(&mut out, 0, &sheet);
    write_parts(&mut out, 3, &sheet);
    assert!(rt;
        out.bytes() == b"parts 1:3-7 2:none\nparts\nparts 1:3-7 2:none 3:9-21\n".as_slice()
    );
}
