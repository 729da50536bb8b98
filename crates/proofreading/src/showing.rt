// How the bytes of a pattern are shown on a line of text.
ghost use Rattle.std.specs.Prelude.{◌≡◌, ◌<◌, length, take, replicate};
ghost use Rattle.proofreading.specs.Showing.{hex_digit, prints, shown_byte, shown, pattern_line, caret_line};
ghost use Rattle.text.specs.Texts.{Adds};

use pattern::MOST_BYTES;
use text::buffer::Text;

// Of a longer pattern only as many bytes are shown as a pattern may have.
const SHOWN: usize = MOST_BYTES;

// The first n bytes, or all where there are fewer.
fn first(bytes: &[u8], n: usize) -> &[u8]
    ensures { result.now ≡ take n bytes.now }
{
    &bytes[..n.min(bytes.len())]
}

fn hex_digit(d: u8) -> u8
    requires { d < 16 }
    ensures { result ≡ hex_digit d }
{
    b"0123456789ABCDEF"[usize::from(d)]
}

fn is_printable(byte: u8) -> bool
    ensures { result ≡ prints byte }
{
    matches!(byte, b' '..=b'~')
}

// A byte that prints is shown as itself, any other as `\x` and two digits.
fn write_byte(out: &mut Text, byte: u8)
    ensures { Adds out.old (shown_byte byte) out.new }
{
    if is_printable(byte) {
        out.byte(byte);
    } else {
        out.byte(b'\\');
        out.byte(b'x');
        out.byte(hex_digit(byte / 16));
        out.byte(hex_digit(byte % 16));
    }
}

fn write_bytes(out: &mut Text, bytes: &[u8])
    ensures { Adds out.old (shown bytes.now) out.new }
{
    for b in bytes {
        write_byte(out, *b);
    }
}

// How many columns a byte takes.
fn width(byte: u8) -> usize
    ensures { result ≡ length (shown_byte byte) }
{
    if is_printable(byte) { 1 } else { 4 }
}

// A space for each column that the bytes take.
fn write_blank(out: &mut Text, bytes: &[u8])
    ensures { Adds out.old (replicate (length (shown bytes.now)) 32) out.new }
{
    for b in bytes {
        out.repeat(b' ', width(*b));
    }
}

// The pattern on a line of its own, indented.
pub(crate) fn write_pattern(out: &mut Text, bytes: &[u8])
    ensures { Adds out.old (pattern_line bytes.now) out.new }
{
    out.text(b"    ");
    write_bytes(out, first(bytes, SHOWN));
    if bytes.len() > SHOWN {
        out.text(b"...\n");
    } else {
        out.text(b"\n");
    }
}

// A caret below the byte at the offset, or below the end.
pub(crate) fn write_caret(out: &mut Text, bytes: &[u8], offset: Option<usize>)
    ensures { Adds out.old (caret_line bytes.now offset) out.new }
{
    if let Some(at) = offset {
        out.text(b"    ");
        write_blank(out, first(first(bytes, SHOWN), at));
        out.text(b"^\n");
    }
}
