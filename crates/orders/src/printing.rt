// What is printed in answer to an order, line by line.
ghost use Rattle.orders.specs.Printing.{pair_text, filed_text, withdrawn_text, unknown_text, longest_text, shown_mark, shown_marks, spaced_marks, marks_text, part_text, tag_text, tags_text, parts_text, refused_text};
ghost use Rattle.text.specs.Texts.{Adds};
ghost use Rattle.std.specs.Prelude.{◌≡◌};

use refusals::write_refusal;
use sheet::{Part, Sheet};
use shelf::refusal::Refusal;
use text::buffer::Text;

/// Writes a refusal on a line of its own: `refused 6 at 5`.
pub fn write_refused(out: &mut Text, refusal: Refusal)
    ensures { Adds out.old (refused_text refusal) out.new }
{
    write_refusal(out, refusal);
    out.byte(b'\n');
}

/// `refused 19`, where the bytes are no order.
pub fn write_unknown(out: &mut Text)
    ensures { Adds out.old unknown_text out.new }
{
    out.text(b"refused 19\n");
}

// Writes a label and two numbers, on a line of their own.
fn write_pair(out: &mut Text, label: &[u8], first: usize, second: usize)
    ensures { Adds out.old (pair_text label.now first second) out.new }
{
    out.text(label);
    out.byte(b' ');
    out.number(first as u64);
    out.byte(b' ');
    out.number(second as u64);
    out.byte(b'\n');
}

/// `ok 4 2`: how many tests and tags the pattern has that was filed.
pub fn write_filed(out: &mut Text, tests: usize, tags: usize)
    ensures { Adds out.old (filed_text tests tags) out.new }
{
    write_pair(out, b"ok", tests, tags);
}

/// `ok`, where a pattern was withdrawn.
pub fn write_withdrawn(out: &mut Text)
    ensures { Adds out.old withdrawn_text out.new }
{
    out.text(b"ok\n");
}

/// `longest 3 21`: the two ends of the longest stretch.
pub fn write_longest(out: &mut Text, left: usize, right: usize)
    ensures { Adds out.old (longest_text left right) out.new }
{
    write_pair(out, b"longest", left, right);
}

// The sign of a mark: a full stop for 0, and a hash for any other.
fn shown_mark(mark: u8) -> u8
    ensures { result ≡ shown_mark mark }
{
    if mark == 0 { b'.' } else { b'#' }
}

// Writes a sign for each mark.
fn write_shown(out: &mut Text, marks: &[u8])
    ensures { Adds out.old (shown_marks marks.now) out.new }
{
    for mark in marks {
        out.byte(shown_mark(*mark));
    }
}

// A space and a sign for each mark, where there are marks.
fn write_spaced(out: &mut Text, marks: &[u8])
    ensures { Adds out.old (spaced_marks marks.now) out.new }
{
    if !marks.is_empty() {
        out.byte(b' ');
        write_shown(out, marks);
    }
}

/// `marks ...###`: a sign for each symbol, and `marks` alone where there is none.
pub fn write_marks(out: &mut Text, marks: &[u8])
    ensures { Adds out.old (marks_text marks.now) out.new }
{
    out.text(b"marks");
    write_spaced(out, marks);
    out.byte(b'\n');
}

// Writes a part by its two ends, or that there is none: `3-7`, or `none`.
fn write_part(out: &mut Text, part: Option<Part>)
    ensures { Adds out.old (part_text part) out.new }
{
    match part {
        Some(part) => {
            out.number(part.left as u64);
            out.byte(b'-');
            out.number(part.right as u64);
        }
        None => out.text(b"none"),
    }
}

// Writes a space and a tag with its part: ` 1:3-7`, or ` 1:none`.
fn write_tag(out: &mut Text, tag: usize, part: Option<Part>)
    ensures { Adds out.old (tag_text tag part) out.new }
{
    out.byte(b' ');
    out.number(tag as u64);
    out.byte(b':');
    write_part(out, part);
}

// Of so many tags each with its part, from tag 1 on.
fn write_tags(out: &mut Text, parts: &[Option<Part>])
    ensures { Adds out.old (tags_text 1 parts.now) out.new }
{
    for (i, part) in parts.iter().enumerate() {
        write_tag(out, i + 1, *part);
    }
}

/// `parts 1:3-7 2:none`: the parts of the first so many tags, and `parts` alone where there is none.
pub fn write_parts(out: &mut Text, tags: usize, sheet: &Sheet)
    ensures { Adds out.old (parts_text tags sheet.now.entries) out.new }
{
    let entries = sheet.entries();
    out.text(b"parts");
    write_tags(out, &entries[..tags.min(entries.len())]);
    out.byte(b'\n');
}
