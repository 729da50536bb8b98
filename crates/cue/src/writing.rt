// Writes a record of marks and parts.
ghost use Rattle.std.specs.Prelude.{◌≡◌, ℕ, ◌-◌, ◌≤◌, true, ◌++◌, length, take, count_by, is_some};
ghost use Rattle.text.specs.Texts.{Adds, written};
ghost use Rattle.cue.specs.Leb128.{leb128, Shortest};
ghost use Rattle.cue.specs.Marks.{runs_of, RunsOf};
ghost use Rattle.cue.specs.Records.{run_bytes, parts_from, part_bytes, record_of, fits, all_fit};
ghost use Rattle.cue.specs.Answers.{writing, WrittenAfter};

use crate::refusal::{Refusal, check_line};
use sheet::{Part, Sheet};
use text::buffer::Text;

// The number in groups of seven bits, the lowest first.
fn write_number(out: &mut Text, n: usize)
    ensures { Adds out.old (leb128 n) out.new }
{
    let mut rest = n;
    while rest >= 128 {
        out.byte((rest % 128) as u8 + 128);
        rest /= 128;
    }
    out.byte(rest as u8);
}

// How many runs of marked symbols there are.
fn run_count(marks: &[u8]) -> usize
    ensures { result ≡ length (runs_of marks.now) }
{
    marks
        .split(|mark| *mark == 0)
        .filter(|run| !run.is_empty())
        .count()
}

// The gap before each run, and its length.
fn write_runs(out: &mut Text, marks: &[u8])
    ensures { Adds out.old (run_bytes (runs_of marks.now)) out.new }
{
    let mut gap = 0;
    for run in marks.split(|mark| *mark == 0) {
        if !run.is_empty() {
            write_number(out, gap);
            write_number(out, run.len());
            gap = 0;
        }
        // One unmarked symbol stands between two pieces.
        gap += 1;
    }
}

// How many of the entries are filled.
fn part_count(entries: &[Option<Part>]) -> usize
    ensures { result ≡ count_by is_some entries.now }
{
    entries.iter().filter(|entry| entry.is_some()).count()
}

// The tag of a part, its start and its length.
fn write_part(out: &mut Text, tag: usize, part: Part)
    ensures { Adds out.old (leb128 tag ++ (leb128 part.left ++ leb128 (part.right - part.left))) out.new }
{
    write_number(out, tag);
    write_number(out, part.left);
    write_number(out, part.right.saturating_sub(part.left));
}

// The same for each entry that is filled. That of tag 1 stands first.
fn write_parts(out: &mut Text, entries: &[Option<Part>])
    ensures { Adds out.old (part_bytes (parts_from 1 entries.now)) out.new }
{
    for (k, entry) in entries.iter().enumerate() {
        if let Some(part) = entry {
            write_part(out, k + 1, *part);
        }
    }
}

// Whether a part is not empty, not reversed and not past the line.
fn part_fits(part: Part, symbols: usize) -> bool
    ensures { result ≡ fits symbols part }
{
    part.left < part.right && part.right <= symbols
}

// Whether each entry that is filled has such a part.
fn parts_fit(entries: &[Option<Part>], symbols: usize) -> bool
    ensures { result ≡ all_fit symbols entries.now }
{
    entries
        .iter()
        .all(|entry| entry.is_none_or(|part| part_fits(part, symbols)))
}

// The whole record.
fn record_text(line: &[u8], entries: &[Option<Part>]) -> Text
    requires short { length line.now ≤ 160 }
    requires eight { length entries.now ≡ 8 }
    requires parts_fit { all_fit (length line.now) entries.now ≡ true }
    ensures { written result ≡ record_of line.now entries.now }
{
    let mut record = Text::new();
    write_number(&mut record, run_count(line));
    write_runs(&mut record, line);
    write_number(&mut record, part_count(entries));
    write_parts(&mut record, entries);
    record
}

/// Writes the record of a line of so many symbols at the front of `out`, and answers its length. Any mark but 0 marks.
#[tactic(auto, using(crate::proofs::Laying::longest_runs, crate::proofs::Laying::laid_whole, crate::proofs::Groups::leb_shortest))]
pub fn write(marks: &[u8], sheet: &Sheet, symbols: usize, out: &mut [u8]) -> Result<usize, Refusal>
    ensures record_or_refusal { WrittenAfter (writing symbols marks.now sheet.now.entries (length out.old)) out.old out.new result }
    ensures runs_of_the_marks { RunsOf (take symbols marks.now) }
    ensures numbers_in_shortest_form { (n : ℕ) → Shortest n (leb128 n) }
{
    check_line(symbols, marks.len())?;
    let entries = sheet.entries();
    if !parts_fit(entries, symbols) {
        return Err(Refusal::PartMisfits);
    }
    let record = record_text(&marks[0..symbols], entries);
    let bytes = record.bytes();
    if bytes.len() > out.len() {
        return Err(Refusal::BufferTooShort);
    }
    out[0..bytes.len()].copy_from_slice(bytes);
    Ok(bytes.len())
}
