// The verdict on a pattern, in words.
ghost use Rattle.std.specs.Prelude.{◌≡◌};
ghost use Rattle.proofreading.specs.Showing.{CaretStandsBelow};
ghost use Rattle.proofreading.specs.Verdicts.{verdict_text, lawful_text, refused_text};
ghost use Rattle.text.specs.Texts.{written, Adds};

use crate::showing::{write_caret, write_pattern};
use crate::words::write_count;
use refusals::write_refusal;
use shelf::refusal::Refusal;
use text::buffer::Text;

fn write_lawful(out: &mut Text, bytes: &[u8], tests: usize, tags: usize)
    ensures { Adds out.old (lawful_text bytes.now tests tags) out.new }
{
    out.text(b": lawful, ");
    write_count(out, tests as u64, b"test");
    out.text(b", ");
    write_count(out, tags as u64, b"tag");
    out.text(b"\n");
    write_pattern(out, bytes);
}

// Piece by piece, and with the refusal's `words`, not by `write!`: that may answer an error, and its contract does not say what the text
// holds then.
fn write_refused(out: &mut Text, bytes: &[u8], refusal: Refusal)
    ensures { Adds out.old (refused_text bytes.now refusal) out.new }
{
    out.text(b": ");
    write_refusal(out, refusal);
    out.text(b", ");
    out.text(refusal.words().as_bytes());
    out.text(b"\n");
    write_pattern(out, bytes);
    write_caret(out, bytes, refusal.offset());
}

/// The verdict on the pattern in a line, then the pattern, and a caret below the place where it goes wrong. A lawful
/// pattern comes with its numbers of tests and tags.
pub fn write_verdict(
    out: &mut Text,
    line: u64,
    bytes: &[u8],
    verdict: Result<(usize, usize), Refusal>,
)
    ensures text { written out.new ≡ verdict_text line bytes.now verdict }
    ensures caret { CaretStandsBelow }
{
    out.clear();
    out.text(b"line ");
    out.number(line);
    match verdict {
        Ok((tests, tags)) => write_lawful(out, bytes, tests, tags),
        Err(refusal) => write_refused(out, bytes, refusal),
    }
}
