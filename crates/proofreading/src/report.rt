// The report at the end.
ghost use Rattle.std.specs.Prelude.{◌≡◌};
ghost use Rattle.proofreading.specs.Reports.{report_text, number_line, report_head};
ghost use Rattle.text.specs.Texts.{written, Adds};

use crate::tally::Tally;
use crate::words::{refusal_name, write_count};
use text::buffer::Text;

fn write_head(out: &mut Text, tally: &Tally)
    ensures { Adds out.old (report_head tally.now.patterns tally.now.lawful tally.now.refused) out.new }
{
    out.text(b"report: ");
    write_count(out, tally.patterns, b"pattern");
    out.text(b", ");
    out.number(tally.lawful);
    out.text(b" lawful, ");
    out.number(tally.refused);
    out.text(b" refused\n");
}

// A line for the refusals of a number, if there were any.
fn write_number(out: &mut Text, number: usize, count: u64)
    ensures { Adds out.old (number_line number count) out.new }
{
    if count > 0 {
        out.text(b"    refused ");
        out.number(number as u64);
        out.text(b" (");
        out.text(refusal_name(number));
        out.text(b"): ");
        out.number(count);
        out.text(b"\n");
    }
}

/// How many patterns there were, and how many of them were refused under each number.
pub fn write_report(out: &mut Text, tally: &Tally)
    ensures { written out.new ≡ report_text tally.now }
{
    out.clear();
    write_head(out, tally);
    for (number, count) in tally.by_number.iter().enumerate().skip(1) {
        write_number(out, number, *count);
    }
}
