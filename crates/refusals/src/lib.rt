//! A refusal as it is printed: its number, and where it has them its offset and its cause.
#![tactic(auto, using(text::proofs::Chains::nothing))]

ghost use Rattle.refusals.specs.RefusalTexts.{refusal_text, offset_text, cause_text};
ghost use Rattle.text.specs.Texts.{Adds};

use alphabet::Cause;
use shelf::refusal::Refusal;
use text::buffer::Text;

// Writes the offset with its word, where there is one. Beside `write_cause`, and not one function of a label and a number for both: each
// number would first have to be mapped to a `u64` by a closure, which is no plainer than these lines.
fn write_offset(out: &mut Text, offset: Option<usize>)
    ensures { Adds out.old (offset_text offset) out.new }
{
    if let Some(at) = offset {
        out.text(b" at ");
        out.number(at as u64);
    }
}

// Writes the number of the cause with its word, where there is one.
fn write_cause(out: &mut Text, cause: Option<Cause>)
    ensures { Adds out.old (cause_text cause) out.new }
{
    if let Some(why) = cause {
        out.text(b" cause ");
        out.number(u64::from(why.number()));
    }
}

/// Writes the number of a refusal, and its offset and cause where it has them: `refused 3`, `refused 6 at 5`, `refused 5 at 0 cause 2`.
pub fn write_refusal(out: &mut Text, refusal: Refusal)
    ensures { Adds out.old (refusal_text refusal) out.new }
{
    out.text(b"refused ");
    out.number(u64::from(refusal.number()));
    write_offset(out, refusal.offset());
    write_cause(out, refusal.cause());
}

#[cfg(test)]
mod tests {
    use super::*;
    use pattern::fault::{Fault, Misread};

    #[test]
    fn refusals(rt: HostRuntime) {
        let mut out = Text::new();
        write_refusal(&mut out, Refusal::PlaceBare);
        out.byte(b',');
        write_refusal(&mut out, Refusal::Unlawful(Fault::MissingUnit(5)));
        out.byte(b',');
        write_refusal(
            &mut out,
            Refusal::Unlawful(Fault::BadTest(Misread {
                cause: Cause::OutOfRange,
                offset: 0,
            })),
        );
        assert!(rt; out.bytes() == b"refused 3,refused 6 at 5,refused 5 at 0 cause 2".as_slice());
    }
}
