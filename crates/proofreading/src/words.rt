// Refusals by number, and counts, in words.
ghost use Rattle.std.specs.Prelude.{◌≡◌};
ghost use Rattle.proofreading.specs.Words.{refusal_name, counted};
ghost use Rattle.text.specs.Texts.{Adds};

use text::buffer::Text;

// The short name of the refusals of a number. By number and not by refusal: a tally counts by the number that the report prints, and an
// offset or cause is no part of it.
pub(crate) fn refusal_name(number: usize) -> &'static [u8]
    ensures { result.now ≡ refusal_name number }
{
    match number {
        1 => b"no such place",
        2 => b"place taken",
        3 => b"bare place",
        4 => b"too long",
        5 => b"bad test",
        6 => b"missing unit",
        7 => b"loose bracket",
        8 => b"too deep",
        9 => b"too many tests",
        10 => b"too many tags",
        11 => b"repeated tag",
        12 => b"line too long",
        13 => b"short buffer",
        14 => b"misfit ends",
        15 => b"no match",
        // No refusal has the number 0.
        _ => b"",
    }
}

// `1 test`, and `2 tests`.
pub(crate) fn write_count(out: &mut Text, n: u64, noun: &[u8])
    ensures { Adds out.old (counted n noun.now) out.new }
{
    out.number(n);
    out.byte(b' ');
    out.text(noun);
    if n != 1 {
        out.byte(b's');
    }
}
