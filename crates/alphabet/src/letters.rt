// Letters: the symbols are bytes, and a test admits a range of bytes or all bytes but a range. It is written so:
//
//     .       every byte
//     \b      the byte b, whatever it is
//     [l-h]   the bytes l to h, where l is not ^
//     [^l-h]  all bytes but l to h
//     b       any other byte: itself
ghost use Rattle.std.specs.Prelude.{◌≡◌};
ghost use Rattle.alphabet.specs.Signs.{BeginsNoSign};
ghost use Rattle.alphabet.specs.LetterForms.{LettersReadTheirForms};
ghost use Rattle.alphabet.specs.Letters.{letter_meaning, letter_reading, others_test, range_test, span_reading};
ghost use Rattle.std.proofs.Common.{rules};

use crate::{Alphabet, Cause, Notation};

// A test is a run of bytes, in which 0 comes after 255. Its number is its first byte, and 256 times how many bytes it has. This is a
// number and no struct, since the trait has each alphabet keep a test as one number.
const BYTES: u32 = 256;

/// The notation of letters, whose symbols are bytes.
#[derive(Clone, Copy)]
pub struct Letters;

impl Letters {
    /// Letters that read each form as what it admits, and refuse all else for its cause.
    #[tactic(auto, using(crate::proofs::LettersRead::letters_read_their_forms))]
    pub fn new() -> Letters
        ensures reads_its_forms { LettersReadTheirForms }
    {
        Letters
    }
}

// The test that admits the bytes `low` to `high`.
fn range(low: u8, high: u8) -> u32
    ensures { result ≡ range_test low high }
{
    u32::from(low) + BYTES * (u32::from(high.wrapping_sub(low)) + 1)
}

// The test that admits all bytes but `low` to `high`.
fn others(low: u8, high: u8) -> u32
    ensures { result ≡ others_test low high }
{
    u32::from(high.wrapping_add(1)) + BYTES * (255 - u32::from(high.wrapping_sub(low)))
}

// The limits of a range, `l-h]`, that stands after a `[` or a `[^`.
fn limits(bytes: &[u8]) -> Result<(u8, u8), Cause>
    ensures { result ≡ span_reading bytes.now }
{
    match bytes {
        [low, b'-', high, b']', ..] if low <= high => Ok((*low, *high)),
        [_, b'-', _, b']', ..] => Err(Cause::OutOfRange),
        [] | [_] | [_, b'-'] | [_, b'-', _] => Err(Cause::CutShort),
        _ => Err(Cause::UnknownForm),
    }
}

impl Alphabet for Letters {
    type Symbol = u8;

    ghost meaning = { λ _ test symbol. letter_meaning test symbol };

    fn admits(&self, test: u32, symbol: &u8) -> bool
        ensures { result ≡ letter_meaning test symbol.now }
    {
        let first = (test % BYTES) as u8;
        u32::from(symbol.wrapping_sub(first)) < test / BYTES
    }
}

impl Notation for Letters {
    ghost reading = { λ _ bytes. letter_reading bytes };

    ghost uses_some = { Prim.search rules };

    fn read(&mut self, bytes: &[u8]) -> Result<(u32, usize), Cause>
        requires { BeginsNoSign bytes.now }
        ensures answer { result ≡ letter_reading bytes.now }
    {
        match bytes {
            [] => unreachable(),
            [b'.', ..] => Ok((range(0, 255), 1)),
            [b'\\', byte, ..] => Ok((range(*byte, *byte), 2)),
            [b'\\'] => Err(Cause::CutShort),
            [b'[', b'^', rest @ ..] => {
                let (low, high) = limits(rest)?;
                Ok((others(low, high), 6))
            }
            [b'[', rest @ ..] => {
                let (low, high) = limits(rest)?;
                Ok((range(low, high), 5))
            }
            [byte, ..] => Ok((range(*byte, *byte), 1)),
        }
    }
}

#[cfg(test)]
mod tests {
    use super::*;
    use crate::forms::{check_form, read};
    use std::test::Fail;

    #[test]
    fn forms(rt: HostRuntime) -> Result<(), Fail> {
        check_form(&rt, Letters, b"[a-c]+", 5, &b'c', &b'd')?;
        check_form(&rt, Letters, b"[^a-c]+", 6, &b'd', &b'c')?;
        check_form(&rt, Letters, b"\\*", 2, &b'*', &b'\\')?;
        check_form(&rt, Letters, b"[(-)]", 5, &b')', &b'*')?;
        check_form(&rt, Letters, b"[^^-^]", 6, &b'-', &b'^')?;
        check_form(&rt, Letters, b"[]-]]", 5, &b']', &b'-')?;
        check_form(&rt, Letters, b"ab", 1, &b'a', &b'b')?;
        assert_eq!(rt; read(Letters, b"."), Some(Ok((range(0, 255), 1))));
        Ok(())
    }

    #[test]
    fn faults(rt: HostRuntime) {
        for bytes in [
            b"[a-z".as_slice(),
            b"[a-",
            b"[a",
            b"[",
            b"[^",
            b"[z-a",
            b"\\",
        ] {
            assert_eq!(rt; read(Letters, bytes), Some(Err(Cause::CutShort)));
        }
        for bytes in [b"[ax".as_slice(), b"[a-zx", b"[^-^]", b"[^-a]"] {
            assert_eq!(rt; read(Letters, bytes), Some(Err(Cause::UnknownForm)));
        }
        assert_eq!(rt; read(Letters, b"[z-a]"), Some(Err(Cause::OutOfRange)));
    }
}
