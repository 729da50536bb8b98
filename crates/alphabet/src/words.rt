// Words: a symbol is a word's code, and a test admits the words of a kind, the words of an entry, or every word. It is
// written so:
//
//     .    every word
//     #k;  the words of kind k, 0 to 255 in one to three digits
//     @e;  the words of entry e, 0 to 65535 in one to five digits
ghost use Rattle.std.specs.Prelude.{◌≡◌, ◌≤◌, IfOk};
ghost use Rattle.alphabet.specs.Signs.{BeginsNoSign};
ghost use Rattle.alphabet.specs.WordForms.{WordsReadTheirForms};
ghost use Rattle.alphabet.specs.Words.{number_reading, word_meaning, word_reading};
ghost use Rattle.alphabet.specs.WordSteps.{word_uses};

use crate::{Alphabet, Cause, Notation};

// A code is this many times its kind, plus its entry.
const ENTRIES: u32 = 65536;

// The test of an entry is the entry's number, the test of a kind is the kind's number and this. These are numbers and no
// enum, since the trait has each alphabet keep a test as one number.
const KINDS: u32 = 65536;

// The test that admits every word.
const ANY: u32 = 131072;

// Digits and limit are two arguments of `number`: a type for two calls would say no more.
const KIND_DIGITS: usize = 3;

const KIND_LIMIT: u32 = 255;

const ENTRY_DIGITS: usize = 5;

const ENTRY_LIMIT: u32 = 65535;

/// The notation of words, whose symbols are word codes.
#[derive(Clone, Copy)]
pub struct Words;

impl Words {
    /// Words that read each form as what it admits, and refuse all else for its cause.
    #[tactic(auto, using(crate::proofs::WordsRead::words_read_their_forms))]
    pub fn new() -> Words
        ensures reads_its_forms { WordsReadTheirForms }
    {
        Words
    }
}

// The value of the digits before a `;`, and how many they are. The bytes are looked at in turn, so a digit too many is
// refused before the `;` is seen, and a value above the limit at the `;`.
fn number(bytes: &[u8], most_digits: usize, limit: u32) -> Result<(u32, usize), Cause>
    requires { most_digits ≤ 5 }
    ensures answer { result ≡ number_reading most_digits limit bytes.now }
    ensures small { IfOk result (λ n. (n.0 ≤ limit) × (n.1 ≤ most_digits)) }
{
    let mut value = 0;
    for (count, byte) in bytes.iter().enumerate() {
        match *byte {
            b'0'..=b'9' if count == most_digits => return Err(Cause::OutOfRange),
            b'0'..=b'9' => value = value * 10 + u32::from(*byte - b'0'),
            b';' if count == 0 => return Err(Cause::UnknownForm),
            b';' if value > limit => return Err(Cause::OutOfRange),
            b';' => return Ok((value, count)),
            _ => return Err(Cause::UnknownForm),
        }
    }
    Err(Cause::CutShort)
}

impl Alphabet for Words {
    type Symbol = u32;

    ghost meaning = { λ _ test symbol. word_meaning test symbol };

    fn admits(&self, test: u32, symbol: &u32) -> bool
        ensures { result ≡ word_meaning test symbol.now }
    {
        if test < KINDS {
            *symbol % ENTRIES == test
        } else if test < ANY {
            *symbol / ENTRIES == test - KINDS
        } else {
            true
        }
    }
}

impl Notation for Words {
    ghost reading = { λ _ bytes. word_reading bytes };

    ghost uses_some = { λ s bytes begins. word_uses bytes };

    fn read(&mut self, bytes: &[u8]) -> Result<(u32, usize), Cause>
        requires { BeginsNoSign bytes.now }
        ensures answer { result ≡ word_reading bytes.now }
    {
        match bytes {
            [] => unreachable(),
            [b'.', ..] => Ok((ANY, 1)),
            [b'#', rest @ ..] => {
                let (kind, digits) = number(rest, KIND_DIGITS, KIND_LIMIT)?;
                Ok((kind + KINDS, digits + 2))
            }
            [b'@', rest @ ..] => {
                let (entry, digits) = number(rest, ENTRY_DIGITS, ENTRY_LIMIT)?;
                Ok((entry, digits + 2))
            }
            _ => Err(Cause::UnknownForm),
        }
    }
}

#[cfg(test)]
mod tests {
    use super::*;
    use crate::forms::{check_form, read};
    use std::test::Fail;

    #[test]
    fn forms(rt: HostRuntime) -> Result<(), Fail> {
        check_form(&rt, Words, b"#003;*", 5, &0x3_0007, &0x7_0003)?;
        check_form(&rt, Words, b"#0;", 3, &9, &0x1_0009)?;
        check_form(&rt, Words, b"#255;", 5, &0xff_0000, &0xfe_0000)?;
        check_form(&rt, Words, b"@7;", 3, &0x3_0007, &0x7_0003)?;
        check_form(&rt, Words, b"@65535;", 7, &0x3_ffff, &0x3_fffe)?;
        assert_eq!(rt; read(Words, b".."), Some(Ok((ANY, 1))));
        assert!(rt; Words::new().admits(ANY, &0xffff_ffff));
        Ok(())
    }

    #[test]
    fn faults(rt: HostRuntime) {
        for bytes in [b"#".as_slice(), b"#2", b"#999", b"@", b"@65536"] {
            assert_eq!(rt; read(Words, bytes), Some(Err(Cause::CutShort)));
        }
        for bytes in [
            b"#1000".as_slice(),
            b"#999;",
            b"#256;",
            b"@65536;",
            b"@100000",
        ] {
            assert_eq!(rt; read(Words, bytes), Some(Err(Cause::OutOfRange)));
        }
        for bytes in [b"#;".as_slice(), b"#x", b"#1x", b"@;", b"x"] {
            assert_eq!(rt; read(Words, bytes), Some(Err(Cause::UnknownForm)));
        }
    }
}
