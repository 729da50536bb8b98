// Cuts a pattern's bytes into tokens.
ghost use Rattle.std.specs.Prelude.{◌≡◌, ◌+◌, ◌<◌, ◌≤◌, [], length, drop};
ghost use Rattle.pattern.specs.Tokens.{sign_kind, first_token, tokens, SameReading};

use crate::fault::Misread;
use crate::token::{Kind, Token};
use alphabet::{Alphabet, Notation};
use arrayvec::ArrayVec;

/// A pattern has at most so many bytes, and no more tokens than bytes.
pub const MOST_BYTES: usize = 120;

// The sign that a byte is; whether it is one, for all who ask a notation, is `alphabet`'s `is_sign`. Not a `TryFrom`: a byte that is no
// sign is no error, and begins a test.
fn sign(byte: u8) -> Option<Kind>
    ensures { result ≡ sign_kind byte }
{
    match byte {
        b'|' => Some(Kind::Or),
        b'*' => Some(Kind::Star),
        b'+' => Some(Kind::Plus),
        b'?' => Some(Kind::Opt),
        b'(' => Some(Kind::Open),
        b')' => Some(Kind::Close),
        b'{' => Some(Kind::OpenTag),
        b'}' => Some(Kind::CloseTag),
        _ => None,
    }
}

// The token at an offset, and how many bytes it takes. What the notation answers is kept as it is, so that the reader
// passes on a bad test when it gets there; what follows one is never read.
fn first_token<N: Notation>(notation: &mut N, bytes: &[u8], at: usize) -> (Kind, usize)
    requires { at < length bytes.now }
    ensures value { result ≡ first_token (N.Notation.reading notation.old) at (drop at bytes.now) }
    ensures takes_some { (0 < result.1) × (at + result.1 ≤ length bytes.now) }
    ensures keeps_meaning { N.Alphabet.meaning notation.new ≡ N.Alphabet.meaning notation.old }
    ensures keeps_reading { SameReading (N.Notation.reading notation.new) (N.Notation.reading notation.old) }
{
    match sign(bytes[at]) {
        Some(kind) => (kind, 1),
        None => match notation.read(&bytes[at..]) {
            Ok((code, used)) => (Kind::Test(Ok(code)), used),
            Err(cause) => (
                Kind::Test(Err(Misread { cause, offset: at })),
                bytes.len() - at,
            ),
        },
    }
}

// All tokens of a pattern that is not too long. They are put into the caller's table, since to hand one out would copy it.
pub(crate) fn cut<N: Notation>(
    notation: &mut N,
    bytes: &[u8],
    list: &mut ArrayVec<Token, MOST_BYTES>,
)
    requires short { length bytes.now ≤ 120 }
    requires empty { list.old.items ≡ [] }
    ensures value { list.new.items ≡ tokens (N.Notation.reading notation.old) bytes.now }
    ensures few { length list.new.items ≤ 120 }
    ensures keeps_meaning { N.Alphabet.meaning notation.new ≡ N.Alphabet.meaning notation.old }
    ensures keeps_reading { SameReading (N.Notation.reading notation.new) (N.Notation.reading notation.old) }
{
    let mut at = 0;
    // Not a `for`: the notation says how many bytes each token takes, and a token keeps its offset.
    while at < bytes.len() {
        let (kind, used) = first_token(notation, bytes, at);
        list.push(Token { kind, offset: at });
        at += used;
    }
}
