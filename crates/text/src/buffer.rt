// A text that is written piece by piece.
ghost use Rattle.std.specs.Prelude.{◌≤◌};
ghost use Rattle.arrayvec.specs.ArrayVec.{array_vec_len};

use crate::appending::append;
use arrayvec::ArrayVec;

/// A text has room for so many bytes.
pub const ROOM: usize = 4096;

/// The bytes that were written, one piece behind the other. What does not fit is left off.
#[derive(Drop)]
pub struct Text {
    bytes: ArrayVec<u8, ROOM>,
    ghost within: { array_vec_len bytes ≤ 4096 },
}

impl Text {
    ghost use Rattle.std.specs.Prelude.{◌≡◌, [], ◌∷◌, replicate, decimal};
    ghost use Rattle.text.specs.Texts.{written, Adds};

    /// A text with no bytes.
    pub fn new() -> Text
        ensures { written result ≡ [] }
    {
        Text {
            bytes: ArrayVec::new(),
        }
    }

    /// Takes all bytes away.
    pub fn clear(&mut self)
        ensures { written self.new ≡ [] }
    {
        self.bytes.clear();
    }

    /// What was written.
    pub fn bytes(&self) -> &[u8]
        ensures { result.now ≡ written self.now }
    {
        self.bytes.as_slice()
    }

    /// Writes a byte.
    pub fn byte(&mut self, byte: u8)
        ensures { Adds self.old (byte ∷ []) self.new }
    {
        let _ = self.bytes.try_push(byte);
    }

    /// Writes bytes.
    pub fn text(&mut self, bytes: &[u8])
        ensures { Adds self.old bytes.now self.new }
    {
        append(&mut self.bytes, bytes);
    }

    /// Writes a number in decimal digits.
    pub fn number(&mut self, n: u64)
        ensures { Adds self.old (decimal n) self.new }
    {
        let mut digits = itoa::Buffer::new();
        self.text(digits.format(n).as_bytes());
    }

    /// Writes a byte n times.
    pub fn repeat(&mut self, byte: u8, n: usize)
        ensures { Adds self.old (replicate n byte) self.new }
    {
        for _ in 0..n {
            self.byte(byte);
        }
    }
}
