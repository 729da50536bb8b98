// The front of an input line, as many of its bytes as are wanted, taken from the input chunk by chunk.
ghost use Rattle.std.specs.Prelude.{◌≡◌, ◌≤◌, position, ◌==◌};
ghost use Rattle.arrayvec.specs.ArrayVec.{array_vec_len};

use crate::appending::append;
use arrayvec::ArrayVec;

/// The front of a line: as many of its bytes as are wanted.
// Beside `Text`, which it is like but for the room: what they share is `ArrayVec` and `append`, and one generic type would hand each the
// other's methods.
#[derive(Drop)]
pub struct LineBuffer<const MOST: usize> {
    bytes: ArrayVec<u8, MOST>,
    ghost within: { array_vec_len bytes ≤ MOST },
}

// Where the first line feed stands, if there is one.
fn line_feed(chunk: &[u8]) -> Option<usize>
    ensures { result ≡ position (λ b. b == 10) chunk.now }
{
    chunk.iter().position(|b| *b == b'\n')
}

impl<const MOST: usize> LineBuffer<MOST> {
    ghost use Rattle.std.specs.Prelude.{[], ◌++◌, length, take, is_some, MatchOption};
    ghost use Rattle.text.specs.Lines.{held, front, through, ends, CutsAnywhere};

    /// Nothing is held.
    pub fn new() -> LineBuffer<MOST>
        ensures { held result ≡ [] }
    {
        LineBuffer {
            bytes: ArrayVec::new(),
        }
    }

    /// Takes all that is held away.
    pub fn clear(&mut self)
        ensures { held self.new ≡ [] }
    {
        self.bytes.clear();
    }

    /// What is held of the line.
    pub fn bytes(&self) -> &[u8]
        ensures { result.now ≡ held self.now }
    {
        self.bytes.as_slice()
    }

    /// Takes the bytes before the chunk's first line feed. Where the line ends there, answers how many bytes of the chunk
    /// are done with; else the whole chunk is. Where the input was cut into chunks makes no difference.
    pub fn take_in(&mut self, chunk: &[u8]) -> Option<usize>
        ensures kept { held self.new ≡ take MOST (held self.old ++ front chunk.now) }
        ensures count { MatchOption result (through chunk.now ≡ length chunk.now) (λ n. n ≡ through chunk.now) }
        ensures ended { is_some result ≡ ends chunk.now }
        ensures cuts { CutsAnywhere MOST }
    {
        match line_feed(chunk) {
            Some(n) => {
                append(&mut self.bytes, &chunk[..n]);
                Some(n + 1)
            }
            None => {
                append(&mut self.bytes, chunk);
                None
            }
        }
    }
}
