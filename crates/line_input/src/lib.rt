//! Lines of an input, one after another.
#![tactic(auto)]

ghost use Rattle.std.specs.Prelude.{◌≡◌, ◌⊎◌, ◌↔◌, true, false, nat_lt, length, [], ◌++◌, take, drop, None, Some, is_some, IfSome, IfOk, OnOk};
ghost use Rattle.std.specs.Io.Buffered.{reader_buffer, reader_inner, reader_remaining, writer_buffer, writer_contents};
ghost use Rattle.std.specs.Io.BufRead.{DropsConsumable};
ghost use Rattle.std.specs.Io.KnownBytes.{Keeps, IsAtEnd};
ghost use Rattle.text.specs.Lines.{held, front, through, ends, CutsAnywhere};
ghost use Rattle.line_input.specs.Inputs.{LeavesBoth, ReadsFirst};

use std::io;
use std::io::{BufRead, BufReader, BufWriter, Error, ErrorKind, Read, Write};
use text::line::LineBuffer;

#[cfg(test)]
mod tests;

/// What ended a line.
#[derive(Clone, Copy, Debug, PartialEq, Eq)]
pub enum Ending {
    /// A line feed. Another line may follow.
    LineFeed,
    /// The end of the input: it was the last line, and lacks its line feed. Who asks again waits, on a terminal, until its input is ended once
    /// more.
    EndOfInput,
}

/// Reads the front of the next line, as many of its bytes as the line buffer holds, and says what ended it, or that there is no line. A last
/// line may lack its line feed. Before input is waited for, the output is written out, so that what was asked last is answered.
/// `kept`, `there`, `ended` and `rest` speak of a reader that tells its contract which bytes it has left; the body can't know which do. The
/// other clauses speak of any.
pub fn read_line<const MOST: usize, R: Read, W: Write + Drop>(
    input: &mut BufReader<R>,
    output: &mut BufWriter<W>,
    line: &mut LineBuffer<MOST>,
) -> io::Result<Option<Ending>>
    ensures kept { OnOk result (IfSome (reader_remaining R.remaining input.old) (λ xs. held line.new ≡ take MOST (front xs))) }
    ensures there { IfOk result (λ ending. IfSome (reader_remaining R.remaining input.old) (λ xs. is_some ending ≡ nat_lt 0 (length xs))) }
    ensures ended { IfOk result (λ ending. IfSome (reader_remaining R.remaining input.old) (λ xs. (ending ≡ Some Ending.LineFeed) ↔ (ends xs ≡ true))) }
    ensures rest { OnOk result (IfSome (reader_remaining R.remaining input.old) (λ xs.
        reader_remaining R.remaining input.new ≡ Some (drop (through xs) xs))) }
    ensures none { IfOk result (λ ending. ending ≡ None → held line.new ≡ []) }
    ensures at_hand { ends (reader_buffer input.old) ≡ true → ReadsFirst MOST (reader_buffer input.old) (reader_buffer input.new) (held line.new) result }
    ensures unwritten { ends (reader_buffer input.old) ≡ true → output.new ≡ output.old }
    ensures flushed { ends (reader_buffer input.old) ≡ false → OnOk result (writer_buffer output.new ≡ []) }
    ensures written { Keeps (writer_contents W.contents output.old) (writer_contents W.contents output.new) }
{
    line.clear();
    let mut there = false;
    // A loop has to be shown to end, so this one has a bound, which no input reaches: past it there is an error.
    for _ in 0..u64::MAX {
        wait_for_input(input, output)?;
        let (n, ended) = take_chunk(input, line);
        if ended {
            return Ok(Some(Ending::LineFeed));
        }
        if n == 0 {
            return Ok(there.then_some(Ending::EndOfInput));
        }
        there = true;
    }
    Err(Error::from(ErrorKind::TimedOut))
}

// Where no input is held, writes out the output and waits for more. None is held afterwards only at the input's end. The reader is asked last:
// either it is as it was, or the output is written out, also where there is an error.
fn wait_for_input<R: Read, W: Write + Drop>(
    input: &mut BufReader<R>,
    output: &mut BufWriter<W>,
) -> io::Result<()>
    ensures held { nat_lt 0 (length (reader_buffer input.old)) ≡ true → LeavesBoth input.old input.new output.old output.new result }
    ensures kept { OnOk result (Keeps (reader_remaining R.remaining input.old) (reader_remaining R.remaining input.new)) }
    ensures end { OnOk result (reader_buffer input.new ≡ [] → IsAtEnd (reader_remaining R.remaining input.old)) }
    ensures flushed { reader_buffer input.old ≡ [] → OnOk result (writer_buffer output.new ≡ []) }
    ensures asked_last { (reader_inner input.new ≡ reader_inner input.old) ⊎ (writer_buffer output.new ≡ []) }
    ensures written { Keeps (writer_contents W.contents output.old) (writer_contents W.contents output.new) }
{
    if input.buffer().is_empty() {
        output.flush()?;
        input.fill_buf()?;
    }
    Ok(())
}

// Takes the input that is held, up to its first line feed. Answers how many bytes those are, and whether the line ended.
fn take_chunk<const MOST: usize, R: Read>(
    input: &mut BufReader<R>,
    line: &mut LineBuffer<MOST>,
) -> (usize, bool)
    ensures count { result.0 ≡ through (reader_buffer input.old) }
    ensures ended { result.1 ≡ ends (reader_buffer input.old) }
    ensures held { held line.new ≡ take MOST (held line.old ++ front (reader_buffer input.old)) }
    ensures buffer { reader_buffer input.new ≡ drop (through (reader_buffer input.old)) (reader_buffer input.old) }
    ensures rest { DropsConsumable (reader_remaining R.remaining input.old) (reader_remaining R.remaining input.new)
        (Some (length (reader_buffer input.old))) (through (reader_buffer input.old)) }
    ensures cuts { CutsAnywhere MOST }
{
    let chunk = input.buffer();
    let (n, ended) = match line.take_in(chunk) {
        Some(n) => (n, true),
        None => (chunk.len(), false),
    };
    input.consume(n);
    (n, ended)
}
