// Lines of inputs that come in pieces.
use crate::{Ending, read_line};
use std::alloc::Global;
use std::io;
use std::io::{BufReader, BufWriter, Error, ErrorKind, Read, Write};
use std::test::Fail;
use text::line::LineBuffer;

// An input that gives at most so many bytes at a time, and counts how often it was asked. A broken one fails at its end.
#[derive(Drop)]
struct Pieces<'a> {
    left: &'a [u8],
    most: usize,
    asked: u64,
    broken: bool,
}

impl Read for Pieces<'_> {
    fn read(&mut self, buf: &mut [u8]) -> io::Result<usize> {
        self.asked = self.asked.wrapping_add(1);
        if self.broken && self.left.is_empty() {
            return Err(Error::from(ErrorKind::UnexpectedEof));
        }
        let n = self.left.len().min(self.most).min(buf.len());
        buf[..n].copy_from_slice(&self.left[..n]);
        self.left = &self.left[n..];
        Ok(n)
    }
}

// An output that counts how often it was written out.
#[derive(Drop)]
struct Counter {
    flushes: u64,
}

impl Write for Counter {
    fn write(&mut self, buf: &[u8]) -> io::Result<usize> {
        Ok(buf.len())
    }

    fn flush(&mut self) -> io::Result<()> {
        self.flushes = self.flushes.wrapping_add(1);
        Ok(())
    }
}

// Whether the input has these lines and no more, the last of which ends so, and the output was written out each time before the input was
// asked.
fn has_lines(
    alloc: Global,
    whole: &[u8],
    most: usize,
    lines: &[&[u8]],
    last: Ending,
) -> io::Result<bool> {
    let pieces = Pieces {
        left: whole,
        most,
        asked: 0,
        broken: false,
    };
    let mut input = BufReader::new(alloc, pieces)?;
    let mut output = BufWriter::new(alloc, Counter { flushes: 0 })?;
    let mut line: LineBuffer<201> = LineBuffer::new();
    for (k, due) in lines.iter().enumerate() {
        output.write_all(b"?")?;
        let ending = read_line(&mut input, &mut output, &mut line)?;
        let wanted = if k + 1 < lines.len() {
            Ending::LineFeed
        } else {
            last
        };
        if ending != Some(wanted) || line.bytes() != *due {
            return Ok(false);
        }
        if input.get_ref().asked != output.get_ref().flushes {
            return Ok(false);
        }
    }
    let ending = read_line(&mut input, &mut output, &mut line)?;
    Ok(ending == None && line.bytes().is_empty() && output.buffer().is_empty())
}

// The same whether the input comes byte by byte, in threes or as a whole.
fn always_has_lines(
    alloc: Global,
    whole: &[u8],
    lines: &[&[u8]],
    last: Ending,
) -> io::Result<bool> {
    Ok(
        has_lines(alloc, whole, 1, lines, last)?
            && has_lines(alloc, whole, 3, lines, last)?
            && has_lines(alloc, whole, 8192, lines, last)?,
    )
}

#[test]
fn lines(rt: HostRuntime) -> Result<(), Fail> {
    let alloc = rt.alloc();
    assert!(rt; always_has_lines(alloc, b"", &[], Ending::LineFeed)?);
    assert!(rt; always_has_lines(alloc, b"\n", &[b""], Ending::LineFeed)?);
    assert!(rt; always_has_lines(alloc, b"ab\ncd\n", &[b"ab", b"cd"], Ending::LineFeed)?);
    let unended: &[&[u8]] = &[b"ab", b"", b"", b"cd"];
    assert!(rt; always_has_lines(alloc, b"ab\n\n\ncd", unended, Ending::EndOfInput)?);
    assert!(rt; always_has_lines(alloc, b"ab", &[b"ab"], Ending::EndOfInput)?);
    assert!(rt; always_has_lines(alloc, b"a\r\n", &[b"a\r"], Ending::LineFeed)?);
    Ok(())
}

#[test]
fn long_line(rt: HostRuntime) -> Result<(), Fail> {
    let alloc = rt.alloc();
    let mut whole = [b'a'; 9000];
    whole[8900] = b'\n';
    let lines: &[&[u8]] = &[&[b'a'; 201], &[b'a'; 99]];
    assert!(rt; always_has_lines(alloc, &whole, lines, Ending::EndOfInput)?);
    Ok(())
}

// A line that came whole is read; of the next, the answer is the input's own error.
#[test]
fn broken_input(rt: HostRuntime) -> Result<(), Fail> {
    let alloc = rt.alloc();
    let pieces = Pieces {
        left: b"ab\ncd",
        most: 8192,
        asked: 0,
        broken: true,
    };
    let mut input = BufReader::new(alloc, pieces)?;
    let mut output = BufWriter::new(alloc, Counter { flushes: 0 })?;
    let mut line: LineBuffer<201> = LineBuffer::new();
    assert!(rt; read_line(&mut input, &mut output, &mut line)? == Some(Ending::LineFeed));
    assert!(rt; line.bytes() == b"ab".as_slice());
    match read_line(&mut input, &mut output, &mut line) {
        Ok(_) => assert!(rt; false),
        Err(error) => assert!(rt; error.kind() == ErrorKind::UnexpectedEof),
    }
    Ok(())
}
