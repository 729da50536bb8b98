// Reads cases from standard input, one a line, makes the calls of the library that they ask for, and prints the answers, so that these can be
// compared with answers that were worked out by other means.
#![tactic(auto)]

use line_input::{Ending, read_line};
use std::io;
use std::io::{BufReader, BufWriter, Write};
use text::line::LineBuffer;

mod cases;
mod cue_answers;
mod desk;
mod failure;
mod shelf_answers;
mod symbols;
mod texts;

use desk::Desk;
use failure::Failure;

// A case has at most 4095 bytes, so one byte more tells that a line is none.
const FRONT: usize = 4096;

fn main(rt: HostRuntime) -> io::Result<()> {
    let mut input = BufReader::new(rt.alloc(), rt.stdin())?;
    let mut output = BufWriter::new(rt.alloc(), rt.stdout())?;
    let mut line: LineBuffer<FRONT> = LineBuffer::new();
    let mut desk = Desk::new(rt.alloc());
    // A loop has to be shown to end, so this one has a bound, which no input reaches.
    for _ in 0..u64::MAX {
        let Some(ending) = read_line(&mut input, &mut output, &mut line)? else {
            break;
        };
        match desk.answer(line.bytes(), &mut output) {
            Ok(()) => {}
            Err(Failure::NoCase) => output.write_all(b"unknown\n")?,
            Err(Failure::Io(error)) => return Err(error),
        }
        if ending == Ending::EndOfInput {
            break;
        }
    }
    output.flush()
}
