// Proof-reads a list of patterns, one a line: a verdict on each, then a report.
#![tactic(auto)]

use line_input::{Ending, read_line};
use proofreading::FRONT;
use proofreading::proofreader::Proofreader;
use std::io;
use std::io::{BufReader, BufWriter, Write};
use text::buffer::Text;
use text::line::LineBuffer;

fn main(rt: HostRuntime) -> io::Result<()> {
    let mut input = BufReader::new(rt.alloc(), rt.stdin())?;
    let mut output = BufWriter::new(rt.alloc(), rt.stdout())?;
    let mut line: LineBuffer<FRONT> = LineBuffer::new();
    let mut proofreader = Proofreader::new();
    let mut text = Text::new();
    // A loop has to be shown to end, so this one has a bound, which no input reaches.
    for _ in 0..u64::MAX {
        let Some(ending) = read_line(&mut input, &mut output, &mut line)? else {
            break;
        };
        proofreader.proofread(line.bytes(), &mut text);
        output.write_all(text.bytes())?;
        if ending == Ending::EndOfInput {
            break;
        }
    }
    proofreader.report(&mut text);
    output.write_all(text.bytes())?;
    output.flush()
}
