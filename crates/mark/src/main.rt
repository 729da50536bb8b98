// Takes orders to a shelf of letters, one a line, and prints the answer to each.
#![tactic(auto)]

use line_input::{Ending, read_line};
use marking::marker::Marker;
use orders::order::FRONT;
use std::io;
use std::io::{BufReader, BufWriter, Write};
use text::buffer::Text;
use text::line::LineBuffer;

fn main(rt: HostRuntime) -> io::Result<()> {
    let mut input = BufReader::new(rt.alloc(), rt.stdin())?;
    let mut output = BufWriter::new(rt.alloc(), rt.stdout())?;
    let mut line: LineBuffer<FRONT> = LineBuffer::new();
    let mut marker = Marker::new();
    let mut text = Text::new();
    // A loop has to be shown to end, so this one has a bound, which no input reaches.
    for _ in 0..u64::MAX {
        let Some(ending) = read_line(&mut input, &mut output, &mut line)? else {
            break;
        };
        marker.answer(line.bytes(), &mut text);
        output.write_all(text.bytes())?;
        if ending == Ending::EndOfInput {
            break;
        }
    }
    output.flush()
}
