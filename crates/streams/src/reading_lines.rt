// Reading an input line by line. It is read a byte at a time, and so never behind a line's end: a line can be answered before the next
// one is there.
ghost use Rattle.std.specs.Prelude.{◌≡◌};
ghost use Rattle.streams.specs.Lines.{line_ended_at, LineWithin};

use crate::reading::read_some;
use basics::LINE_END;
use std::io;
use std::io::Read;

// What is known of a line that was read: that it has so many bytes, its end not counted; that it fills the buffer, so that there may be
// more; or that there is none, since the input has ended.
#[derive(Clone, Copy)]
pub enum Line {
    Given(usize),
    Long,
    End,
}

// What a read that brought no byte tells, behind some bytes of a line: the last line may have no end. A failed read ends no line.
fn line_ended(got: io::Result<usize>, done: usize) -> io::Result<Line>
    ensures { result ≡ line_ended_at got done }
{
    got?;
    if done == 0 {
        return Ok(Line::End);
    }
    Ok(Line::Given(done))
}

// Reads a line. A caller that can use n bytes lends a buffer of n + 1: `Long` then says that the line has more than n. Its rest is still to
// be read, with its end.
pub fn read_line<R: Read>(input: &mut R, buffer: &mut [u8]) -> io::Result<Line>
    ensures { LineWithin result buffer.new }
{
    for i in 0..buffer.len() {
        let mut byte = [0u8; 1];
        let got = read_some(input, &mut byte);
        if let Ok(0) | Err(_) = got {
            return line_ended(got, i);
        }
        if byte[0] == LINE_END {
            return Ok(Line::Given(i));
        }
        buffer[i] = byte[0];
    }
    Ok(Line::Long)
}

// Reads the rest of a long line, with its end.
pub fn skip_line<R: Read>(input: &mut R) -> io::Result<()> {
    for byte in input.by_ref().bytes() {
        if byte? == LINE_END {
            return Ok(());
        }
    }
    Ok(())
}
