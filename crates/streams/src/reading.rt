// Reading an input to its end.
ghost use Rattle.std.specs.Prelude.{length, take, ◌≡◌};
ghost use Rattle.std.specs.Io.{ReadsAtMost};
ghost use Rattle.streams.specs.Reading.{ended_at, read_into, Within};

use crate::arguments::open;
use crate::console::{Console, Told};
use std::fs::Files;
use std::io;
use std::io::{ErrorKind, Read};

// What is known of an input that was read: that it has so many bytes and no more, or that it fills the buffer, so that there may be more.
#[derive(Clone, Copy)]
pub enum Input {
    Whole(usize),
    Longer,
}

// One read, tried again where a signal interrupts it. A proved loop has to end: this one counts down from a number that no run uses up, and
// what is answered then is a failed read.
pub(crate) fn read_some<R: Read>(input: &mut R, buffer: &mut [u8]) -> io::Result<usize>
    ensures { ReadsAtMost result buffer.new }
{
    for _ in 0..u64::MAX {
        match input.read(buffer) {
            Err(error) if error.kind() == ErrorKind::Interrupted => {}
            got => return got,
        }
    }
    Err(io::Error::from(ErrorKind::Interrupted))
}

// What a read that brought no byte tells, behind some bytes: that they are the whole input, or, where it failed, nothing of the kind.
fn ended(got: io::Result<usize>, done: usize) -> io::Result<Input>
    ensures { result ≡ ended_at got done }
{
    got?;
    Ok(Input::Whole(done))
}

// Reads an input to its end. A caller that can use n bytes lends a buffer of n + 1, so that `Longer` says that there are more than n.
pub fn read_to_end<R: Read>(input: &mut R, buffer: &mut [u8]) -> io::Result<Input>
    ensures { Within result buffer.new }
{
    let mut done = 0;
    while done < buffer.len() {
        let got = read_some(input, &mut buffer[done..]);
        match got {
            Ok(0) | Err(_) => return ended(got, done),
            Ok(n) => done += n,
        }
    }
    Ok(Input::Longer)
}

// Reads standard input to its end, as `read_to_end` does. A failure is told.
pub fn read_input<R: Read>(
    console: Console,
    input: &mut R,
    buffer: &mut [u8],
) -> Result<Input, Told>
    ensures { Within result buffer.new }
{
    read_to_end(input, buffer).map_err(|error| console.fail(b"standard input", error))
}

// Reads a file to its end, as `read_to_end` does, and closes it: its descriptor is that of standard input where that was closed. A failure is
// told with the file's name.
pub fn read_file<F: Files>(
    rt: &F,
    console: Console,
    path: &[u8],
    buffer: &mut [u8],
) -> Result<Input, Told>
    ensures { Within result buffer.new }
{
    let mut file = open(rt, console, path)?;
    read_to_end(&mut file, buffer).map_err(|error| console.fail(path, error))
}

// Room for a text of lines: one byte more than it may have.
pub const LINES_SIZE: usize = 65536;

// A text of lines on standard input. Nothing is made of a part of it: one that fills the buffer may go on.
pub fn read_lines<'a, R: Read>(
    console: Console,
    input: &mut R,
    buffer: &'a mut [u8; LINES_SIZE],
) -> Result<&'a [u8], Told> {
    match read_input(console, input, buffer)? {
        Input::Whole(n) => Ok(&buffer[..n]),
        Input::Longer => Err(console.tell(b"standard input", b"over 65,535 bytes")),
    }
}

// The first n bytes of a buffer, or all where there are fewer: what was read, for a caller that has no proof that there are so many.
pub fn first(buffer: &[u8], n: usize) -> &[u8]
    ensures { result.now ≡ take n buffer.now }
{
    if n < buffer.len() {
        return &buffer[..n];
    }
    buffer
}

impl Input {
    // What was read into a buffer.
    pub fn bytes(self, buffer: &[u8]) -> &[u8]
        ensures { result.now ≡ read_into self buffer.now }
    {
        match self {
            Input::Whole(n) => first(buffer, n),
            Input::Longer => buffer,
        }
    }
}

// Reads the rest of an input, up to its end or a read that fails, so that whoever writes it is not cut off.
pub fn drain<R: Read>(input: &mut R) {
    let _ = io::copy(input, &mut io::sink());
}
