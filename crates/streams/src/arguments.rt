// The program's arguments, and files by name.
ghost use Rattle.std.specs.Prelude.{◌≡◌};
ghost use Rattle.streams.specs.Arguments.{AsksFor, Held, NamesFile, is_help, is_option};

use crate::console::{Console, Told};
use basics::same;
use std::env::{Env, FillError};
use std::fs::{File, Files};
use std::str;

// Puts an argument into a buffer; the program's own first has number 1. An empty one is given.
pub fn argument_at<E: Env>(rt: &E, i: usize, buffer: &mut [u8]) -> Result<usize, FillError>
    ensures { Held result buffer.new }
{
    rt.arg(i, buffer)
}

// Whether an argument asks for help.
pub fn is_help(argument: &[u8]) -> bool
    ensures { result ≡ is_help argument.now }
{
    same(argument, b"--help") || same(argument, b"-h")
}

// Whether an argument is an option, and no file's name.
pub fn is_option(argument: &[u8]) -> bool
    ensures { result ≡ is_option argument.now }
{
    matches!(argument, [b'-', ..])
}

// What a program's arguments ask for.
pub enum Request<'a> {
    Help,
    File(&'a [u8]),
    // no argument
    Nothing,
    // more than one argument
    Many,
}

// What an argument asks for. Help is the only option; `no_option` is told of another.
fn request_by<'a>(
    console: Console,
    no_option: &[u8],
    argument: &'a [u8],
) -> Result<Request<'a>, Told>
    ensures { AsksFor argument.now result }
{
    if is_help(argument) {
        return Ok(Request::Help);
    }
    if is_option(argument) {
        return Err(console.tell(argument, no_option));
    }
    Ok(Request::File(argument))
}

// What a program's arguments ask for; one is put into the buffer. `no_option` is told of an option that the program does not have.
pub fn requested<'a, E: Env>(
    rt: &E,
    console: Console,
    no_option: &[u8],
    buffer: &'a mut [u8],
) -> Result<Request<'a>, Told>
    ensures { NamesFile result }
{
    if !matches!(argument_at(rt, 2, &mut []), Err(FillError::NotPresent)) {
        return Ok(Request::Many);
    }
    match argument_at(rt, 1, buffer) {
        Ok(n) => request_by(console, no_option, &buffer[..n]),
        Err(FillError::NotPresent) => Ok(Request::Nothing),
        Err(FillError::TooLong) => Err(console.tell(b"argument", b"File name too long")),
    }
}

// Opens a file for reading. A failure is told with the file's name, which has to be UTF-8.
pub fn open<F: Files>(rt: &F, console: Console, path: &[u8]) -> Result<F::File, Told> {
    let Ok(name) = str::from_utf8(path) else {
        return Err(console.tell(path, b"no UTF-8 text"));
    };
    File::open(rt, name).map_err(|error| console.fail(path, error))
}
