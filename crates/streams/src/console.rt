// Where a program writes its answers and tells its failures.
use std::alloc::{AllocError, Global};
use std::io::{Error, ErrorKind, Stderr, Stdout, Write};

// What a program writes to, and its name, which begins what it tells. The allocator holds the text of a failure.
#[derive(Clone, Copy)]
pub struct Console<'a> {
    pub program: &'a [u8],
    pub output: Stdout,
    pub errors: Stderr,
    pub alloc: Global,
}

// A failure that standard error has been told of.
#[derive(Clone, Copy)]
pub struct Told;

// The system's words for a failure, without the number that std puts behind them.
fn words_of(text: &str) -> &str {
    match text.split_once(" (os error ") {
        Some((words, _)) => words,
        None => text,
    }
}

// A write that takes no byte is told by the name of its kind, and not in std's words for a text that was not written whole.
fn plain(error: Error) -> Error {
    match error.kind() {
        ErrorKind::WriteZero => Error::from(ErrorKind::WriteZero),
        _ => error,
    }
}

impl<'a> Console<'a> {
    pub fn new(rt: &HostRuntime, program: &'a [u8]) -> Self {
        Console {
            program,
            output: rt.stdout(),
            errors: rt.stderr(),
            alloc: rt.alloc(),
        }
    }

    // Writes to standard error. Where that takes nothing, nothing more can be done.
    fn put(self, text: &[u8]) {
        let mut errors = self.errors;
        let _ = errors.write_all(text);
    }

    fn start_line(self, what: &[u8]) {
        self.put(self.program);
        self.put(b": ");
        self.put(what);
        self.put(b": ");
    }

    // Writes why a call of the system failed.
    fn put_reason(self, error: Error) -> Result<(), AllocError> {
        let text = format!(in self.alloc; "{error}")?;
        self.put(words_of(text.as_str()).as_bytes());
        Ok(())
    }

    // Tells that a call of the system failed: at what, and why.
    pub fn fail(self, what: &[u8], error: Error) -> Told {
        self.start_line(what);
        let _ = self.put_reason(error);
        self.put(b"\n");
        Told
    }

    // Tells what is wrong with what the program was given, or with its arguments.
    pub fn tell(self, what: &[u8], why: &[u8]) -> Told {
        self.start_line(what);
        self.put(why);
        self.put(b"\n");
        Told
    }

    // Writes a text to standard output. A failure is told; a part of the text may have been written. `Print`, which a method call would take,
    // gives up where signals interrupt it often.
    pub fn say(self, text: &[u8]) -> Result<(), Told> {
        let mut output = self.output;
        let written = Write::write_all(&mut output, text);
        written.map_err(|error| self.fail(b"standard output", plain(error)))
    }

    // Writes a number in base ten, as `say` writes a text.
    pub fn say_number(self, n: u64) -> Result<(), Told> {
        let mut digits = [0u8; 20];
        let k = io::decimal(n, &mut digits);
        self.say(&digits[..k])
    }

    // Hands on what standard output still holds behind the last text. A failure is told.
    pub fn close_output(self) {
        let mut output = self.output;
        if let Err(error) = output.flush() {
            self.fail(b"standard output", error);
        }
    }

    // Writes the last text, as `say` does, and hands on what standard output still holds.
    pub fn say_last(self, text: &[u8]) {
        if self.say(text).is_ok() {
            self.close_output();
        }
    }
}
