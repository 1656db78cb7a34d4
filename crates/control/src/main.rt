// Runs a table as a controller, as a shop tries it at the bench: loads the table's text in a file, writes the first choice, and steps with
// each line of standard input, which holds an observation, until the table says stop or the input ends. Under `read` nothing is chosen at
// the start, and each observation gets the choice for its own step. Each line is answered, on standard output, before the next is read. A
// line that is no observation is refused, and the run goes on; a text that is no table is refused, and nothing is read. A failure is told
// on standard error, and not by the exit status.
#![tactic(auto)]

use cabinet::{TEXT_SIZE, load};
use std::fs::Files;
use std::io::Read;
use streams::{Console, Request, Told};
use tables::TABLE_SIZE;

mod dialogue;
mod help;
mod running;

// Runs the table whose text it is.
fn run_text<R: Read>(console: Console, input: &mut R, text: &[u8]) -> Result<(), Told> {
    let mut table = [0u16; TABLE_SIZE];
    match load(text, &mut table) {
        Ok(loaded) => running::run(console, input, &table, loaded.shape),
        Err(r) => running::refuse_text(console, r),
    }
}

// One byte more than the longest text of a table is enough to find the line at fault of any longer one.
fn run_file<F: Files, R: Read>(
    rt: &F,
    console: Console,
    input: &mut R,
    path: &[u8],
) -> Result<(), Told> {
    let mut text = [0u8; TEXT_SIZE + 1];
    let card = streams::read_file(rt, console, path, &mut text)?;
    run_text(console, input, card.bytes(&text))
}

// What is told of an option that there is not.
const NO_OPTION: &[u8] = b"no such option; see control --help";

// Does what the argument asks for.
fn run(rt: &HostRuntime, console: Console) -> Result<(), Told> {
    let mut argument = [0u8; 4096];
    match streams::requested(rt, console, NO_OPTION, &mut argument)? {
        Request::Help => {
            console.say_last(help::TEXT);
            Ok(())
        }
        Request::File(path) => run_file(rt, console, &mut rt.stdin(), path),
        Request::Nothing | Request::Many => Err(console.tell(
            b"arguments",
            b"one is needed; see control --help",
        )),
    }
}

// What failed is told, and the exit status is 0 all the same.
fn main(rt: HostRuntime) {
    let _ = run(&rt, Console::new(&rt, b"control"));
}
