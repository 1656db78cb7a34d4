// Solves a problem, which is read on standard input or in a file, and writes its table, or the refusal, to standard output. A text that was
// not read to its end is not answered, but for number 1, which the byte behind the limit decides. A failure is told on standard error, and
// not by the exit status.
#![tactic(auto)]

use cabinet::TEXT_SIZE;
use game::TABLE_SIZE;
use rules::{SOURCE_LIMIT, WORK_SIZE};
use std::fs::Files;
use std::io::Read;
use streams::{Console, Input, Request, Told};

mod help;

// Writes what is answered to a problem. Its memory has the sizes asked for, so it is not refused as too short.
fn answer(console: Console, source: &[u8]) {
    let mut work = [0u8; WORK_SIZE];
    let mut table = [0u16; TABLE_SIZE];
    let mut text = [0u8; TEXT_SIZE];
    match cabinet::respond(source, &mut work, &mut table, &mut text) {
        Ok(n) => console.say_last(&text[..n]),
        Err(_) => {
            console.tell(b"memory", b"too short");
        }
    }
}

// Solves the problem on standard input: one byte more than a problem may have tells that there may be more of it. The rest of a long problem
// is read once it is answered, so that whoever writes it is not cut off.
fn solve_input<R: Read>(console: Console, input: &mut R) -> Result<(), Told> {
    let mut source = [0u8; SOURCE_LIMIT + 1];
    let problem = streams::read_input(console, input, &mut source)?;
    answer(console, problem.bytes(&source));
    if let Input::Longer = problem {
        streams::drain(input);
    }
    Ok(())
}

// Solves the problem in a file, which is closed once it is answered: whoever writes to a pipe of that name is not cut off before.
fn solve_file<F: Files>(rt: &F, console: Console, path: &[u8]) -> Result<(), Told> {
    let mut source = [0u8; SOURCE_LIMIT + 1];
    let mut file = streams::open(rt, console, path)?;
    let read = streams::read_to_end(&mut file, &mut source);
    let problem = read.map_err(|error| console.fail(path, error))?;
    answer(console, problem.bytes(&source));
    Ok(())
}

// What is told of an option that there is not.
const NO_OPTION: &[u8] = b"no such option; see synth --help";

// Does what the argument asks for, or solves the problem on standard input.
fn run(rt: &HostRuntime, console: Console) -> Result<(), Told> {
    let mut argument = [0u8; 4096];
    match streams::requested(rt, console, NO_OPTION, &mut argument)? {
        Request::Help => {
            console.say_last(help::TEXT);
            Ok(())
        }
        Request::File(path) => solve_file(rt, console, path),
        Request::Nothing => solve_input(console, &mut rt.stdin()),
        Request::Many => Err(console.tell(b"arguments", b"one at most; see synth --help")),
    }
}

// What failed is told, and the exit status is 0 all the same.
fn main(rt: HostRuntime) {
    let _ = run(&rt, Console::new(&rt, b"synth"));
}
