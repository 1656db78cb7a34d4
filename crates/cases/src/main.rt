// Runs cases through the public calls, and writes for each a line with its name and what was answered, which the file `stdout` must have.
// Standard input has a case on each line, in fields parted by tabs; those behind the last that is given count as empty, and a number that
// is not given is 0:
//
//     name, judge, the problem, the trace, how many of the 65,536 bytes of memory are not lent
//     name, solve, the problem, the table afterwards, bytes not lent, how many of the table's 8,704 cells are not lent
//     name, print, the text afterwards, the table, bytes not lent, rows, worst case, observed signals, order
//     name, start, nothing, the table, 0, rows, observed signals, row and choice before, 0, order
//     name, step, nothing, the table, 0, rows, observed signals, row and choice before, observation, order
//     name, list, the problem, its parts, 0, records lent
//     name, judge-list, nothing, the trace, 0, records lent, signals of each kind, parts counted, the parts
//     name, load, the text, the table afterwards, 0, how many of the table's 8,704 cells are not lent
//     name, prefixes, the text, the table afterwards: each proper beginning is loaded before, and the refusals' places are told
//     name, card, the problem: the table that solves it is printed, and its text is loaded
//     name, fill, nothing, the cells of a row, 0, rows, worst case, observed signals, order: the same with a table of equal rows
//     name, ladder, the fields of `fill`: the same with rows of falling ranks, the last of which stops. A next row of the row that is given
//         says how many rows further down it is, but not past the last
//
// `line.rt` says how a text, a list of numbers and an order are written, `parts.rt` how parts are. Lent memory holds ones before a call, and
// all of it is looked at afterwards: the answer has the field `wrong` where it is not as it should be, or where the line is not of this
// form. A table that was loaded is printed again, which has to give its text. The first case whose line's end cannot be written is the last.
#![tactic(auto)]

use crate::line::Case;
use streams::{AnswersLines, Console, LINES_SIZE, Told, answer_lines};

mod answer;
mod call;
mod cards;
mod line;
mod memory;
mod parts;

// Runs the case of a line.
fn run_line(console: Console, line: &[u8]) -> Result<(), Told> {
    let case = Case { console, line };
    console.say_part(case.field(0));
    call::call(case);
    console.say(b"\n")
}

// The program, which takes each line for a case.
#[derive(Clone, Copy)]
struct Cases<'a> {
    console: Console<'a>,
}

impl AnswersLines for Cases<'_> {
    fn answer_line(&self, line: &[u8]) -> Result<(), Told> {
        run_line(self.console, line)
    }
}

fn run(rt: &HostRuntime, console: Console) -> Result<(), Told> {
    let mut buffer = [0u8; LINES_SIZE];
    let lines = streams::read_lines(console, &mut rt.stdin(), &mut buffer)?;
    answer_lines(lines, &Cases { console })?;
    console.close_output();
    Ok(())
}

// What failed is told, and the exit status is 0 all the same.
fn main(rt: HostRuntime) {
    let _ = run(&rt, Console::new(&rt, b"cases"));
}
