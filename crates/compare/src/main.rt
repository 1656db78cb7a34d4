// Draws problems, solves each by the proved solver and by a plain one, and writes how many agree: the refusal and its place, or the row
// count, the worst case, the order and every cell of the table. Each problem is drawn under both orders of a step. It may be drawn in two
// ways, as with plan words and with what they stand for: then the proved solver has to give the same answer to both. Standard input has a
// line for each kind of problems, in fields parted by tabs: its name, the seed of the first problem, how many are drawn, and what `draw.rt`
// asks for. The answer has a line for each kind and order, with the numbers that `summary.rt` counts. The first problem of a kind and an
// order on which answers differ is written out before it, in both ways. The first line whose end cannot be written is the last.
#![tactic(auto)]

use crate::line::argument;
use crate::summary::{Counts, draw_both, write_names};
use basics::field;
use streams::{AnswersLines, Console, LINES_SIZE, Told, answer_lines};

mod comparing;
mod draw;
mod draw_formula;
mod line;
mod list;
mod plain;
mod plain_beliefs;
mod plain_patterns;
mod plain_ranks;
mod plain_rows;
mod plain_sets;
mod plain_states;
mod summary;

// Draws and compares the problems of a line.
fn run_line(console: Console, line: &[u8]) -> Result<(), Told> {
    let name = field(line, 0);
    let seed = argument(console, line, 1);
    let mut set = Counts::default();
    let mut read = Counts::default();
    for k in 0..argument(console, line, 2) {
        draw_both(console, line, (seed + k) as u64, &mut set, &mut read);
    }
    set.write(console, name, b"\tset")?;
    read.write(console, name, b"\tread")
}

// The program, which takes each line for a kind of problems.
#[derive(Clone, Copy)]
struct Compare<'a> {
    console: Console<'a>,
}

impl AnswersLines for Compare<'_> {
    fn answer_line(&self, line: &[u8]) -> Result<(), Told> {
        run_line(self.console, line)
    }
}

fn run(rt: &HostRuntime, console: Console) -> Result<(), Told> {
    let mut buffer = [0u8; LINES_SIZE];
    let lines = streams::read_lines(console, &mut rt.stdin(), &mut buffer)?;
    write_names(console)?;
    answer_lines(lines, &Compare { console })?;
    console.close_output();
    Ok(())
}

// What failed is told, and the exit status is 0 all the same.
fn main(rt: HostRuntime) {
    let _ = run(&rt, Console::new(&rt, b"compare"));
}
