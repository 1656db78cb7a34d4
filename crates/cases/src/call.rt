// The calls, on memory that holds ones before and is looked at afterwards.
use crate::answer::{moved, printed, solved, verdict};
use crate::cards::{card, fill, ladder, load, prefixes};
use crate::line::{Case, read_numbers, read_text};
use crate::memory::{look_at, look_at_work, ones};
use crate::parts::{judge_list, list};
use cabinet::Position;
use game::TABLE_SIZE;
use rules::WORK_SIZE;
use streams::Console;

fn judge(console: Console, source: &[u8], trace: &[u16], work: &mut [u8]) {
    verdict(console, rules::judge(source, trace, work));
    look_at_work(console, work, work.len() < WORK_SIZE);
}

// Solves a problem, and looks at the memory that was lent.
fn solve_in(console: Console, source: &[u8], cells: &[u16], work: &mut [u8], table: &mut [u16]) {
    solved(console, game::solve(source, work, table));
    let short = (work.len() < WORK_SIZE) | (table.len() < TABLE_SIZE);
    look_at_work(console, work, short);
    look_at(console, table, cells, 1);
}

fn solve(case: Case, source: &[u8], cells: &[u16], work: &mut [u8]) {
    let mut table = [1u16; TABLE_SIZE];
    let n = TABLE_SIZE - case.argument(5) % TABLE_SIZE;
    solve_in(case.console, source, cells, work, &mut table[..n]);
}

fn print(case: Case, expected: &[u8], table: &[u16], text: &mut [u8]) {
    let shape = case.shape_at(5, 7, 8);
    let worst = case.argument(6);
    printed(case.console, cabinet::print(table, shape, worst, text));
    look_at(case.console, text, expected, 1);
}

// The row and the choice before.
fn position(case: Case) -> Position {
    Position {
        row: case.argument(7),
        choice: case.argument(8) as u16,
    }
}

fn start(case: Case, table: &[u16]) {
    let shape = case.shape_at(5, 6, 10);
    let m = cabinet::start_from(table, shape, position(case));
    moved(case.console, table, shape, m);
}

fn step(case: Case, table: &[u16]) {
    let shape = case.shape_at(5, 6, 10);
    let m = cabinet::step_from(table, shape, case.argument(9), position(case));
    moved(case.console, table, shape, m);
}

// Makes the call.
fn call_in(case: Case, text: &[u8], cells: &[u16], memory: &mut [u8]) {
    match case.field(1) {
        b"judge" => judge(case.console, text, cells, memory),
        b"solve" => solve(case, text, cells, memory),
        b"print" => print(case, text, cells, memory),
        b"start" => start(case, cells),
        b"step" => step(case, cells),
        b"list" => list(case, text, cells),
        b"judge-list" => judge_list(case, cells),
        b"load" => load(case, text, cells),
        b"prefixes" => prefixes(case.console, text, cells),
        b"card" => card(case.console, text, memory),
        b"fill" => fill(case, cells),
        b"ladder" => ladder(case, cells),
        _ => case.console.say_wrong(),
    }
}

// Makes the call with as much memory as the line says.
fn call_with(case: Case, text: &[u8], cells: &[u16]) {
    let mut memory = ones();
    let n = WORK_SIZE - case.argument(4);
    call_in(case, text, cells, &mut memory[..n]);
}

// Makes the call of a case, with its text and its list of numbers, and writes what is answered.
pub(crate) fn call(case: Case) {
    let mut text = [0u8; 65536];
    let mut cells = [0u16; TABLE_SIZE];
    call_with(
        case,
        read_text(case.console, case.field(2), &mut text),
        read_numbers(case.console, case.field(3), &mut cells),
    );
}
