// The calls that pass parts by value. A part is written as three numbers: the byte of its operator, its left and its right number.
ghost use Rattle.std.specs.Prelude.{◌<◌};
ghost use Rattle.formula.specs.Limits.{part_limit};

use crate::answer::{reading, verdict};
use crate::line::{Case, read_numbers};
use lines::{PART_LIMIT, Sizes};
use records::PartList;
use streams::Console;

// Number k of a list, as a byte; 0 behind its end.
fn byte_at(console: Console, numbers: &[u16], k: usize) -> u8 {
    match u8::try_from(numbers.get(k).copied().unwrap_or(0)) {
        Ok(b) => b,
        Err(_) => {
            console.say_wrong();
            0
        }
    }
}

// The number that holds part i of a list.
fn code_at(console: Console, numbers: &[u16], i: usize) -> u32
    requires { i < part_limit }
{
    u32::from_le_bytes([
        byte_at(console, numbers, 3 * i),
        byte_at(console, numbers, 3 * i + 1),
        byte_at(console, numbers, 3 * i + 2),
        0,
    ])
}

// The parts of a list, with zeros behind them.
fn codes_of(console: Console, numbers: &[u16]) -> [u32; PART_LIMIT] {
    let mut codes = [0u32; PART_LIMIT];
    for i in 0..PART_LIMIT {
        codes[i] = code_at(console, numbers, i);
    }
    codes
}

// Says so at the first of the numbers that does not hold the part of a list.
fn look_at_parts(console: Console, codes: &[u32; PART_LIMIT], numbers: &[u16]) {
    for i in 0..PART_LIMIT {
        if codes[i] != code_at(console, numbers, i) {
            return console.say_wrong();
        }
    }
}

// Lists the parts of a problem, and looks at them.
pub(crate) fn list(case: Case, source: &[u8], numbers: &[u16]) {
    let l = records::list_parts(source, case.argument(5));
    let r = l.reading;
    reading(case.console, r);
    look_at_parts(case.console, &l.codes, numbers);
}

// Judges a trace by the parts of a list.
fn judge_by(case: Case, numbers: &[u16], trace: &[u16]) {
    let s = Sizes {
        outputs: case.argument(6),
        observed: case.argument(7),
        hidden: case.argument(8),
        parts: case.argument(9),
        operators: 0,
        order: None,
    };
    let l = PartList {
        codes: codes_of(case.console, numbers),
    };
    let room = case.argument(5);
    verdict(case.console, records::judge_list(l, room, s, trace));
}

pub(crate) fn judge_list(case: Case, trace: &[u16]) {
    let mut numbers = [0u16; 3 * PART_LIMIT];
    let parts = read_numbers(case.console, case.field(10), &mut numbers);
    judge_by(case, parts, trace);
}
