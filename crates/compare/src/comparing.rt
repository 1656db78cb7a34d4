// Both solvers on one problem, which may be written in two ways.
use crate::draw_formula::Text;
use crate::plain;
use crate::plain::{Answer, Solved, Table};
use basics::same;
use game::solve;
use rules::{Refusal, SOURCE_LIMIT, WORK_SIZE};
use tables::TABLE_SIZE;

// Room for a text: one byte more than a problem may have.
pub const ROOM: usize = SOURCE_LIMIT + 1;

// What every cell of the table holds before the call.
const BEFORE: u16 = 1;

// What the plain solver answers; whether the proved one agrees, on both texts; and whether these differ.
#[derive(Clone, Copy)]
pub struct Compared {
    pub answer: Answer,
    pub agrees: bool,
    pub texts_differ: bool,
}

// The answer of the proved solver, told as the plain one tells it.
fn told(s: Result<tables::Table, Refusal>) -> Answer {
    let t = s?;
    Ok(Solved {
        rows: t.shape.rows,
        worst_case: t.worst_case,
        order: t.shape.order,
    })
}

// Whether the proved solver answers a text so, leaves a table with these cells, and no trace in work memory.
fn answers(text: &[u8], answer: Answer, cells: &Table) -> bool {
    let mut work = [1u8; WORK_SIZE];
    let mut table = [BEFORE; TABLE_SIZE];
    let own = told(solve(text, &mut work, &mut table));
    own == answer && work == [0; WORK_SIZE] && table == *cells
}

// Whether it answers a second text so too, where the texts differ.
fn answers_too(text: &[u8], other: &[u8], answer: Answer, cells: &Table) -> bool {
    same(text, other) || answers(other, answer, cells)
}

// Solves a text by both, and a second text of the same problem by the proved solver alone.
pub(crate) fn compare(text: &[u8], other: &[u8]) -> Compared {
    let mut cells = [BEFORE; TABLE_SIZE];
    let answer = plain::solve(text, &mut cells);
    Compared {
        answer,
        agrees: answers(text, answer, &cells) & answers_too(text, other, answer, &cells),
        texts_differ: !same(text, other),
    }
}

// Turns hidden signals into observed ones. In a text that is read without refusal a tab stands behind a line's first word alone.
pub(crate) fn observe(text: &mut Text) {
    for i in 3..text.count {
        if same(&text.items[i - 3..i + 1], b"hid\t") {
            text.items[i - 3..i].copy_from_slice(b"see");
        }
    }
}
