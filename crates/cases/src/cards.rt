// Tables and their texts: what is loaded is printed again, and what is printed is loaded again.
ghost use Rattle.std.specs.Prelude.{◌<◌};

use crate::answer::{fault, loaded, printed, solved};
use crate::line::Case;
use crate::memory::{look_at, look_at_work, ones};
use basics::Order;
use game::{Shape, TABLE_SIZE, Table};
use rules::Refusal;
use streams::{Console, first};
use tables::{SIDE_LIMIT, STOP, rank_at, row_size};

// What loading a text answers.
type Loaded = Result<Table, Refusal>;

// Says so where the print of a table is not its text.
fn look_at_print(console: Console, t: Table, cells: &[u16], text: &[u8]) {
    let mut memory = ones();
    let _ = cabinet::print(cells, t.shape, t.worst_case, &mut memory);
    look_at(console, &memory, text, 1);
}

// Loads a text, and looks at the table that was lent.
fn load_in(console: Console, text: &[u8], expected: &[u16], cells: &mut [u16]) -> Loaded {
    let l = cabinet::load(text, cells);
    look_at(console, cells, expected, 1);
    if let Ok(t) = l {
        look_at_print(console, t, cells, text);
    }
    l
}

// The same with a table of all cells.
fn load_whole(console: Console, text: &[u8], expected: &[u16]) -> Loaded {
    let mut cells = [1u16; TABLE_SIZE];
    load_in(console, text, expected, &mut cells)
}

pub(crate) fn load(case: Case, text: &[u8], expected: &[u16]) {
    let mut cells = [1u16; TABLE_SIZE];
    let n = TABLE_SIZE - case.argument(5) % TABLE_SIZE;
    let l = load_in(case.console, text, expected, &mut cells[..n]);
    loaded(case.console, l);
}

// Loads every proper beginning of a text, and then the text.
pub(crate) fn prefixes(console: Console, text: &[u8], expected: &[u16]) {
    for n in 0..text.len() {
        fault(console, load_whole(console, &text[..n], &[]));
    }
    loaded(console, load_whole(console, text, expected));
}

// Prints a table that has ones behind its rows, and loads its text.
fn copy(console: Console, cells: &[u16], shape: Shape, worst: usize) {
    let mut text = ones();
    let p = cabinet::print(cells, shape, worst, &mut text);
    printed(console, p);
    if let Ok(n) = p {
        loaded(console, load_whole(console, first(&text, n), cells));
    }
}

// Copies the table that solves a problem.
pub(crate) fn card(console: Console, source: &[u8], work: &mut [u8]) {
    let mut cells = [1u16; TABLE_SIZE];
    let s = game::solve(source, work, &mut cells);
    solved(console, s);
    look_at_work(console, work, false);
    if let Ok(t) = s {
        copy(console, &cells, t.shape, t.worst_case);
    }
}

// Room for one row more than a table may have.
const CELLS: usize = TABLE_SIZE + 2 + 2 * SIDE_LIMIT;

// Cell k of a row; 0 behind its end.
fn cell_at(row: &[u16], k: usize) -> u16 {
    row.get(k).copied().unwrap_or(0)
}

// Copies a table of so many rows, as far as there is room for them. Cell k of row i is `cell(i, k)`.
fn copy_rows<F: Fn(usize, usize) -> u16>(case: Case, shape: Shape, cell: F)
    requires { F.IsAlwaysCallable cell }
{
    let mut cells = [1u16; CELLS];
    let size = row_size(shape.order);
    for i in 0..CELLS {
        if i / size < shape.rows {
            cells[i] = cell(i / size, i % size);
        }
    }
    copy(case.console, &cells, shape, case.argument(6));
}

// Copies a table of equal rows.
pub(crate) fn fill(case: Case, row: &[u16]) {
    copy_rows(case, case.shape_at(5, 7, 8), |_, k| cell_at(row, k));
}

// Whether cell k of a row is a next row.
fn is_next(order: Order, k: usize) -> bool {
    match order {
        Order::Set => k > 0,
        Order::Read => (k > 0) & (k % 2 == 0),
    }
}

// Cell k of row i of a ladder whose last row stops.
fn rung(row: &[u16], shape: Shape, i: usize, k: usize) -> u16
    requires { shape.rows < 65536 }
{
    let below = shape.rows.saturating_sub(i).saturating_sub(1);
    if below == 0 {
        return cell_at(&[STOP], k);
    }
    if k == rank_at(shape.order) {
        return below as u16;
    }
    let cell = cell_at(row, k);
    if is_next(shape.order, k) & (cell > 0) {
        return (i + below.min(cell as usize)) as u16;
    }
    cell
}

// Copies a table of rows that lead down to the last. A next row of the row that is given says how many rows further down it is.
pub(crate) fn ladder(case: Case, row: &[u16]) {
    let shape = case.shape_at(5, 7, 8);
    copy_rows(case, shape, move |i, k| rung(row, shape, i, k));
}
