// The table that a text is compared with: what stands where a table's text has its numbers, brought within the limits. It is the text's own
// table if the text has one, and one that can be written as text in any case.
ghost use Rattle.std.specs.Prelude.{◌≡◌, suc, ◌+◌, ◌*◌, ◌^◌, ◌≤◌, ◌<◌, length, get_or, drop};
ghost use Rattle.std.proofs.lemmas.List.Edits.{sets};
ghost use Rattle.basics.specs.Bytes.{not_line_end};
ghost use Rattle.basics.specs.Limits.{kind_limit};
ghost use Rattle.basics.specs.Lists.{written};
ghost use Rattle.basics.specs.Numbers.{number_below};
ghost use Rattle.basics.specs.Pieces.{behind_all, field_at};
ghost use Rattle.basics.specs.Bounded.{first_that};
ghost use Rattle.play.specs.Limits.{belief_limit};
ghost use Rattle.play.specs.Cells.{row_size, cell_limit};
ghost use Rattle.loader.specs.Candidate.{says_stop, limit_at, move_in, row_in, observed_in, order_in, rows_in, worst_in, shape_in, cells_in, goes_on};

use basics::{Class, KIND_LIMIT, Order, behind, field, number_below, piece, same};
use printer::{shown_count, shown_from};
use tables::{BELIEF_LIMIT, SIDE_LIMIT, STOP, Shape, rank_at, row_size};

// ---- a row, from its line

// The fields of a row's line where the rank stands, and `stop` or the first printed cell.
const RANK: usize = 2;

const FIRST: usize = 3;

// What a cell can hold is below this.
const CELL_LIMIT: usize = 65536;

// Whether it stops.
#[tactic(auto, unfolding(crate::specs::Candidate::says_stop))]
fn says_stop(line: &[u8]) -> bool
    ensures { result ≡ says_stop line.now }
{
    same(field(line, FIRST), b"stop")
}

// The number in a field, below a limit.
fn number_at(line: &[u8], at: usize, limit: usize) -> u16
    requires { limit ≤ cell_limit }
    ensures { result ≡ number_below limit (field_at at line.now) }
{
    number_below(field(line, at), limit) as u16
}

// What the number in cell i is below, for a choice and for a next row.
fn limit_at(order: Order, rows: usize, i: usize) -> usize
    ensures { result ≡ limit_at order rows i }
{
    match order {
        Order::Set => { if i == 0 { SIDE_LIMIT } else { rows } }
        Order::Read => { if i % 2 == 1 { SIDE_LIMIT } else { rows } }
    }
}

// The shape that a text tells, which is within the limits.
#[derive(Clone, Copy)]
pub(crate) struct ToldShape {
    pub(crate) shape: Shape,
    pub(crate) ghost few: { shape.rows ≤ belief_limit },
    pub(crate) ghost seen: { shape.observed ≤ kind_limit },
}

impl ToldShape {
    // Cell i of a row that goes on; a cell that is not printed is 0.
    #[tactic(auto, using(crate::proofs::CandidateLaws::tried_small), unfolding(crate::specs::Candidate::move_in))]
    fn move_in(&self, line: &[u8], i: usize) -> u16
        requires { i < row_size self.now.shape.order }
        ensures { result ≡ move_in self.now.shape.order (2 ^ self.now.shape.observed) self.now.shape.rows line.now i }
    {
        let order = self.shape.order;
        let from = shown_from(order);
        let count = shown_count(order, 1 << self.shape.observed);
        if (i < from) | (i >= from + count) {
            return 0;
        }
        number_at(
            line,
            FIRST + (i - from),
            limit_at(order, self.shape.rows, i),
        )
    }

    // Its cell i, the rank among them.
    fn cell_in(&self, line: &[u8], i: usize) -> u16
        requires { i < row_size self.now.shape.order }
        ensures { result ≡ get_or (row_in self.now.shape line.now) i 0 }
    {
        if i == rank_at(self.shape.order) {
            return number_at(line, RANK, CELL_LIMIT);
        }
        if says_stop(line) {
            if i == 0 {
                return STOP;
            }
            return 0;
        }
        self.move_in(line, i)
    }

    // Writes its cells.
    fn put_row(&self, line: &[u8], row: usize, cells: &mut [u16])
        requires { row * row_size self.now.shape.order + row_size self.now.shape.order ≤ length cells.old }
        ensures { cells.new ≡ sets cells.old (row * row_size self.now.shape.order) (row_in self.now.shape line.now) }
    {
        let size = row_size(self.shape.order);
        let at = row * size;
        for i in 0..size {
            cells[at + i] = self.cell_in(line, i);
        }
    }

    // Writes the cells of all rows.
    pub(crate) fn put_rows(&self, text: &[u8], cells: &mut [u16])
        requires { self.now.shape.rows * row_size self.now.shape.order ≤ length cells.old }
        ensures { cells.new ≡ written (cells_in self.now.shape text.now) cells.old }
    {
        let mut at = behind(text, 0, Class::Line);
        for row in 0..self.shape.rows {
            self.put_row(piece(text, at, Class::Line), row, cells);
            at = behind(text, at, Class::Line);
        }
    }
}

// The number of observed signals, by how many fields there are.
#[tactic(auto, using(crate::proofs::CandidateLaws::tried_small))]
fn observed_in(line: &[u8], order: Order) -> usize
    ensures { result ≡ observed_in order kind_limit line.now }
{
    for k in (1..=KIND_LIMIT).rev() {
        let last = 2 + shown_count(order, 1 << k);
        if field(line, last).len() > 0 {
            return k;
        }
    }
    0
}

// ---- the table

// The order, from the first line.
#[tactic(auto, unfolding(crate::specs::Candidate::order_in))]
fn order_in(line: &[u8]) -> Order
    ensures { result ≡ order_in line.now }
{
    if same(field(line, 0), b"rtable") {
        return Order::Read;
    }
    Order::Set
}

// The row count, from the first line.
#[tactic(auto, unfolding(crate::specs::Candidate::rows_in))]
fn rows_in(line: &[u8]) -> usize
    ensures { result ≡ rows_in line.now }
{
    let n = number_below(field(line, 1), BELIEF_LIMIT + 1);
    if n == 0 {
        return 1;
    }
    n
}

// Where the line of the first row that goes on begins, among so many rows; behind them where none does.
fn first_move(text: &[u8], rows: usize) -> usize
    ensures upper_bound { result ≤ length text.now }
    ensures text_value { drop result text.now ≡ behind_all not_line_end (suc (first_that (goes_on text.now) rows)) text.now }
{
    let mut at = behind(text, 0, Class::Line);
    for row in 0..rows {
        if !says_stop(piece(text, at, Class::Line)) {
            return at;
        }
        at = behind(text, at, Class::Line);
    }
    at
}

// The row count and the order, and the number of observed signals by the first row that goes on.
#[tactic(auto, using(crate::proofs::CandidatePrint::shape_laws), unfolding(crate::specs::Candidate::shape_in))]
pub(crate) fn shape_in(text: &[u8]) -> ToldShape
    ensures { result.shape ≡ shape_in text.now }
{
    let head = piece(text, 0, Class::Line);
    let rows = rows_in(head);
    let order = order_in(head);
    let at = first_move(text, rows);
    let observed = observed_in(piece(text, at, Class::Line), order);
    ToldShape {
        shape: Shape {
            rows,
            observed,
            order,
        },
    }
}

// The worst case, from the first line.
#[tactic(auto, unfolding(crate::specs::Candidate::worst_in))]
pub(crate) fn worst_in(text: &[u8], rows: usize) -> usize
    ensures { result ≡ worst_in rows text.now }
{
    number_below(field(piece(text, 0, Class::Line), 2), rows)
}
