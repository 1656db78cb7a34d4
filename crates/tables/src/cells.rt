// The cells of a row, read and written by what they say, for each order of a step.
ghost use Rattle.std.specs.Prelude.{◌≡◌, ◌+◌, ◌*◌, ◌≤◌, ◌<◌, length, set};
ghost use Rattle.play.specs.Limits.{side_limit};
ghost use Rattle.play.specs.Cells.{choice_at, next_at, rank_at, row_size, first_cell, choice_cell, next_cell, rank_cell};

use crate::sizes::{LONG_ROW, SIDE_LIMIT};
use basics::Order;

// Cells of a row.
pub fn row_size(order: Order) -> usize
    ensures { result ≡ row_size order }
{
    match order {
        Order::Set => 2 + SIDE_LIMIT,
        Order::Read => LONG_ROW,
    }
}

// Where the choice for observation s stands in a row.
pub(crate) fn choice_at(order: Order, s: usize) -> usize
    requires { s < side_limit }
    ensures { result ≡ choice_at order s }
{
    match order {
        Order::Set => 0,
        Order::Read => 1 + 2 * s,
    }
}

// Where the next row for observation s stands in a row.
pub(crate) fn next_at(order: Order, s: usize) -> usize
    requires { s < side_limit }
    ensures { result ≡ next_at order s }
{
    match order {
        Order::Set => 1 + s,
        Order::Read => 2 + 2 * s,
    }
}

// Where the rank stands in a row: at its end.
pub fn rank_at(order: Order) -> usize
    ensures { result ≡ rank_at order }
{
    match order {
        Order::Set => 1 + SIDE_LIMIT,
        Order::Read => 1 + 2 * SIDE_LIMIT,
    }
}

// A row's first cell.
pub fn first_cell(table: &[u16], order: Order, row: usize) -> u16
    requires { row * row_size order + row_size order ≤ length table.now }
    ensures { result ≡ first_cell order table.now row }
{
    table[row * row_size(order)]
}

// A row's choice for observation s.
pub fn choice_cell(table: &[u16], order: Order, row: usize, s: usize) -> u16
    requires order_in_bounds { row * row_size order + row_size order ≤ length table.now }
    requires s_lt_side_limit { s < side_limit }
    ensures { result ≡ choice_cell order table.now row s }
{
    table[row * row_size(order) + choice_at(order, s)]
}

// A row's next row for observation s.
pub fn next_cell(table: &[u16], order: Order, row: usize, s: usize) -> u16
    requires order_in_bounds { row * row_size order + row_size order ≤ length table.now }
    requires s_lt_side_limit { s < side_limit }
    ensures { result ≡ next_cell order table.now row s }
{
    table[row * row_size(order) + next_at(order, s)]
}

// A row's rank.
pub fn rank_cell(table: &[u16], order: Order, row: usize) -> u16
    requires { row * row_size order + row_size order ≤ length table.now }
    ensures { result ≡ rank_cell order table.now row }
{
    table[row * row_size(order) + rank_at(order)]
}

// Writes a row's first cell.
pub(crate) fn set_first(table: &mut [u16], order: Order, row: usize, c: u16)
    requires { row * row_size order + row_size order ≤ length table.old }
    ensures { table.new ≡ set table.old (row * row_size order) c }
{
    table[row * row_size(order)] = c;
}

// Writes a row's choice for observation s.
pub(crate) fn set_choice(table: &mut [u16], order: Order, row: usize, s: usize, c: u16)
    requires order_in_bounds { row * row_size order + row_size order ≤ length table.old }
    requires s_lt_side_limit { s < side_limit }
    ensures { table.new ≡ set table.old (row * row_size order + choice_at order s) c }
{
    table[row * row_size(order) + choice_at(order, s)] = c;
}

// Writes a row's next row for observation s.
pub(crate) fn set_next(table: &mut [u16], order: Order, row: usize, s: usize, next: u16)
    requires order_in_bounds { row * row_size order + row_size order ≤ length table.old }
    requires s_lt_side_limit { s < side_limit }
    ensures { table.new ≡ set table.old (row * row_size order + next_at order s) next }
{
    table[row * row_size(order) + next_at(order, s)] = next;
}

// Writes a row's rank.
pub(crate) fn set_rank(table: &mut [u16], order: Order, row: usize, r: u16)
    requires { row * row_size order + row_size order ≤ length table.old }
    ensures { table.new ≡ set table.old (row * row_size order + rank_at order) r }
{
    table[row * row_size(order) + rank_at(order)] = r;
}
