// The table: a row for each belief met from the start by the choices taken.
ghost use Rattle.std.specs.Prelude.{◌<◌, ◌≤◌};
ghost use Rattle.play.specs.Cells.{table_size};
ghost use Rattle.play.specs.Limits.{belief_limit, side_limit};
ghost use Rattle.compare.specs.Sizes.{long_row};

use crate::list::List;
use crate::plain::Table;
use crate::plain_beliefs::Moves;
use crate::plain_ranks::{Options, Ranks};
use crate::plain_states::Widths;
use basics::Order;
use tables::{BELIEF_LIMIT, SIDE_LIMIT, STOP};

// The belief of each row.
type Rows = List<u8, BELIEF_LIMIT>;

// Cells of a row.
fn row_size(order: Order) -> usize
    ensures { (0 < result) × (result ≤ long_row) }
{
    match order {
        Order::Set => 2 + SIDE_LIMIT,
        Order::Read => 2 + 2 * SIDE_LIMIT,
    }
}

// Where cell k of a row stands in the table.
fn cell_at(order: Order, row: usize, k: usize) -> usize
    requires row_lt_belief_limit { row < belief_limit }
    requires k_lt_long_row { k < long_row }
    ensures { result < table_size }
{
    row * row_size(order) + k
}

fn clear_row(order: Order, row: usize, table: &mut Table)
    requires { row < belief_limit }
{
    for k in 0..row_size(order) {
        table[cell_at(order, row, k)] = 0;
    }
}

// Where in a row the choice for an observation stands, and where the next row.
fn choice_at(order: Order, o: usize) -> usize
    requires { o < side_limit }
    ensures { result < long_row }
{
    match order {
        Order::Set => 0,
        Order::Read => 1 + 2 * o,
    }
}

fn next_at(order: Order, o: usize) -> usize
    requires { o < side_limit }
    ensures { result < long_row }
{
    match order {
        Order::Set => 1 + o,
        Order::Read => 2 + 2 * o,
    }
}

// Where in a row the rank of its belief stands: at its end.
fn rank_at(order: Order) -> usize
    ensures { result < long_row }
{
    row_size(order) - 1
}

// Writes what the row of a belief with a rank does at each observation. Each has a choice, and there are no more rows than beliefs.
fn put_moves(options: Options, rank: u16, row: usize, rows: &mut Rows, table: &mut Table)
    requires { row < belief_limit }
    ensures { rows.old.count ≤ rows.new.count }
{
    let order = options.widths.order;
    for o in 0..options.widths.observations {
        if let Some(choice) = options.best_choice(o, rank)
            && let Some(next) = rows.place_of(options.next(choice, o))
        {
            table[cell_at(order, row, choice_at(order, o))] = choice as u16;
            table[cell_at(order, row, next_at(order, o))] = next as u16;
        }
    }
}

// Writes the row of a belief with a rank.
fn put_row(options: Options, rank: u16, row: usize, rows: &mut Rows, table: &mut Table)
    requires { row < belief_limit }
    ensures { rows.old.count ≤ rows.new.count }
{
    let order = options.widths.order;
    clear_row(order, row, table);
    table[cell_at(order, row, rank_at(order))] = rank;
    if rank == 0 {
        table[cell_at(order, row, 0)] = STOP;
    } else {
        put_moves(options, rank, row, rows, table);
    }
}

// Writes the rows of the beliefs that are met, each of which has a rank, and so meets others.
fn put_rows(moves: &Moves, ranks: &Ranks, widths: Widths, rows: &mut Rows, table: &mut Table) {
    let mut row = 0;
    while row < rows.count {
        let b = rows.items[row] as usize;
        let options = Options {
            moves: &moves[b],
            ranks,
            widths,
        };
        if let Some(rank) = ranks[b] {
            put_row(options, rank, row, rows, table);
        }
        row += 1;
    }
}

// Writes the table, and answers how many rows it has.
pub(crate) fn put_table(moves: &Moves, ranks: &Ranks, widths: Widths, table: &mut Table) -> usize
    ensures { result ≤ belief_limit }
{
    let mut rows = Rows {
        items: [0; BELIEF_LIMIT],
        count: 1,
    };
    put_rows(moves, ranks, widths, &mut rows, table);
    rows.count
}
