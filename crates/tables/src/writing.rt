// Writes the table: one row for each position met from the start by the choices taken, numbered as first met.
ghost use Rattle.std.specs.Prelude.{◌≡◌, ◌≤◌, ◌<◌, eqb, length, get_or, set, replicate, take};
ghost use Rattle.basics.specs.Reach.{index_in};
ghost use Rattle.play.specs.Limits.{belief_limit, side_limit};
ghost use Rattle.play.specs.Cells.{row_size, table_size, first_of, stop_row, with_rank};
ghost use Rattle.play.specs.Table.{rows, table_cells};
ghost use Rattle.basics.specs.Lists.{written};
ghost use Rattle.play.specs.Answer.{start_rank};
ghost use Rattle.tables.specs.PositionMemory.{arena_in, Choices, ranks_below, rows_with, row_with, with_pair};

use crate::arena::Arena;
use crate::cells::{row_size, set_choice, set_first, set_next, set_rank};
use crate::choosing::put_answers;
use crate::sizes::{BELIEF_LIMIT, SIDE_LIMIT, STOP};
use basics::Order;

// The first of m rows that is position k; m if there is none.
fn row_of(rows: &[u8], m: usize, k: u8) -> usize
    requires { m ≤ length rows.now }
    ensures { result ≡ index_in eqb k (take m rows.now) }
{
    for i in 0..m {
        if rows[i] == k {
            return i;
        }
    }
    m
}

// Writes the row of a position where the table stops.
#[tactic(auto, unfolding(play::specs::Cells::stop_row))]
fn put_stop(order: Order, cells: &mut [u16])
    requires { length cells.old ≡ row_size order }
    ensures { cells.new ≡ stop_row order }
{
    cells.fill(0);
    set_first(cells, order, 0, STOP);
}

// Writes the first cell of a row that does not stop, and zeros behind it.
fn put_first(order: Order, answers: &[u8; SIDE_LIMIT], cells: &mut [u16])
    requires { length cells.old ≡ row_size order }
    ensures { cells.new ≡ set (replicate (row_size order) 0) 0 (first_of order (λ s. get_or answers.now s 0)) }
{
    cells.fill(0);
    match order {
        Order::Set => set_first(cells, order, 0, answers[0] as u16),
        Order::Read => set_first(cells, order, 0, 0),
    }
}

// Writes the cells of observation s.
fn put_pair(order: Order, cells: &mut [u16], s: usize, c: u16, next: u16)
    requires s_lt_side_limit { s < side_limit }
    requires cells_len { length cells.old ≡ row_size order }
    ensures { cells.new ≡ with_pair order cells.old s c next }
{
    match order {
        Order::Set => {}
        Order::Read => set_choice(cells, order, 0, s, c),
    }
    set_next(cells, order, 0, s, next);
}

// Writes the row of position k, with its choice for each observation and its rank; its next positions are put behind the m rows where they
// are new. Answers how many rows there are then.
fn put_row(
    order: Order,
    arena: &Arena,
    answers: &[u8; SIDE_LIMIT],
    k: usize,
    rank: u16,
    m: usize,
    rows: &mut [u8; BELIEF_LIMIT],
    cells: &mut [u16],
) -> usize
    requires choices { Choices arena.now.choices arena.now.observations answers.now }
    requires k_lt_count { k < arena.now.count }
    requires m_le_belief_limit { m ≤ belief_limit }
    requires rows_len_bound { length (rows_with arena.now.moves.now arena.now.choices arena.now.observations k answers.now (take m rows.old))
        ≤ belief_limit }
    requires cells_len { length cells.old ≡ row_size order }
    ensures value { result ≡ length (rows_with arena.now.moves.now arena.now.choices arena.now.observations k answers.now (take m rows.old)) }
    ensures rows_after { rows.new
        ≡ written (rows_with arena.now.moves.now arena.now.choices arena.now.observations k answers.now (take m rows.old)) rows.old }
    ensures cells_after { cells.new
        ≡ with_rank order rank (row_with order arena.now.moves.now arena.now.choices arena.now.observations k answers.now
        (rows_with arena.now.moves.now arena.now.choices arena.now.observations k answers.now (take m rows.old))) }
{
    put_first(order, answers, cells);
    let mut n = m;
    for s in 0..arena.observations {
        let c = answers[s];
        let t = arena.next(k, c as usize, s);
        let j = row_of(rows, n, t);
        if j == n {
            rows[n] = t;
            n += 1;
        }
        put_pair(order, cells, s, c as u16, j as u16);
    }
    set_rank(cells, order, 0, rank);
    n
}

// Writes the table, and answers how many rows it has.
pub(crate) fn put_table(
    order: Order,
    arena: &Arena,
    ranks: &[u16; BELIEF_LIMIT],
    table: &mut [u16],
) -> usize
    requires ranks_value { take arena.now.count ranks.now
        ≡ ranks_below order arena.now.count arena.now.choices arena.now.observations arena.now.count arena.now.moves.now arena.now.finals.now }
    requires start_ranked { start_rank order (arena_in arena.now.choices arena.now.moves.now arena.now.finals.now) eqb
        arena.now.choices arena.now.observations arena.now.count < arena.now.count }
    requires table_size_in_bounds { table_size ≤ length table.old }
    ensures value { result ≡ length (rows order (arena_in arena.now.choices arena.now.moves.now arena.now.finals.now) eqb
        arena.now.choices arena.now.observations arena.now.count) }
    ensures table_after { table.new ≡ written (table_cells order (arena_in arena.now.choices arena.now.moves.now arena.now.finals.now) eqb
        arena.now.choices arena.now.observations arena.now.count) table.old }
{
    let size = row_size(order);
    let mut rows = [0u8; BELIEF_LIMIT];
    let mut answers = [0u8; SIDE_LIMIT];
    let mut m = 1;
    let mut i = 0;
    while i < m {
        let at = i * size;
        let end = at + size;
        let k = rows[i] as usize;
        if arena.finals[k] == 1 {
            put_stop(order, &mut table[at..end]);
        } else {
            put_answers(order, arena, ranks, k, &mut answers);
            m = put_row(
                order,
                arena,
                &answers,
                k,
                ranks[k],
                m,
                &mut rows,
                &mut table[at..end],
            );
        }
        i += 1;
    }
    m
}
