// The answer for positions in memory: a table, or that no strategy wins.
ghost use Rattle.std.specs.Prelude.{◌≡◌, ◌≤◌, eqb, length};
ghost use Rattle.play.specs.Cells.{table_size};
ghost use Rattle.basics.specs.Lists.{written};
ghost use Rattle.play.specs.Answer.{verdict_of, cells_of};
ghost use Rattle.tables.specs.Outcome.{outcome_of};
ghost use Rattle.tables.specs.PositionMemory.{arena_in};

use crate::arena::Arena;
use crate::ranking::rank_all;
use crate::sizes::{BELIEF_LIMIT, NO_RANK};
use crate::writing::put_table;
use basics::Order;

// A table's row count and worst case.
#[derive(Clone, Copy)]
pub struct Outcome {
    pub rows: usize,
    pub worst_case: usize,
}

// Writes the table of the positions; no answer says that no strategy wins. Only the table's used rows change.
pub fn answer(order: Order, arena: &Arena, table: &mut [u16]) -> Option<Outcome>
    requires { table_size ≤ length table.old }
    ensures value { result ≡ outcome_of (verdict_of order (arena_in arena.now.choices arena.now.moves.now arena.now.finals.now) eqb
        arena.now.choices arena.now.observations arena.now.count) }
    ensures table_after { table.new ≡ written (cells_of (verdict_of order
        (arena_in arena.now.choices arena.now.moves.now arena.now.finals.now) eqb
        arena.now.choices arena.now.observations arena.now.count)) table.old }
{
    let mut ranks = [0u16; BELIEF_LIMIT];
    rank_all(order, arena, &mut ranks);
    let r = ranks[0];
    if r == NO_RANK {
        return None;
    }
    let rows = put_table(order, arena, &ranks, table);
    Some(Outcome {
        rows,
        worst_case: r as usize,
    })
}
