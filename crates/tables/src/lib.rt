// From the moves between numbered positions to the table of the best strategy: ranks, choices and rows. Every function here is proved,
// and the crate assumes nothing. `answer` serves the crate `game`, which shows that it meets what is asked; `Shape` and the functions on
// cells serve whoever reads a table.
#![tactic(auto)]

mod answering;
mod arena;
mod cells;
mod choosing;
mod ranking;
mod shape;
mod sizes;
mod writing;

pub use answering::{Outcome, answer};
pub use arena::Arena;
pub use cells::{choice_cell, first_cell, next_cell, rank_at, rank_cell, row_size};
pub use shape::{Shape, Table};
pub use sizes::{BELIEF_LIMIT, PAIR_LIMIT, SIDE_LIMIT, STOP, TABLE_SIZE};
