// The game behind a problem: `solve` reads a problem and answers with the table of a strategy that wins with the smallest worst case,
// or with one refusal. Every function here is proved, and the crate assumes nothing. `solve` has no `requires`.
#![tactic(auto)]

mod solving;

pub use solving::solve;
pub use tables::{Shape, TABLE_SIZE, Table};
