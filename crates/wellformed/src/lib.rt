// What a table must be: the tests of number 13, which printing, loading and running share. A `SizedTable` is a table with its shape, and its type
// says that the cells have room for the rows. Every function here is proved, and the crate assumes nothing. It serves the crates above it, which
// show what each `requires` asks.
#![tactic(auto)]

mod checking;

pub use checking::{SizedTable, is_printable, is_ranked, is_row, is_sized};
