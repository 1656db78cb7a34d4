// The text of a formula: the names in it, and its phrases, written as one cell for each part. Every function here is proved, and the crate
// assumes nothing. It serves the crate `lines`, which shows what each `requires` asks.
#![tactic(auto)]

mod heads;
mod names;
mod phrase;

pub use names::{BITS, Names, lookup};
pub use phrase::{Phrase, TEXT_LIMIT, read_formula};
