// A table as text. Every function here is proved, and the crate assumes nothing. It serves the crates `loader` and `cabinet`, which show what each
// `requires` asks.
#![tactic(auto)]

mod sizes;
mod writing;

pub use sizes::TEXT_SIZE;
pub use writing::{put_refusal, put_table, shown_count, shown_from};
