// Sets in memory, and the search for all sets of patterns that letters reach. Every function here is proved, and the crate assumes
// nothing. It serves the crates `states` and `beliefs`, which show what it asks.
#![tactic(auto)]

mod letters;
mod searching;
mod sets;
mod sizes;

pub use letters::Letters;
pub use searching::search;
pub use sets::{find, same_slot};
pub use sizes::{LETTER_LIMIT, MAP, SET, STATE_LIMIT};
