// A table read back from its text: `load` is the inverse of printing. It makes a table of what the text says, prints that, compares,
// and tests the ranks.
// Every function here is proved, and the crate assumes nothing. `load` has no `requires`.
#![tactic(auto)]

mod candidate;
mod comparing;
mod faults;
mod loading;

pub use loading::load;
