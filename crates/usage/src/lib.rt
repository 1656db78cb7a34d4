// Which of the declared signals no rule uses: a second pass over a problem's lines, with the parts that were read of its rules. Every function
// here is proved, and the crate assumes nothing. `put_unused` asks for room for the names that it writes.
#![tactic(auto)]

mod using;

pub use using::{first_unused, put_unused};
