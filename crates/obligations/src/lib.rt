// What the parts of a formula need to know of the next step: the values of all parts, a word of patterns at a time, and the letters of a
// problem. Every function here is proved, and the crate assumes nothing. It serves the crate `states`, which shows what it asks.
#![tactic(auto)]

mod lanes;
mod letters;
mod numbering;
mod values;

pub use lanes::owed_lanes;
pub use letters::list_letters;
pub use numbering::number_parts;
pub use values::{BLOCK, put_values};
