// Formulas: their operators and parts, and their value on a trace. Every function here is proved, and the crate assumes nothing.
#![tactic(auto)]

mod evaluate;
mod formula;
mod parts;
mod truth;

pub use evaluate::holds_on;
pub use formula::{Op, bit_of, combined, is_temporal, owed_by};
pub use parts::{Part, code_of, is_temporal_at, part_at, part_of};
pub use truth::Truth;
