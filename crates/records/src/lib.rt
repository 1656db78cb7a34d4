// A formula's parts in lent records: a problem is read once, and many traces are judged by what was read. Every function here is proved,
// and the crate assumes nothing. `read_parts`, `record_at` and `judge_parts` lend records; they are thin over functions that pass parts by
// value, of which `list_parts` and `judge_list` can be called too. None has a `requires`.
#![tactic(auto)]

mod lending;
mod listing;

pub use lending::{judge_parts, read_parts, record_at};
pub use listing::{Listing, PartList, judge_list, list_parts};
