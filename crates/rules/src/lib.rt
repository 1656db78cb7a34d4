// Problems and traces: reads a problem's text, with one numbered refusal for each fault, and judges a recorded trace by it. Every
// function here is proved, and the crate assumes nothing. `judge` has no `requires`; `read` and `judge_trace`, which serve the crates above,
// ask for room for all parts, and for parts and counts within their limits.
#![tactic(auto)]

mod judging;
mod reader;

pub use judging::{WORK_SIZE, judge, judge_trace};
pub use lines::{Refusal, Sizes, number, place};
pub use reader::{SOURCE_LIMIT, read};
