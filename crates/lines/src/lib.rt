// One line of a problem: what it declares, states or says of the order of a step, or the numbered refusal. Every function here is
// proved, and the crate assumes nothing. `declare` and `add_formula` serve the crate `rules`, which shows what they ask.
#![tactic(auto)]

mod adding;
mod declaring;
mod ordering;
mod problem;
mod refusal;

pub use adding::{PART_LIMIT, add_formula};
pub use declaring::declare;
pub use ordering::{add_order, order_of, ordered};
pub use problem::{Sizes, Word, word_of};
pub use refusal::{Refusal, number, place};
