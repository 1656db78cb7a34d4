// The states behind a problem: sets of obligation patterns, found by reading every letter in every state. Every function here is
// proved, and the crate assumes nothing. `explore` serves the crate `game`, which shows that it meets what is asked.
#![tactic(auto)]

mod automaton;
mod blocks;
mod maps;
mod sizes;

pub use automaton::explore;
