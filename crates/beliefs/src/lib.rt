// The search for all beliefs that count: what the controller can know before it stops, and where each choice and observation leads. Every
// function here is proved, and the crate assumes nothing. `explore_beliefs` serves the crate `game`, which shows that it meets what is asked.
#![tactic(auto)]

mod automaton;
mod believing;
mod counting;
mod finding;
mod sizes;
mod twins;

pub use automaton::Automaton;
pub use counting::explore_beliefs;
