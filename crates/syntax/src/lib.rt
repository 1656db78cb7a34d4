// The syntax of formulas below their grammar: the tokens of a text, the cells of a formula's parts, and the expansions of plan words. Every
// function here is proved, and the crate assumes nothing. It serves the crates `grammar` and `lines`, which show what each `requires` asks.
#![tactic(auto)]

mod cells;
mod kinds;
mod lex;
mod plans;
mod writer;

pub use cells::{ONE_SIDED, put, put_codes, put_leaf, put_two};
pub use kinds::{
    AFTER, ALWAYS, AND, BEFORE, CLOSE, COMMA, DURING, END, EVENTUALLY, FALSE, IMPLIES, NAME, NEXT,
    NOT, ONCE, OPEN, OR, RELEASE, TRUE, UNTIL, WEAK_NEXT, WITHIN, ZERO,
};
pub use lex::{Token, token_at};
pub use plans::{PlanWord, put_plan};
