// Tables in use: `print` writes a table as text, `load` reads it back, `respond` solves a problem and writes what comes of it; `start` and
// `step` run a table as a controller, from a position that the caller keeps, as `start_from` and `step_from` do by value; `is_stopped` tells
// whether it has stopped, and `steps_left` how many steps are left at most. Every function here is proved, and the crate assumes nothing. None
// of these has a `requires`.
#![tactic(auto)]

mod printing;
mod responding;

pub use loader::load;
pub use printer::TEXT_SIZE;
pub use printing::print;
pub use responding::respond;
pub use stepping::{
    Answer, Moved, Position, is_stopped, start, start_from, step, step_from, steps_left,
};
