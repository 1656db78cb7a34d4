// A table run as a controller, from a position that the caller keeps: `start` and `step`, and `start_from` and `step_from` by value;
// `is_stopped` tells whether it has stopped, and `steps_left` how many steps are left at most. Every function here is proved, and the crate
// assumes nothing. None of these has a `requires`. The crate `cabinet` hands them on beside its other calls.
#![tactic(auto)]

mod position;

pub use position::{
    Answer, Moved, Position, is_stopped, start, start_from, step, step_from, steps_left,
};
