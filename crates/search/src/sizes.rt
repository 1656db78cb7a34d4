// The limit of states (REFERENCE.md, Limits), and the sizes of the memory that a search keeps them in.
use basics::{OPERATOR_LIMIT, SIGNAL_LIMIT};

// The most states.
pub const STATE_LIMIT: usize = 128;

// The most letters: the values of all signals.
pub const LETTER_LIMIT: usize = 1 << SIGNAL_LIMIT;

// Patterns of one obligation more than there are operators.
pub(crate) const PATTERNS: usize = 1 << (OPERATOR_LIMIT + 1);

// Bytes of a set: a bit for each pattern.
pub const SET: usize = PATTERNS / 8;

// Entries of a letter's map: one for each pattern of the operators alone.
pub const MAP: usize = 1 << OPERATOR_LIMIT;

// Bytes of places that are compared at a time: a loop of a fixed length is unrolled, whatever the width.
pub(crate) const RUN: usize = 8;
