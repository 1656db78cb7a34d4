// The sizes of the memory that beliefs are kept in.
use search::STATE_LIMIT;
use tables::BELIEF_LIMIT;

// Bytes of a belief: a bit for each state.
pub(crate) const BELIEF: usize = STATE_LIMIT / 8;

// Bytes that hold the beliefs, with room for one more than the most.
pub(crate) const BELIEFS_SIZE: usize = (BELIEF_LIMIT + 1) * BELIEF;

// Bytes that hold the places found last.
pub(crate) const HINTS: usize = 1024;
