// The sizes that concern tables (REFERENCE.md, Limits), and those of the memory that positions are kept in.
use basics::KIND_LIMIT;

// The most beliefs.
pub const BELIEF_LIMIT: usize = 256;

// The most choices, and the most observations: the values of the signals of one kind.
pub const SIDE_LIMIT: usize = 1 << KIND_LIMIT;

// The most pairs of a choice and an observation.
pub const PAIR_LIMIT: usize = SIDE_LIMIT * SIDE_LIMIT;

// The first cell of a row where the table stops.
pub const STOP: u16 = 65535;

// A number that is no rank.
pub(crate) const NO_RANK: u16 = 65535;

// The cells of a row of pairs, the longer kind.
pub(crate) const LONG_ROW: usize = 2 + 2 * SIDE_LIMIT;

// The least cells of a table to be written.
pub const TABLE_SIZE: usize = BELIEF_LIMIT * LONG_ROW;
