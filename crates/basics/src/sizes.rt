// Limits (REFERENCE.md, Limits) and sizes of the machine that several layers build on.

// The most signals of a kind, and in all.
pub const KIND_LIMIT: usize = 4;

pub const SIGNAL_LIMIT: usize = 9;

// Where the observed and the hidden signals begin in a letter, behind the output signals.
pub const OBSERVED: usize = KIND_LIMIT;

pub const HIDDEN: usize = 2 * KIND_LIMIT;

// The most temporal operators.
pub const OPERATOR_LIMIT: usize = 7;

// Indices of a formula's parts: an index is a byte.
pub const INDEX_LIMIT: usize = 256;

// Bits of a machine word, a power of two: so many patterns are worked out at a time.
pub const WORD_BITS: usize = 6;

pub const WORD: usize = 1 << WORD_BITS;
