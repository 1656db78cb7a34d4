// The sizes of the memory that keeps the words of letters. All follow from the limits of operators, signals and parts.
use basics::{INDEX_LIMIT, OPERATOR_LIMIT, WORD_BITS};
use obligations::BLOCK;
use search::{LETTER_LIMIT, MAP};

// Words of a letter in a plane: one for each bit of a pattern.
pub(crate) const SLOT: usize = OPERATOR_LIMIT + 1;

// Words of a plane: those of all letters.
pub(crate) const PLANE: usize = LETTER_LIMIT * SLOT;

// Planes: words with a bit for each pattern of the operators alone.
pub(crate) const PLANES: usize = 1 << (OPERATOR_LIMIT - WORD_BITS);

// Words of all planes.
pub(crate) const WORDS: usize = PLANES * PLANE;

// Entries of the maps of all letters.
pub(crate) const MAPS: usize = LETTER_LIMIT * MAP;

// Words of the values of all parts, for a block of letters.
pub(crate) const VALUES: usize = INDEX_LIMIT * BLOCK;
