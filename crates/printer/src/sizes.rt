// The least memory for a table's text (REFERENCE.md, Limits).

// The least bytes of a text.
pub const TEXT_SIZE: usize = 32768;
