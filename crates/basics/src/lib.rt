// What belongs to no layer: lists, bits, Booleans, searches below a bound and what can be reached, as definitions and laws; runs of
// bytes, searches below a bound, and numbers and lines of text, as code too. Every function here is proved, and the crate assumes nothing.
#![tactic(auto)]

mod bits;
mod bytes;
mod numbers;
mod order;
mod pieces;
mod searching;
mod sizes;
mod text;

pub use bits::from_bits;
pub use bytes::{Class, is_lower, past, same};
pub use numbers::{number_below, number_in};
pub use order::Order;
pub use pieces::{behind, field, piece};
pub use searching::first_that;
pub use sizes::{
    HIDDEN, INDEX_LIMIT, KIND_LIMIT, OBSERVED, OPERATOR_LIMIT, SIGNAL_LIMIT, WORD, WORD_BITS,
};
pub use text::{LINE_END, Writer};
