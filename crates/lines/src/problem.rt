// Reading a problem: from the bytes of its lines to counts of signals and the parts of its formula.
ghost use Rattle.std.specs.Prelude.{◌≡◌};
ghost use Rattle.lines.specs.Lines.{word_of};

use basics::{Order, same};

// A kind of signal: set by the controller, read by it, or neither.
#[derive(Clone, Copy)]
pub enum Kind {
    Output,
    Observed,
    Hidden,
}

// What a line's first field says.
#[derive(Clone, Copy)]
pub enum Word {
    Declare(Kind),
    Rule,
    Order,
    Unknown,
}

// How many signals of each kind, parts and temporal operators there are, and the order of a step: none until a line says it, and one at the
// end of a text.
#[derive(Clone, Copy)]
pub struct Sizes {
    pub outputs: usize,
    pub observed: usize,
    pub hidden: usize,
    pub parts: usize,
    pub operators: usize,
    pub order: Option<Order>,
}

#[tactic(auto, unfolding(crate::specs::Lines::word_of))]
pub fn word_of(field: &[u8]) -> Word
    ensures { result ≡ word_of field.now }
{
    if same(field, b"out") {
        return Word::Declare(Kind::Output);
    }
    if same(field, b"see") {
        return Word::Declare(Kind::Observed);
    }
    if same(field, b"hid") {
        return Word::Declare(Kind::Hidden);
    }
    if same(field, b"rule") {
        return Word::Rule;
    }
    if same(field, b"order") {
        return Word::Order;
    }
    Word::Unknown
}
