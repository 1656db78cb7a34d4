// The operators of a formula, and what a part's value is.
ghost use Rattle.std.specs.Prelude.{◌≡◌, ◌<◌, ℕ};
ghost use Rattle.basics.specs.Bits.{bit};
ghost use Rattle.formula.specs.Parts.{byte_of, op_of, is_temporal};
ghost use Rattle.formula.specs.Values.{combine, owed};
ghost use Rattle.formula.specs.Entries.{entry};

use crate::truth::Truth;

#[derive(Clone, Copy, PartialEq, Eq, Debug)]
pub enum Op {
    Signal,
    True,
    False,
    Not,
    And,
    Or,
    Implies,
    Next,
    WeakNext,
    Eventually,
    Always,
    Until,
    Release,
}

// The byte that stands for an operator in a rule.
impl From<Op> for u8 {
    ghost from_gives = { λ op byte. byte ≡ byte_of op };

    fn from(op: Op) -> u8 {
        match op {
            Op::Signal => b'a',
            Op::True => b't',
            Op::False => b'f',
            Op::Not => b'!',
            Op::And => b'&',
            Op::Or => b'|',
            Op::Implies => b'-',
            Op::Next => b'X',
            Op::WeakNext => b'N',
            Op::Eventually => b'F',
            Op::Always => b'G',
            Op::Until => b'U',
            Op::Release => b'R',
        }
    }
}

// The operator that a byte stands for in a rule; `False` for a byte that stands for none.
impl From<u8> for Op {
    ghost from_gives = { λ byte op. op ≡ op_of byte };

    #[tactic(auto, unfolding(crate::specs::Parts::op_of))]
    fn from(kind: u8) -> Op {
        match kind {
            b'a' => Op::Signal,
            b't' => Op::True,
            b'!' => Op::Not,
            b'&' => Op::And,
            b'|' => Op::Or,
            b'-' => Op::Implies,
            b'X' => Op::Next,
            b'N' => Op::WeakNext,
            b'F' => Op::Eventually,
            b'G' => Op::Always,
            b'U' => Op::Until,
            b'R' => Op::Release,
            _ => Op::False,
        }
    }
}

// The value of a part from the signal's value, its own obligation and its operands' values.
pub fn combined<T: Truth>(op: Op, s: T, o: T, x: T, y: T) -> T
    ensures { (j : ℕ) → j < T.width → T.value result j ≡ combine op (T.value s j) (T.value o j) (T.value x j) (T.value y j) }
{
    match op {
        Op::Signal => s,
        Op::True => T::all(true),
        Op::False => T::all(false),
        Op::Not => x.not(),
        Op::And => x.and(y),
        Op::Or => x.or(y),
        Op::Implies => x.not().or(y),
        Op::Next => o,
        Op::WeakNext => o.not(),
        Op::Eventually => x.or(o),
        Op::Always => x.and(o.not()),
        Op::Until => y.or(x.and(o)),
        Op::Release => y.and(x.or(o.not())),
    }
}

// What a part's obligation about a step is worth there, from its left operand's value and its own.
pub fn owed_by<T: Truth>(op: Op, x: T, v: T) -> T
    ensures { (j : ℕ) → j < T.width → T.value result j ≡ owed op (T.value x j) (T.value v j) }
{
    match op {
        Op::Next => x,
        Op::WeakNext => x.not(),
        Op::Eventually | Op::Until => v,
        Op::Always | Op::Release => v.not(),
        _ => T::all(false),
    }
}

// Bit k of a letter.
pub fn bit_of(letter: u16, k: u8) -> bool
    ensures { result ≡ bit letter k }
{
    k < 16 && (letter >> k) & 1 == 1
}

// A part's value and obligation as one number.
pub(crate) fn entry_of(v: bool, o: bool) -> u8
    ensures { result ≡ entry v o }
{
    v as u8 + 2 * o as u8
}

// The value in an entry.
pub(crate) fn value_in(e: u8) -> bool
    ensures { result ≡ bit e 0 }
{
    bit_of(e as u16, 0)
}

// The obligation in an entry.
pub(crate) fn owed_in(e: u8) -> bool
    ensures { result ≡ bit e 1 }
{
    bit_of(e as u16, 1)
}

// Whether a byte stands for a temporal operator.
pub fn is_temporal(kind: u8) -> bool
    ensures { result ≡ is_temporal kind }
{
    matches!(kind, b'X' | b'N' | b'F' | b'G' | b'U' | b'R')
}
