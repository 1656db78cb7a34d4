// Obligation patterns: what the parts of a formula need to know of the next step.
ghost use Rattle.std.specs.Prelude.{◌+◌, ◌*◌, ◌<◌, ◌≤◌, length};
ghost use Rattle.basics.specs.Limits.{index_limit};
ghost use Rattle.compare.specs.Sizes.{pattern_count};

use basics::{INDEX_LIMIT, OPERATOR_LIMIT};

// Bits of a pattern: bit 0 is about the whole formula, bit k + 1 about temporal operator k, in the order of the parts.
const BITS: usize = OPERATOR_LIMIT + 1;

pub const PATTERNS: usize = 1 << BITS;

// A pattern, with room for a bit more than a formula may have parts; behind its bits it is false.
type Pattern = [bool; INDEX_LIMIT + 1];

// The values of all parts at a step; an index is a byte.
type Values = [bool; INDEX_LIMIT];

// Binary digit k of a number.
pub(crate) fn digit(n: usize, k: usize) -> bool {
    let mut m = n;
    for _ in 0..k {
        m /= 2;
    }
    m % 2 == 1
}

// The pattern with a number: its bits are the number's binary digits.
fn pattern_of(n: usize) -> Pattern {
    let mut pattern = [false; INDEX_LIMIT + 1];
    for k in 0..BITS {
        pattern[k] = digit(n, k);
    }
    pattern
}

// A number with one binary digit more.
fn with_digit(n: usize, b: bool) -> usize
    requires { n < pattern_count }
    ensures { result ≤ n * 2 + 1 }
{
    if b {
        return n * 2 + 1;
    }
    n * 2
}

// The number of a pattern.
fn number_of(pattern: &Pattern) -> usize
    ensures { result < pattern_count }
{
    let mut n = 0;
    for k in 0..BITS {
        n = with_digit(n, pattern[BITS - 1 - k]);
    }
    n
}

// A part: the byte of its operator, as it stands in a rule, with `a` for any signal, `t` and `f` for the constants, and `-` for the arrow; and
// the indices of its operands. The left one of a signal is the number of its binary digit in a letter.
#[derive(Clone, Copy)]
struct Part {
    kind: u8,
    left: u8,
    right: u8,
}

impl From<u32> for Part {
    fn from(code: u32) -> Self {
        let [kind, left, right, _] = code.to_le_bytes();
        Part { kind, left, right }
    }
}

fn is_temporal(kind: u8) -> bool {
    matches!(kind, b'X' | b'N' | b'F' | b'G' | b'U' | b'R')
}

// The value of an operator: o is its own obligation, p and q are the values of its operands.
fn value(kind: u8, signal: bool, o: bool, p: bool, q: bool) -> bool {
    match kind {
        b'a' => signal,
        b't' => true,
        b'!' => !p,
        b'&' => p & q,
        b'|' => p | q,
        b'-' => !p | q,
        b'X' => o,
        b'N' => !o,
        b'F' => p | o,
        b'G' => p & !o,
        b'U' => q | (p & o),
        b'R' => q & (p | !o),
        _ => false,
    }
}

// The obligation of an operator about a step where its operand's value is p and its own is v; false where it has none.
fn obligation(kind: u8, p: bool, v: bool) -> bool {
    match kind {
        b'X' => p,
        b'N' => !p,
        b'F' | b'U' => v,
        b'G' | b'R' => !v,
        _ => false,
    }
}

impl Part {
    // The value of a part, whose own obligation is o, at a step with this letter.
    fn value_at(self, letter: usize, o: bool, values: &Values) -> bool {
        let left = self.left as usize;
        let right = self.right as usize;
        value(
            self.kind,
            digit(letter, left),
            o,
            values[left],
            values[right],
        )
    }

    // The obligation of a part, whose value is v, about a step.
    fn obligation_at(self, v: bool, values: &Values) -> bool {
        obligation(self.kind, values[self.left as usize], v)
    }
}

// The pattern about a step with this letter, where a pattern is about the next step. The last part is the whole formula; what a part
// without an obligation puts behind the bits of those before it is false.
fn pattern_before(parts: &[u32], letter: usize, next: &Pattern) -> Pattern
    requires { length parts.now ≤ index_limit }
{
    let mut values = [false; INDEX_LIMIT];
    let mut pattern = [false; INDEX_LIMIT + 1];
    let mut k = 0;
    for i in 0..parts.len() {
        let part = Part::from(parts[i]);
        let v = part.value_at(letter, next[k + 1], &values);
        values[i] = v;
        pattern[0] = v;
        pattern[k + 1] = part.obligation_at(v, &values);
        if is_temporal(part.kind) {
            k += 1;
        }
    }
    pattern
}

// The same by number.
pub(crate) fn carried(parts: &[u32], letter: usize, p: usize) -> usize
    requires { length parts.now ≤ index_limit }
    ensures { result < pattern_count }
{
    let pattern = pattern_before(parts, letter, &pattern_of(p));
    number_of(&pattern)
}
