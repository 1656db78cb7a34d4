// Formulas drawn by patterns: random trees and what stands around them. A pattern may be a pair, two sides with `=` between them, such as a
// plan word and what it stands for: then a formula can be drawn in two ways, with the same pattern, signals and operands.
ghost use Rattle.std.specs.Prelude.{◌+◌, ◌<◌};

use crate::comparing::ROOM;
use crate::draw::Kind;
use crate::list::List;
use std::num::wrapping_add_usize;

// A text, which is cut where it does not fit.
pub type Text = List<u8, ROOM>;

// A side of the patterns that are pairs.
#[derive(Clone, Copy)]
pub enum Side {
    First,
    Second,
}

// Where drawing stands: the generator, the temporal operators left, and whose turn it is among the signals; then what is drawn.
#[derive(Clone, Copy)]
pub struct Drawing<'a> {
    pub seed: u64,
    pub operators: usize,
    pub turn: usize,
    pub side: Side,
    pub kind: Kind<'a>,
}

// One step of the generator xorshift64.
pub(crate) fn step(x: u64) -> u64 {
    let y = x ^ x << 13;
    let z = y ^ y >> 7;
    z ^ z << 17
}

// A number below n.
pub(crate) fn below(seed: u64, n: usize) -> usize
    requires { 0 < n }
    ensures { result < n }
{
    seed as usize % n
}

// What stands in the place of a temporal operator when none is left; other bytes stand for themselves.
fn plain(b: u8) -> u8 {
    match b {
        b'U' => b'|',
        b'R' => b'&',
        b'X' | b'N' | b'F' | b'G' => b' ',
        _ => b,
    }
}

// A name of one letter. The eighth of a kind has the name of the first.
pub(crate) fn letter(first: u8, i: usize) -> u8
    requires { first < 128 }
{
    first + (i % 7) as u8
}

// The operators that a tree is drawn from. The first ten are prefixes.
fn operator_at(k: usize) -> u8
    requires { k < 20 }
{
    let operators = b"!XNFGXN!XNUURR&|>UR&";
    operators[k]
}

// A parenthesis, or a space by one chance in four: for both of a pair by the same seed.
fn parenthesis(b: u8, seed: u64) -> u8 {
    if seed >> 40 & 3 == 0 { b' ' } else { b }
}

// How many parts the left operand has. It is the smaller one more often.
fn left_size(seed: u64, size: usize) -> usize
    requires { 2 < size }
    ensures { (0 < result) × (result + 1 < size) }
{
    below(seed >> 30, below(seed >> 45, size - 2) + 1) + 1
}

// What a byte of a pattern draws: `Y` is one of `X` and `N`, `V` one of `U` and `R`, and `W` the small letter, as in `Within`. Others, such
// as digits and the letters of the other plan words, stand for themselves.
fn drawn(b: u8, seed: u64) -> u8 {
    let first = seed >> 20 & 1 == 0;
    match b {
        b'Y' => if first { b'X' } else { b'N' },
        b'V' => if first { b'U' } else { b'R' },
        b'W' => b'w',
        _ => b,
    }
}

// The start of a pattern: the place behind the next space from a drawn place on, or the first where there is none.
fn pattern_at(patterns: &[u8], seed: u64) -> usize {
    let n = patterns.len();
    if n == 0 {
        return 0;
    }
    for i in below(seed >> 40, n)..n {
        if patterns[i] == b' ' {
            return i + 1;
        }
    }
    0
}

// Where the second side begins of the pattern that begins at a place: behind `=`, or at the same place where the pattern is no pair.
fn second_at(patterns: &[u8], first: usize) -> usize {
    for i in first..patterns.len() {
        match patterns[i] {
            b'=' => return i + 1,
            b' ' => return first,
            _ => {}
        }
    }
    first
}

impl Drawing<'_> {
    // Puts a word. With every word the generator goes a step on: all that is drawn for one word comes from one seed.
    pub(crate) fn put(&mut self, text: &mut Text, word: &[u8]) {
        text.append(word);
        self.seed = step(self.seed);
    }

    // Puts a token of one byte, where `>` stands for `->` and 0 for nothing; now and then with a space before it where it is no small letter.
    fn put_token(&mut self, text: &mut Text, b: u8) {
        if b == b'>' {
            text.append(b"-");
        } else if (b < b'a') & (self.seed >> 50 & 7 == 0) {
            text.append(b" ");
        }
        match b {
            0 => self.put(text, b""),
            _ => self.put(text, &[b]),
        }
    }

    // Puts an operator, which is counted if it is temporal.
    fn put_operator(&mut self, text: &mut Text, b: u8) {
        if plain(b) != b && self.operators > 0 {
            self.operators -= 1;
            self.put_token(text, b);
        } else {
            self.put_token(text, plain(b));
        }
    }

    // The name of signal i: outputs first, then observed, then hidden ones.
    fn name(self, i: usize) -> u8 {
        if i < self.kind.outputs {
            return letter(b'a', i);
        }
        let j = i - self.kind.outputs;
        if j < self.kind.observed {
            return letter(b's', j);
        }
        letter(b'h', j - self.kind.observed)
    }

    // The name that has its turn at t among the n signals from the first on, where there are any.
    fn signal(self, t: usize, first: usize, n: usize) -> Option<u8> {
        if n == 0 {
            return None;
        }
        Some(self.name(wrapping_add_usize(first, t % n)))
    }

    // Puts a signal's name, or `true` for none.
    fn put_signal(&mut self, text: &mut Text, signal: Option<u8>) {
        match signal {
            Some(name) => self.put(text, &[name]),
            None => self.put(text, b"true"),
        }
    }

    // Gives the turn to the next signal, or by one chance in four to the one after it.
    pub(crate) fn take_turn(&mut self) {
        self.turn = self.turn % 5040 + 1 + (self.seed >> 30) as usize % 4 / 3;
    }

    // The signal that has its turn, or by one chance in sixteen none.
    fn leaf(self) -> Option<u8> {
        if self.seed >> 20 & 15 == 0 {
            return None;
        }
        let n = wrapping_add_usize(self.kind.outputs, self.kind.inputs());
        self.signal(self.turn, 0, n)
    }

    // Puts a random formula of at most so many parts, and of one at least.
    #[cycle(put_tree_put_two)]
    fn put_tree(&mut self, text: &mut Text, size: usize) {
        if size < 3 {
            self.take_turn();
            let signal = self.leaf();
            return self.put_signal(text, signal);
        }
        let k = below(self.seed >> 20, 20);
        let b = operator_at(k);
        if k < 10 {
            self.put_operator(text, b);
            return self.put_tree(text, size - 1);
        }
        self.put_two(text, b, size);
    }

    // Puts an operator between its operands.
    #[cycle(put_tree_put_two)]
    fn put_two(&mut self, text: &mut Text, b: u8, size: usize)
        requires { 2 < size }
    {
        let seed = self.seed;
        let left = left_size(seed, size);
        self.put(text, &[parenthesis(b'(', seed)]);
        self.put_tree(text, left);
        self.put_operator(text, b);
        self.put_tree(text, size - 1 - left);
        self.put(text, &[parenthesis(b')', seed)]);
    }

    // How many parts a tree has: the most that are asked for, or down to half of them.
    fn tree_size(self) -> usize {
        let most = self.kind.size;
        most - below(self.seed >> 20, most / 2 + 1)
    }

    // The signal of a variable of the pattern that begins here.
    fn variable(self, b: u8) -> Option<u8> {
        let t = wrapping_add_usize(self.turn, b as usize);
        if b < b'x' {
            return self.signal(t, self.kind.outputs, self.kind.inputs());
        }
        self.signal(t, 0, self.kind.outputs)
    }

    // Puts a variable with its sign, the same wherever it stands in the pattern.
    fn put_variable(&mut self, text: &mut Text, start: Drawing, b: u8) {
        if start.seed >> (b % 16) & 1 == 0 {
            text.append(b"!");
        }
        self.put_signal(text, start.variable(b));
    }

    // Puts a random formula without temporal operators, the same wherever it stands in the pattern: an operand of a plan word.
    fn put_operand(&mut self, text: &mut Text, start: Drawing) {
        let operators = self.operators;
        self.seed = start.seed;
        self.turn = start.turn;
        self.operators = 0;
        self.put_tree(text, start.tree_size());
        self.operators = operators;
    }

    // Puts what a byte of a pattern stands for: `v` and `w` are inputs, `x` and `y` outputs, `#` is a tree, `%` an operand, `>` the arrow.
    fn put_symbol(&mut self, text: &mut Text, start: Drawing, b: u8) {
        match b {
            b'v'..=b'y' => self.put_variable(text, start, b),
            b'#' => {
                let size = self.tree_size();
                self.put_tree(text, size);
            }
            b'%' => self.put_operand(text, start),
            _ => {
                let operator = drawn(b, self.seed);
                self.put_operator(text, operator);
            }
        }
    }

    // Puts the side of a pattern that begins at a place.
    fn put_side(&mut self, text: &mut Text, first: usize) {
        let start = *self;
        let patterns = self.kind.patterns;
        for i in first..patterns.len() {
            let b = patterns[i];
            if (b == b' ') | (b == b'=') {
                return;
            }
            self.put_symbol(text, start, b);
        }
    }

    // Puts one side of one of the patterns, and the line's end. Behind a pair drawing goes on from where it began, so that what comes is the
    // same behind either side.
    pub(crate) fn put_pattern(&mut self, text: &mut Text) {
        let start = *self;
        let first = pattern_at(self.kind.patterns, self.seed);
        let second = second_at(self.kind.patterns, first);
        match self.side {
            Side::First => self.put_side(text, first),
            Side::Second => self.put_side(text, second),
        }
        if second != first {
            *self = start;
        }
        self.put(text, b"\n");
    }
}
