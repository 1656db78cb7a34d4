// Problems drawn from a seed: signals, rules, and the order of a step. A problem can be drawn in two ways, by either side of the pairs among
// the patterns of its rules.
ghost use Rattle.std.specs.Prelude.{◌<◌};

use crate::comparing::ROOM;
use crate::draw_formula::{Drawing, Side, Text, below, letter, step};
use basics::Order;
use std::num::wrapping_add_usize;

// What is drawn: so many signals of each kind and so many rules, each by one of some patterns, which are parted by spaces. A random tree has
// at most `size` parts, and all rules together have at most `operators` temporal operators. Under `damage` one byte of the text is
// overwritten by another of its bytes.
#[derive(Clone, Copy)]
pub struct Kind<'a> {
    pub outputs: usize,
    pub observed: usize,
    pub hidden: usize,
    pub rules: usize,
    pub size: usize,
    pub operators: usize,
    pub damage: bool,
    pub patterns: &'a [u8],
}

impl Kind<'_> {
    // Inputs are the signals that are not outputs.
    pub(crate) fn inputs(self) -> usize {
        wrapping_add_usize(self.observed, self.hidden)
    }
}

// Declares n signals with names from a first letter on.
fn declare(text: &mut Text, d: &mut Drawing, word: &[u8], first: u8, n: usize)
    requires { first < 128 }
{
    for i in 0..n {
        text.append(word);
        text.append(&[letter(first, i)]);
        d.put(text, b"\n");
    }
}

// Where drawing begins. A few steps of the generator part seeds that are close.
fn begun(kind: Kind, side: Side, seed: u64) -> Drawing {
    let s = step(step(step(step(seed ^ 0x9E3779B97F4A7C15))));
    Drawing {
        seed: s,
        operators: kind.operators,
        turn: below(s, 5040),
        side,
        kind,
    }
}

// Overwrites a byte by another, where there are any.
fn damage(text: &mut Text, seed: u64) {
    let n = text.count;
    if n > 0 {
        text.items[below(seed >> 20, n)] = text.items[below(seed >> 40, n)];
    }
}

// Where the order's line can stand.
#[derive(Clone, Copy, PartialEq)]
enum Place {
    First,
    BehindSignals,
    Last,
}

// Where the order's line stands. Every other problem of the order `set` has none.
fn place_of(order: Order, seed: u64) -> Option<Place> {
    match order {
        Order::Set if seed >> 10 & 1 == 0 => return None,
        _ => {}
    }
    match below(seed >> 11, 3) {
        0 => Some(Place::First),
        1 => Some(Place::BehindSignals),
        _ => Some(Place::Last),
    }
}

// Puts the order's line. The generator stays where it was, so that a problem is drawn alike under both orders.
fn put_order(text: &mut Text, order: Order) {
    text.append(b"order\t");
    match order {
        Order::Set => text.append(b"set\n"),
        Order::Read => text.append(b"read\n"),
    }
}

fn put_rules(text: &mut Text, d: &mut Drawing, n: usize) {
    for _ in 0..n {
        d.take_turn();
        d.put(text, b"rule\t");
        d.put_pattern(text);
    }
}

// Puts the declarations, the rules and the order.
fn put_problem(text: &mut Text, d: &mut Drawing, kind: Kind, order: Order) {
    let place = place_of(order, d.seed);
    if place == Some(Place::First) {
        put_order(text, order);
    }
    declare(text, d, b"out\t", b'a', kind.outputs);
    declare(text, d, b"see\t", b's', kind.observed);
    declare(text, d, b"hid\t", b'h', kind.hidden);
    if place == Some(Place::BehindSignals) {
        put_order(text, order);
    }
    put_rules(text, d, kind.rules);
    if place == Some(Place::Last) {
        put_order(text, order);
    }
}

// Draws a problem of a kind and an order, by one side of its pairs. A text that does not fit is cut.
pub(crate) fn draw(kind: Kind, order: Order, side: Side, seed: u64) -> Text {
    let mut text = Text {
        items: [0; ROOM],
        count: 0,
    };
    let mut d = begun(kind, side, seed);
    put_problem(&mut text, &mut d, kind, order);
    if kind.damage {
        damage(&mut text, d.seed);
    }
    text
}
