// How many problems of a kind and an order were drawn, on how many the solvers agree, what kinds of answers these have, and how many of them
// were asked in two ways.
use crate::comparing::{Compared, compare, observe};
use crate::draw::draw;
use crate::draw_formula::{Side, Text};
use crate::line::kind_of;
use crate::plain::UNREALIZABLE;
use basics::Order;
use std::num::wrapping_add_usize;
use streams::{Console, Told};

// What is counted: all problems; those on which both solvers agree, and of these the tables and the refusals, the first of which has number
// 1; tables with a worst case over 1 and over 2; where it matters that hidden signals are hidden; those whose two texts differ and are
// answered alike; and all problems where the order matters.
#[derive(Clone, Copy, Default)]
pub struct Counts {
    drawn: usize,
    agree: usize,
    tables: usize,
    refusals: [usize; 11],
    over_one: usize,
    over_two: usize,
    hidden_matter: usize,
    alike: usize,
    order_matters: usize,
}

// The names of what is counted.
pub(crate) fn write_names(console: Console) -> Result<(), Told> {
    console.say(
        b"kind\torder\tdrawn\tagree\ttables\t1\t2\t3\t4\t5\t6\t7\t8\t9\t10\t11\tover 1 step\tover 2 steps\thidden matter\talike\torder matters\n",
    )
}

// Counts one more, if it is one.
fn count_if(count: &mut usize, is_one: bool) {
    *count = wrapping_add_usize(*count, is_one as usize);
}

impl Counts {
    // Writes the line of a kind and an order. What fails before its end is told.
    pub(crate) fn write(&self, console: Console, kind: &[u8], order: &[u8]) -> Result<(), Told> {
        console.say_part(kind);
        console.say_fields(order, &[self.drawn, self.agree, self.tables]);
        console.say_fields(b"", &self.refusals);
        console.say_fields(b"", &[self.over_one, self.over_two, self.hidden_matter]);
        console.say_fields(b"", &[self.alike, self.order_matters]);
        console.say(b"\n")
    }

    // Counts a problem on which both solvers agree, where d is the answer if the hidden signals are observed.
    fn add_agreed(&mut self, c: Compared, d: Compared) {
        count_if(&mut self.agree, true);
        match c.answer {
            Ok(solved) => {
                count_if(&mut self.tables, true);
                count_if(&mut self.over_one, solved.worst_case > 1);
                count_if(&mut self.over_two, solved.worst_case > 2);
            }
            Err(refused) => {
                for (i, count) in self.refusals.iter_mut().enumerate() {
                    count_if(count, i + 1 == refused.number);
                }
            }
        }
        count_if(&mut self.hidden_matter, differ(c, d));
        count_if(&mut self.alike, c.texts_differ);
    }

    // Counts a problem, where d is the answer if the hidden signals are observed.
    fn add(&mut self, c: Compared, d: Compared) {
        count_if(&mut self.drawn, true);
        if c.agrees & d.agrees {
            self.add_agreed(c, d);
        }
    }
}

// Whether two problems are both solved, by a table or as unrealizable, and the answer or the worst case is another.
fn differ(c: Compared, d: Compared) -> bool {
    match (c.answer, d.answer) {
        (Ok(a), Ok(b)) => a.worst_case != b.worst_case,
        (Ok(_), Err(r)) | (Err(r), Ok(_)) => r == UNREALIZABLE,
        (Err(_), Err(_)) => false,
    }
}

// Writes a problem, in both ways where they differ.
fn show(console: Console, text: &[u8], other: &[u8], c: Compared) {
    console.say_part(b"\n");
    console.say_part(text);
    if c.texts_differ {
        console.say_part(other);
    }
}

// Solves a problem by both. If they differ, and have not before on a problem of the kind, it is written.
fn compare_shown(
    console: Console,
    text: &[u8],
    other: &[u8],
    counts: &Counts,
    agreed: bool,
) -> Compared {
    let c = compare(text, other);
    if agreed & !c.agrees & (counts.drawn == counts.agree) {
        show(console, text, other, c);
    }
    c
}

// Solves a problem by both, then with its hidden signals observed, counts it, and answers how the first went.
fn count(console: Console, text: &mut Text, other: &mut Text, counts: &mut Counts) -> Compared {
    let c = compare_shown(console, text.as_slice(), other.as_slice(), counts, true);
    observe(text);
    observe(other);
    let d = compare_shown(console, text.as_slice(), other.as_slice(), counts, c.agrees);
    counts.add(c, d);
    c
}

// Draws a problem of a line's kind and an order in both ways, and counts it. The kind is read each time that a text is drawn, so that what is
// wrong with it is said each time.
fn draw_one(
    console: Console,
    line: &[u8],
    order: Order,
    seed: u64,
    counts: &mut Counts,
) -> Compared {
    let mut text = draw(kind_of(console, line), order, Side::First, seed);
    let mut other = draw(kind_of(console, line), order, Side::Second, seed);
    count(console, &mut text, &mut other, counts)
}

// Draws a problem of a line's kind under both orders, and counts it.
pub(crate) fn draw_both(
    console: Console,
    line: &[u8],
    seed: u64,
    set: &mut Counts,
    read: &mut Counts,
) {
    let c = draw_one(console, line, Order::Set, seed, set);
    let d = draw_one(console, line, Order::Read, seed, read);
    count_if(&mut set.order_matters, differ(c, d));
    count_if(&mut read.order_matters, differ(c, d));
}
