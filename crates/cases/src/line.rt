// The texts, numbers and shapes in a line's fields. In a text `\n` is a line end, `\t` a tab, `\r` a carriage return and `\\` a backslash,
// and `\2` is all that stands before it in the text once more: `\n\2\2` is four line ends. Numbers are decimal. Those of a list are parted
// by single spaces, and `z` before a number is so many zeros: `1 z3` is `1 0 0 0`.
ghost use Rattle.std.specs.Prelude.{◌≤◌, ◌<◌, length};

use basics::{Class, Order, field, past};
use game::Shape;
use streams::Console;

// A case: its line, and where it is answered.
#[derive(Clone, Copy)]
pub struct Case<'a> {
    pub console: Console<'a>,
    pub line: &'a [u8],
}

impl<'a> Case<'a> {
    pub(crate) fn field(self, k: usize) -> &'a [u8] {
        field(self.line, k)
    }

    // The number in a field; 0 where the field is empty.
    pub(crate) fn argument(self, k: usize) -> usize
        ensures { result < 65536 }
    {
        match self.field(k) {
            [] => 0,
            digits => self.console.number_in(digits),
        }
    }

    // The order in a field: 0 or nothing for `set`, 1 for `read`.
    fn order_at(self, k: usize) -> Order {
        match self.argument(k) {
            0 => Order::Set,
            1 => Order::Read,
            _ => {
                self.console.say_wrong();
                Order::Set
            }
        }
    }

    // The shape whose row count, observed signals and order stand in these fields.
    pub(crate) fn shape_at(self, rows: usize, observed: usize, order: usize) -> Shape
        ensures { result.rows < 65536 }
    {
        Shape {
            rows: self.argument(rows),
            observed: self.argument(observed),
            order: self.order_at(order),
        }
    }
}

// Puts a number, if there is room, and answers how many are put.
fn put_number(console: Console, room: &mut [u16], digits: &[u8]) -> usize
    ensures { result ≤ length room.new }
{
    if room.len() == 0 {
        console.say_wrong();
        return 0;
    }
    room[0] = console.number_in(digits) as u16;
    1
}

// How many of k zeros are put: all, if there is room. Numbers that are not put are 0.
fn zeros(console: Console, room: usize, k: usize) -> usize
    ensures { result ≤ room }
{
    if k > room {
        console.say_wrong();
        return 0;
    }
    k
}

// Puts what a word of a list stands for, and answers how many numbers are put.
fn put_word(console: Console, room: &mut [u16], word: &[u8]) -> usize
    ensures { result ≤ length room.new }
{
    match word {
        [b'z', digits @ ..] => zeros(console, room.len(), console.number_in(digits)),
        _ => put_number(console, room, word),
    }
}

// The place behind a word, where a space or the list's end has to stand.
#[tactic(auto, using(basics::proofs::BytesLaws::past_in))]
fn word_end(console: Console, list: &[u8], from: usize) -> usize
    requires { from ≤ length list.now }
    ensures { (from ≤ result) × (result ≤ length list.now) }
{
    let end = past(list, from, Class::Word);
    if end < list.len() && list[end] != b' ' {
        console.say_wrong();
    }
    end
}

// Reads a list into numbers that are 0 before, and answers those that it has.
pub(crate) fn read_numbers<'a>(console: Console, list: &[u8], numbers: &'a mut [u16]) -> &'a [u16]
    ensures { length result.now ≤ length numbers.old }
{
    let mut n = 0;
    let mut i = 0;
    while i < list.len() {
        let end = word_end(console, list, i);
        n += put_word(console, &mut numbers[n..], &list[i..end]);
        i = end + 1;
    }
    &numbers[..n]
}

// The byte that a backslash and another byte stand for.
fn escaped(console: Console, b: u8) -> u8 {
    match b {
        b'n' => b'\n',
        b't' => b'\t',
        b'r' => b'\r',
        b'\\' => b'\\',
        _ => {
            console.say_wrong();
            0
        }
    }
}

// Puts the n bytes of a text behind themselves, if there is room, and answers how many there are then.
fn put_again(console: Console, text: &mut [u8], n: usize) -> usize
    requires { n ≤ length text.old }
    ensures { result ≤ length text.new }
{
    if text.len() - n < n {
        console.say_wrong();
        return n;
    }
    text.copy_within(..n, n);
    n + n
}

// Puts a byte, or what a backslash and the next byte stand for, behind n bytes, and answers how many there are then.
fn put(console: Console, text: &mut [u8], n: usize, b: u8, next: u8) -> usize
    requires { n ≤ length text.old }
    ensures { result ≤ length text.new }
{
    if n == text.len() {
        console.say_wrong();
        return n;
    }
    if b == b'\\' && next == b'2' {
        return put_again(console, text, n);
    }
    text[n] = if b == b'\\' {
        escaped(console, next)
    } else {
        b
    };
    n + 1
}

// How many bytes that takes of the line.
fn width(b: u8) -> usize
    ensures { (1 ≤ result) × (result ≤ 2) }
{
    if b == b'\\' { 2 } else { 1 }
}

// Reads a text, and answers it.
pub(crate) fn read_text<'a>(console: Console, raw: &[u8], text: &'a mut [u8]) -> &'a [u8]
    ensures { length result.now ≤ length text.old }
{
    let mut n = 0;
    let mut i = 0;
    while i < raw.len() {
        let b = raw[i];
        n = put(console, text, n, b, raw.get(i + 1).copied().unwrap_or(0));
        i += width(b);
    }
    &text[..n]
}
