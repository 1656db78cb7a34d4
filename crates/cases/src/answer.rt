// What a call answers, written as fields behind the case's name.
use basics::Order;
use cabinet::{Answer, Moved, is_stopped, steps_left};
use game::{Shape, Table};
use lines::order_of;
use rules::{Refusal, Sizes, number, place};
use streams::Console;

// Writes a field with its tab, a number behind that, and more numbers, each as a field.
fn tell(console: Console, field: &[u8], n: usize, more: &[usize]) {
    console.say_part(field);
    let _ = console.say_number(n as u64);
    console.say_fields(b"", more);
}

fn refused(console: Console, r: Refusal) {
    tell(console, b"\trefused\t", number(r), &[place(r)]);
}

fn order(console: Console, o: Order) {
    match o {
        Order::Set => console.say_part(b"\tset"),
        Order::Read => console.say_part(b"\tread"),
    }
}

// How many signals of each kind, parts and temporal operators were read, and the order.
pub(crate) fn reading(console: Console, r: Result<Sizes, Refusal>) {
    match r {
        Ok(s) => {
            let more = [s.observed, s.hidden, s.parts, s.operators];
            tell(console, b"\tread\t", s.outputs, &more);
            order(console, order_of(s));
        }
        Err(x) => refused(console, x),
    }
}

pub(crate) fn verdict(console: Console, v: Result<bool, Refusal>) {
    match v {
        Ok(true) => console.say_part(b"\ttrue"),
        Ok(false) => console.say_part(b"\tfalse"),
        Err(r) => refused(console, r),
    }
}

// The first word of a table's text, rows and worst case.
fn table(console: Console, shape: Shape, worst: usize) {
    match shape.order {
        Order::Set => tell(console, b"\ttable\t", shape.rows, &[worst]),
        Order::Read => tell(console, b"\trtable\t", shape.rows, &[worst]),
    }
}

pub(crate) fn solved(console: Console, s: Result<Table, Refusal>) {
    match s {
        Ok(t) => table(console, t.shape, t.worst_case),
        Err(r) => refused(console, r),
    }
}

// The same with the observed signals.
pub(crate) fn loaded(console: Console, l: Result<Table, Refusal>) {
    solved(console, l);
    if let Ok(t) = l {
        console.say_fields(b"", &[t.shape.observed]);
    }
}

// The place of a bad text.
pub(crate) fn fault(console: Console, l: Result<Table, Refusal>) {
    match l {
        Err(Refusal::BadText(place)) => console.say_fields(b"", &[place]),
        _ => console.say_wrong(),
    }
}

pub(crate) fn printed(console: Console, p: Result<usize, Refusal>) {
    match p {
        Ok(n) => tell(console, b"\ttext\t", n, &[]),
        Err(r) => refused(console, r),
    }
}

fn choice(console: Console, a: Result<Answer, Refusal>) {
    match a {
        Ok(Answer::Choice(c)) => tell(console, b"\tchoice\t", c as usize, &[]),
        Ok(Answer::Stop) => console.say_part(b"\tstop"),
        Ok(Answer::Ready) => console.say_part(b"\tready"),
        Err(r) => refused(console, r),
    }
}

fn left(console: Console, l: Result<u16, Refusal>) {
    match l {
        Ok(n) => tell(console, b"\tleft\t", n as usize, &[]),
        Err(r) => refused(console, r),
    }
}

// The answer and the position behind it, whether the cabinet stands on a stop row there, and how many steps are left.
pub(crate) fn moved(console: Console, table: &[u16], shape: Shape, m: Moved) {
    choice(console, m.answer);
    tell(console, b"\trow\t", m.position.row, &[]);
    tell(console, b"\tchoice\t", m.position.choice as usize, &[]);
    if is_stopped(table, shape, m.position) {
        console.say_part(b"\tstopped");
    }
    left(console, steps_left(table, shape, m.position));
}
