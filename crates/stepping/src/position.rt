// A running cabinet: the position, and the calls that start it and step it, by value and on a position that is lent.
ghost use Rattle.std.specs.Prelude.{◌≡◌, ◌<◌, true, false, cond, eqb, Ok, MatchOption};
ghost use Rattle.play.specs.Limits.{side_limit};
ghost use Rattle.play.specs.Cells.{stop_cell, next_cell};
ghost use Rattle.stepping.specs.declared.position.Answer.TheVariants.{Stop, Ready};
ghost use Rattle.stepping.specs.Position.{answer_of, start_at, move_from, refused_at, is_standing, is_held, is_holding};
ghost use Rattle.stepping.specs.Position.{start_of, step_of, is_stopped, left_of, told_answer, told_left, StartedAs, SteppedAs, LeftAs};

use basics::Order;
use lines::Refusal;
use tables::{STOP, Shape};
use wellformed::SizedTable;

// The row, and the choice last set: 65535 for stop, and where none is set yet.
#[derive(Clone, Copy)]
pub struct Position {
    pub row: usize,
    pub choice: u16,
}

// A choice, stop, or ready for an observation where no choice is set yet.
#[derive(Clone, Copy)]
pub enum Answer {
    Choice(u16),
    Stop,
    Ready,
}

// The position afterwards, and the answer or one refusal.
#[derive(Clone, Copy)]
pub struct Moved {
    pub position: Position,
    pub answer: Result<Answer, Refusal>,
}

// A refusal: the position stays as it was.
fn refuse(held: Position, r: Refusal) -> Moved
    ensures { result ≡ refused_at held r }
{
    Moved {
        position: held,
        answer: Err(r),
    }
}

// Under `Set`, on a row by its first cell: its choice is set, or it stops.
fn move_to(row: usize, choice: u16) -> Moved
    ensures { result ≡ record { position = record { row = row; choice = choice }; answer = Ok (answer_of choice) } }
{
    let answer = if choice == STOP {
        Answer::Stop
    } else {
        Answer::Choice(choice)
    };
    Moved {
        position: Position { row, choice },
        answer: Ok(answer),
    }
}

// Under `Read`, on row 0: no choice is set yet.
fn get_ready(first: u16) -> Moved
    ensures { result ≡ record { position = record { row = 0; choice = stop_cell }; answer = Ok (cond (eqb first stop_cell) Stop Ready) } }
{
    let answer = if first == STOP {
        Answer::Stop
    } else {
        Answer::Ready
    };
    Moved {
        position: Position {
            row: 0,
            choice: STOP,
        },
        answer: Ok(answer),
    }
}

// On row 0.
fn start_at(table: &SizedTable) -> Moved
    requires { 0 < table.now.shape.rows }
    ensures { result ≡ start_at table.now.shape.order table.now.cells.now }
{
    let first = table.first(0);
    match table.shape.order {
        Order::Set => move_to(0, first),
        Order::Read => get_ready(first),
    }
}

// From a row, by an observation, on to the next row.
fn move_from(table: &SizedTable, row: usize, observation: usize) -> Moved
    requires row_lt_rows { row < table.now.shape.rows }
    requires observation_lt_side_limit { observation < side_limit }
    requires next_lt_rows { next_cell table.now.shape.order table.now.cells.now row observation < table.now.shape.rows }
    ensures { result ≡ move_from table.now.shape.order table.now.cells.now row observation }
{
    let next = table.next(row, observation) as usize;
    match table.shape.order {
        Order::Set => move_to(next, table.first(next)),
        Order::Read => {
            let choice = table.choice(row, observation);
            Moved {
                position: Position { row: next, choice },
                answer: Ok(Answer::Choice(choice)),
            }
        }
    }
}

// The table, where a cabinet may stand on a row: the tests of number 13.
fn standing<'a>(table: &'a [u16], shape: Shape, row: usize) -> Option<SizedTable<'a>>
    ensures { MatchOption result (is_standing table.now shape row ≡ false)
        (λ t. (t.cells.now ≡ table.now) × (t.shape ≡ shape) × (is_standing table.now shape row ≡ true)) }
{
    match SizedTable::new(table, shape) {
        Some(table) if row < shape.rows && table.is_row(row) => Some(table),
        _ => None,
    }
}

// Whether the standing choice is the row's. Under `Read` it is not compared.
fn is_held(table: &SizedTable, position: Position) -> bool
    requires { position.row < table.now.shape.rows }
    ensures { result ≡ is_held table.now.shape.order table.now.cells.now position }
{
    match table.shape.order {
        Order::Set => table.first(position.row) == position.choice,
        Order::Read => true,
    }
}

// The table, where a cabinet may stand at a position: the tests of number 13.
fn holding<'a>(table: &'a [u16], shape: Shape, position: Position) -> Option<SizedTable<'a>>
    ensures { MatchOption result (is_holding table.now shape position ≡ false)
        (λ t. (t.cells.now ≡ table.now) × (t.shape ≡ shape) × (is_holding table.now shape position ≡ true)) }
{
    match standing(table, shape, position.row) {
        Some(table) if is_held(&table, position) => Some(table),
        _ => None,
    }
}

// Whether the cabinet stands on a stop row, where a step is refused with 14.
#[tactic(auto, unfolding(crate::specs::Position::is_stopped))]
pub fn is_stopped(table: &[u16], shape: Shape, position: Position) -> bool
    ensures { result ≡ is_stopped table.now shape position }
{
    match holding(table, shape, position) {
        Some(table) => table.first(position.row) == STOP,
        None => false,
    }
}

// How many steps are left at most, as an operator's panel shows it: the rank of the row where the cabinet stands. Refusal: 13.
#[tactic(auto, using(crate::proofs::AnswersDue::left_laws), unfolding(crate::specs::Position::left_of))]
pub fn steps_left(table: &[u16], shape: Shape, position: Position) -> Result<u16, Refusal>
    ensures { (result ≡ left_of table.now shape position) × LeftAs table.now shape position (told_left result) }
{
    match holding(table, shape, position) {
        Some(table) => Ok(table.rank(position.row)),
        None => Err(Refusal::BadTable),
    }
}

// Starts at row 0, whatever the old position. Refusal: 13.
#[tactic(auto, using(crate::proofs::AnswersDue::start_told), unfolding(crate::specs::Position::start_of))]
pub fn start_from(table: &[u16], shape: Shape, position: Position) -> Moved
    ensures { (result ≡ start_of table.now shape position)
        × StartedAs table.now shape position (told_answer result.answer) result.position }
{
    match standing(table, shape, 0) {
        Some(table) => start_at(&table),
        None => refuse(position, Refusal::BadTable),
    }
}

// Moves to the next row for an observation. Refusals: 13, 14, 15.
#[tactic(auto, using(crate::proofs::AnswersDue::step_laws), unfolding(crate::specs::Position::step_of))]
pub fn step_from(table: &[u16], shape: Shape, observation: usize, position: Position) -> Moved
    ensures { (result ≡ step_of table.now shape observation position)
        × SteppedAs table.now shape observation position (told_answer result.answer) result.position }
{
    match holding(table, shape, position) {
        None => refuse(position, Refusal::BadTable),
        Some(table) if table.first(position.row) == STOP => refuse(position, Refusal::Stopped),
        Some(table) if observation >= table.observations() => refuse(
            position,
            Refusal::BadObservation,
        ),
        Some(table) => move_from(&table, position.row, observation),
    }
}

// `start_from` on a position that is lent.
pub fn start(table: &[u16], shape: Shape, position: &mut Position) -> Result<Answer, Refusal>
    ensures { (result ≡ (start_of table.now shape position.old).answer)
        × (position.new ≡ (start_of table.now shape position.old).position)
        × StartedAs table.now shape position.old (told_answer result) position.new }
{
    let m = start_from(table, shape, *position);
    *position = m.position;
    m.answer
}

// `step_from` on a position that is lent.
pub fn step(
    table: &[u16],
    shape: Shape,
    observation: usize,
    position: &mut Position,
) -> Result<Answer, Refusal>
    ensures { (result ≡ (step_of table.now shape observation position.old).answer)
        × (position.new ≡ (step_of table.now shape observation position.old).position)
        × SteppedAs table.now shape observation position.old (told_answer result) position.new }
{
    let m = step_from(table, shape, observation, *position);
    *position = m.position;
    m.answer
}
