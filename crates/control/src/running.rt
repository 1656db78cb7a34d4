// A table run on standard input and output: each line is answered before the next is read.
use crate::dialogue::{observation_in, put_answer};
use cabinet::{Answer, Moved, Position, TEXT_SIZE, is_stopped, start_from, step_from, steps_left};
use lines::Refusal;
use std::io;
use std::io::Read;
use streams::{Console, Line, Told};
use tables::{SIDE_LIMIT, Shape};

// A table that is run as a controller, and where its answers go.
#[derive(Clone, Copy)]
struct Controller<'a> {
    console: Console<'a>,
    table: &'a [u16],
    shape: Shape,
}

// Where a run is behind an answer; nowhere once it has ended.
type Place = Option<Position>;

// Room for a line, much more than an observation takes: a line that fills it is none.
const LINE_ROOM: usize = 32;

// Writes an answer with the steps left, which a refusal does not show. `put_refusal` asks for the room of a whole text.
fn write(console: Console, a: Result<Answer, Refusal>, left: u16) -> Result<(), Told> {
    let mut text = [0u8; TEXT_SIZE];
    let n = put_answer(&mut text, a, left);
    console.say(streams::first(&text, n))
}

// Answers that a text is no table. There is no other answer then.
pub(crate) fn refuse_text(console: Console, r: Refusal) -> Result<(), Told> {
    write(console, Err(r), 0)?;
    console.close_output();
    Ok(())
}

impl Controller<'_> {
    // Ends the run by an answer.
    fn end(self, a: Result<Answer, Refusal>, left: u16) -> Result<Place, Told> {
        write(self.console, a, left)?;
        Ok(None)
    }

    // Answers a start or a step, with the steps left. Behind a choice that leads to a stop row, as under `read`, comes a line `stop`.
    fn tell(self, m: Moved, left: u16) -> Result<Place, Told> {
        if let Ok(Answer::Stop) = m.answer {
            return self.end(m.answer, left);
        }
        write(self.console, m.answer, left)?;
        if is_stopped(self.table, self.shape, m.position) {
            return self.end(Ok(Answer::Stop), left);
        }
        Ok(Some(m.position))
    }

    // The same, with the steps left where the position is then. A table that was loaded is refused nothing there.
    fn answer(self, m: Moved) -> Result<Place, Told> {
        match steps_left(self.table, self.shape, m.position) {
            Ok(n) => self.tell(m, n),
            Err(r) => self.end(Err(r), 0),
        }
    }

    // Answers the start, which ignores the position.
    fn start(self) -> Result<Place, Told> {
        self.answer(start_from(self.table, self.shape, Position { row: 0, choice: 0 }))
    }

    // Answers an observation.
    fn step(self, observation: usize, position: Position) -> Result<Place, Told> {
        self.answer(step_from(self.table, self.shape, observation, position))
    }

    // Ends the run where a read failed. What was answered before stands.
    fn end_input(self, error: io::Error) -> Place {
        self.console.fail(b"standard input", error);
        None
    }

    // Answers a long line, which is no observation, as soon as it is known to be long, and then reads its rest.
    fn refuse_long<R: Read>(self, input: &mut R, position: Position) -> Result<Place, Told> {
        let place = self.step(SIDE_LIMIT, position)?;
        if place.is_some() {
            if let Err(error) = streams::skip_line(input) {
                return Ok(self.end_input(error));
            }
        }
        Ok(place)
    }

    // Reads a line and answers it. A line that a failed read cuts off is not answered.
    fn obey_line<R: Read>(self, input: &mut R, position: Position) -> Result<Place, Told> {
        let mut line = [0u8; LINE_ROOM];
        match streams::read_line(input, &mut line) {
            Ok(Line::Given(n)) => self.step(observation_in(&line[..n]), position),
            Ok(Line::Long) => self.refuse_long(input, position),
            Ok(Line::End) => Ok(None),
            Err(error) => Ok(self.end_input(error)),
        }
    }
}

// Runs a table until it stops or the input ends. A proved loop has to end: this one counts up to a number that no run reaches.
pub(crate) fn run<R: Read>(
    console: Console,
    input: &mut R,
    table: &[u16],
    shape: Shape,
) -> Result<(), Told> {
    let controller = Controller {
        console,
        table,
        shape,
    };
    let mut place = controller.start()?;
    for _ in 0..u64::MAX {
        let Some(position) = place else {
            console.close_output();
            return Ok(());
        };
        place = controller.obey_line(input, position)?;
    }
    Ok(())
}
