// Inputs, outputs and arguments of the programs. An input or a line that was not read to its end is never taken for a whole one, and a
// failure is told on standard error.
//
// Which bytes are read and written, and which calls of the system fail, is open by nature: no contract can say it. The contracts say where
// in a buffer a whole input, line or argument stands, and those of `ended` and `line_ended` what is made of a read that brings nothing.
#![tactic(auto)]

mod arguments;
mod console;
mod fields;
mod reading;
mod reading_lines;

pub use arguments::{Request, argument_at, is_help, is_option, open, requested};
pub use console::{Console, Told};
pub use fields::{AnswersLines, answer_lines, for_each_line};
pub use reading::{
    Input, LINES_SIZE, drain, first, read_file, read_input, read_lines, read_to_end,
};
pub use reading_lines::{Line, read_line, skip_line};
