// What is typed and what is written: observations and answers as lines of text.
ghost use Rattle.std.specs.Prelude.{◌≡◌, [], ◌∷◌, ◌≤◌, length};
ghost use Rattle.basics.specs.Bytes.{bytes_of};
ghost use Rattle.basics.specs.Lists.{written};
ghost use Rattle.basics.specs.Text.{decimal, line};
ghost use Rattle.printer.specs.Limits.{text_size};
ghost use Rattle.control.specs.Dialogue.{word_room, answer_text, observation_in};

use basics::{LINE_END, Writer, number_below, same};
use cabinet::Answer;
use lines::Refusal;
use printer::put_refusal;
use tables::SIDE_LIMIT;

// Puts a line of a short word and a number, and answers its length.
fn put_word(text: &mut [u8], word: &[u8], n: u16) -> usize
    requires word_len_bound { length word.now ≤ word_room }
    requires text_size_in_bounds { text_size ≤ length text.old }
    ensures value { result ≡ length (line word.now (decimal n ∷ [])) }
    ensures text_after { text.new ≡ written (line word.now (decimal n ∷ [])) text.old }
{
    let mut out = Writer { text, at: 0 };
    out.bytes(word);
    out.field(n as usize);
    out.byte(LINE_END);
    out.at
}

// Puts the line of a choice, and answers its length.
fn put_choice(text: &mut [u8], c: u16, left: u16) -> usize
    requires { text_size ≤ length text.old }
    ensures value { result ≡ length (line (bytes_of "choice") (decimal c ∷ decimal left ∷ [])) }
    ensures text_after { text.new ≡ written (line (bytes_of "choice") (decimal c ∷ decimal left ∷ [])) text.old }
{
    let mut out = Writer { text, at: 0 };
    out.line(b"choice", c as usize, left as usize);
    out.at
}

// Puts the line of an answer, with the steps left at most, and answers its length.
pub(crate) fn put_answer(text: &mut [u8], a: Result<Answer, Refusal>, left: u16) -> usize
    requires { text_size ≤ length text.old }
    ensures value { result ≡ length (answer_text a left) }
    ensures text_after { text.new ≡ written (answer_text a left) text.old }
{
    match a {
        Ok(Answer::Choice(c)) => put_choice(text, c, left),
        Ok(Answer::Stop) => put_word(text, b"stop", left),
        Ok(Answer::Ready) => put_word(text, b"ready", left),
        Err(r) => put_refusal(text, r),
    }
}

// The observation that a line holds, without its end. It has to be written as the printer writes a number; any other line counts as 16,
// which is no observation of any table, so that `step_from` refuses it.
pub(crate) fn observation_in(line: &[u8]) -> usize
    ensures { result ≡ observation_in line.now }
{
    let n = number_below(line, SIDE_LIMIT);
    let mut digits = [0u8; 2];
    let mut out = Writer {
        text: &mut digits,
        at: 0,
    };
    out.decimal(n);
    let end = out.at;
    if same(line, &out.text[..end]) {
        return n;
    }
    SIDE_LIMIT
}
