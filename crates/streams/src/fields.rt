// Texts whose lines hold fields that are parted by tabs: what a program that answers each line reads and writes.
ghost use Rattle.std.specs.Prelude.{◌<◌};

use crate::console::{Console, Told};
use basics::{Class, LINE_END, past};

// A program that answers lines.
pub trait AnswersLines {
    // Answers a line, which has no end here.
    fn answer_line(&self, line: &[u8]) -> Result<(), Told>;
}

// Has each line of a text answered, up to one at which that fails.
#[tactic(auto, using(basics::proofs::BytesLaws::past_in))]
pub fn answer_lines<P: AnswersLines>(text: &[u8], program: &P) -> Result<(), Told> {
    let mut i = 0;
    while i < text.len() {
        let end = past(text, i, Class::Line);
        program.answer_line(&text[i..end])?;
        i = end + 1;
    }
    Ok(())
}

// Answers each line of a text, without its end, up to one at which that fails.
pub fn for_each_line<F: Fn(&[u8]) -> Result<(), Told>>(text: &[u8], answer: F) -> Result<(), Told>
    requires { F.IsAlwaysCallable answer }
{
    for line in text.split_inclusive(|&byte| byte == LINE_END) {
        answer(line.strip_suffix(&[LINE_END]).unwrap_or(line))?;
    }
    Ok(())
}

impl Console<'_> {
    // Writes a part of a line: where that fails it is told, and what comes behind it is written all the same.
    pub fn say_part(self, text: &[u8]) {
        let _ = self.say(text);
    }

    // Writes a text, and behind it numbers, each as a field. Where a part of that fails the rest is written as `say_part` writes.
    pub fn say_fields(self, text: &[u8], numbers: &[usize]) {
        self.say_part(text);
        for &n in numbers {
            self.say_part(b"\t");
            let _ = self.say_number(n as u64);
        }
    }

    // Writes the field that says that something is wrong, such as a line that is not of the form asked for, as `say_part` writes.
    pub fn say_wrong(self) {
        self.say_part(b"\twrong");
    }

    // The number that digits stand for; 0 where they stand for none, which is said.
    #[tactic(auto, using(basics::proofs::NumbersLaws::number_below_lem))]
    pub fn number_in(self, digits: &[u8]) -> usize
        ensures { result < 65536 }
    {
        match basics::number_in(digits) {
            Some(n) => n,
            None => {
                self.say_wrong();
                0
            }
        }
    }
}

#[cfg(test)]
mod tests {
    use super::*;

    // Lines come without their ends, an empty one and a last one that has none too; one that fails is told, wherever it stands.
    #[test]
    fn lines_are_answered(rt: HostRuntime) {
        let known = |line: &[u8]| match line {
            b"" | b"a" | b"bc" => Ok(()),
            _ => Err(Told),
        };
        for text in [&b""[..], b"a", b"a\n", b"\n", b"a\n\nbc\n", b"\n\nbc"] {
            assert!(rt; for_each_line(text, known).is_ok());
        }
        for text in [&b"b"[..], b"a\n\nb\n", b"ab\n\nbc", b"a\nbc\nb"] {
            assert!(rt; for_each_line(text, known).is_err());
        }
    }
}
