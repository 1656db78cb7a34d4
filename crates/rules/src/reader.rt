// Reading a problem line by line.
ghost use Rattle.std.specs.Prelude.{◌≡◌, ◌≤◌, length};
ghost use Rattle.rules.specs.Limits.{source_limit};
ghost use Rattle.formula.specs.Limits.{part_limit};
ghost use Rattle.grammar.specs.Names.{names_in};
ghost use Rattle.lines.specs.Lines.{lines};
ghost use Rattle.rules.specs.Problem.{read_lines, blank, read_problem};
ghost use Rattle.lines.specs.Memory.{Kept, LineRead};
ghost use Rattle.rules.specs.Reading.{reading_of, PartsRead, parts_of_outcome, told_reading, ReadAs};

use basics::{Class, past};
use grammar::{BITS, Names};
use lines::{Refusal, Sizes, Word, add_formula, add_order, declare, ordered, word_of};

// Reads line `line`, which has these bytes.
fn read_line<'a>(
    bytes: &'a [u8],
    line: usize,
    s: Sizes,
    names: &mut Names<'a>,
    parts: &mut [u32],
) -> Result<Sizes, Refusal>
    requires { Kept s parts.old }
    ensures { LineRead bytes.now line s (names_in names.old) parts.old (names_in names.new) parts.new result }
{
    let tab = past(bytes, 0, Class::Field);
    if tab == bytes.len() {
        return Err(Refusal::BadLine(line));
    }
    let second = &bytes[tab + 1..];
    match word_of(&bytes[..tab]) {
        Word::Declare(kind) => declare(second, line, kind, s, names),
        Word::Rule => add_formula(names, second, line, s, parts),
        Word::Order => add_order(second, line, s),
        Word::Unknown => Err(Refusal::BadLine(line)),
    }
}

// Reads all lines. After a refusal the list may hold anything.
fn read_lines(source: &[u8], parts: &mut [u32]) -> Result<Sizes, Refusal>
    requires source_len_bound { length source.now ≤ source_limit }
    requires parts_len { length parts.old ≡ part_limit }
    ensures value { result ≡ reading_of (read_lines 1 (lines source.now) blank) }
    ensures parts_read { PartsRead (read_lines 1 (lines source.now) blank) parts.old parts.new }
{
    let mut names: Names<'_> = [b""; BITS];
    let mut s = Sizes {
        outputs: 0,
        observed: 0,
        hidden: 0,
        parts: 0,
        operators: 0,
        order: None,
    };
    let mut at = 0;
    let mut line = 1;
    while at < source.len() {
        let end = past(source, at, Class::Line);
        if end == source.len() {
            return Err(Refusal::BadLine(line));
        }
        s = read_line(&source[at..end], line, s, &mut names, parts)?;
        at = end + 1;
        line += 1;
    }
    if s.parts == 0 {
        return Err(Refusal::NoFormula);
    }
    Ok(ordered(s))
}

// The most bytes of a problem's text.
pub const SOURCE_LIMIT: usize = 4096;

// Reads a problem. After a refusal the list may hold anything.
fn read_source(source: &[u8], parts: &mut [u32]) -> Result<Sizes, Refusal>
    requires { length parts.old ≡ part_limit }
    ensures value { result ≡ reading_of (read_problem source.now) }
    ensures parts_read { PartsRead (read_problem source.now) parts.old parts.new }
{
    if SOURCE_LIMIT < source.len() {
        return Err(Refusal::LongSource);
    }
    read_lines(source, parts)
}

// Reads a problem: how many signals, parts and operators it has, and its order, with the parts of its formula at the front of the
// list, or a refusal from 1 to 8, with the list all zero.
pub fn read(source: &[u8], parts: &mut [u32]) -> Result<Sizes, Refusal>
    requires { length parts.old ≡ part_limit }
    ensures value { result ≡ reading_of (read_problem source.now) }
    ensures parts_after { parts.new ≡ parts_of_outcome (read_problem source.now) parts.old }
    ensures read_as { ReadAs source.now (told_reading result) }
{
    match read_source(source, parts) {
        Ok(s) => Ok(s),
        Err(refusal) => {
            parts.fill(0);
            Err(refusal)
        }
    }
}
