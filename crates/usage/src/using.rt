// The declared signals that are in no part of a formula, line by line.
ghost use Rattle.std.specs.Prelude.{◌≡◌, ◌&&◌, ◌+◌, ◌≤◌, eqb, length, [], ◌∷◌, ◌++◌};
ghost use Rattle.std.specs.List.{list_any};
ghost use Rattle.basics.specs.Lists.{written};
ghost use Rattle.basics.specs.Pieces.{field_at};
ghost use Rattle.basics.specs.Writer.{Puts};
ghost use Rattle.formula.specs.Codes.{part_of, parts_in};
ghost use Rattle.formula.specs.Parts.{is_signal, have_signal};
ghost use Rattle.grammar.specs.Names.{names_in};
ghost use Rattle.lines.specs.Lines.{lines};
ghost use Rattle.usage.specs.Used.{names_text};
ghost use Rattle.usage.specs.Declarations.{declares_unused, unused_from, first_line, first_of};

use basics::{Class, LINE_END, Writer, behind, field, piece};
use formula::{Op, part_of};
use grammar::{BITS, Names, lookup};
use lines::{Word, word_of};

// Whether the number of a part is that of signal b: an operator has the index of a part where a signal has its bit.
fn is_signal(code: u32, b: usize) -> bool
    ensures { result ≡ (is_signal (part_of code).kind && eqb (part_of code).left b) }
{
    let part = part_of(code);
    part.kind == Op::Signal && part.left as usize == b
}

// Whether signal b is among the parts.
fn is_used(parts: &[u32], b: usize) -> bool
    ensures { result ≡ list_any (λ code. is_signal (part_of code).kind && eqb (part_of code).left b) parts.now }
{
    parts.iter().any(|&code| is_signal(code, b))
}

// Whether a line declares a signal that is in none of the parts.
#[tactic(auto, using(crate::proofs::SignalCodes::used, grammar::proofs::NamesLaws::or_bits), unfolding(crate::specs::Declarations::declares_unused))]
fn declares_unused(names: &Names<'_>, parts: &[u32], line: &[u8]) -> bool
    ensures { result ≡ declares_unused (have_signal (parts_in parts.now)) (names_in names.now)
        line.now }
{
    match word_of(field(line, 0)) {
        Word::Declare(_) => !is_used(parts, lookup(names, field(line, 1)).unwrap_or(BITS)),
        _ => false,
    }
}

// The present line, if it counts and none was found before; else what was found.
fn first_of(found: Option<usize>, line: usize, counts: bool) -> Option<usize>
    ensures { result ≡ first_of found line counts }
{
    if counts && found.is_none() {
        Some(line)
    } else {
        found
    }
}

// The line of the first declared signal that is in none of the parts.
pub fn first_unused(source: &[u8], names: &Names<'_>, parts: &[u32]) -> Option<usize>
    ensures { result ≡ first_line (unused_from (have_signal (parts_in parts.now)) (names_in names.now) 1
        (lines source.now)) }
{
    let mut found = None;
    let mut at = 0;
    let mut line = 1;
    while at < source.len() {
        let counts = declares_unused(names, parts, piece(source, at, Class::Line));
        found = first_of(found, line, counts);
        at = behind(source, at, Class::Line);
        line += 1;
    }
    found
}

// Puts the name that a line declares, with a line's end.
fn put_name(out: &mut Writer<'_>, line: &[u8])
    requires { out.old.at + length (field_at 1 line.now ++ (10 ∷ [])) ≤ length out.old.text.now }
    ensures { Puts out.old out.new (field_at 1 line.now ++ (10 ∷ [])) }
{
    out.bytes(field(line, 1));
    out.byte(LINE_END);
}

// Puts the names of the declared signals that are in none of the parts at the front of a text, in declared order, each with a line's end, and
// answers their length. Each is shorter than its line, so a text as long as the source has room.
pub fn put_unused(source: &[u8], names: &Names<'_>, parts: &[u32], text: &mut [u8]) -> usize
    requires { length source.now ≤ length text.old }
    ensures value { result ≡ length (names_text (unused_from (have_signal (parts_in parts.now)) (names_in names.now)
        1 (lines source.now))) }
    ensures text_after { text.new ≡ written (names_text (unused_from (have_signal (parts_in parts.now))
        (names_in names.now) 1 (lines source.now))) text.old }
{
    let mut out = Writer { text, at: 0 };
    let mut at = 0;
    while at < source.len() {
        let line = piece(source, at, Class::Line);
        if declares_unused(names, parts, line) {
            put_name(&mut out, line);
        }
        at = behind(source, at, Class::Line);
    }
    out.at
}
