// A line that states a formula.
ghost use Rattle.std.specs.Prelude.{◌≡◌, ◌+◌, ◌-◌, ◌≤◌, ◌<◌, length};
ghost use Rattle.syntax.specs.Lex.{tokens};
ghost use Rattle.grammar.specs.Names.{names_in};
ghost use Rattle.basics.specs.Limits.{operator_limit, index_limit};
ghost use Rattle.formula.specs.Limits.{part_limit};
ghost use Rattle.formula.specs.Parts.{temporals};
ghost use Rattle.lines.specs.Lines.{is_text};
ghost use Rattle.lines.specs.Effect.{joint, all_declared, state_effect};
ghost use Rattle.syntax.specs.Cells.{kinds_in};
ghost use Rattle.lines.specs.Memory.{signals_in, join_part, stored_from, reading_after, parts_after, cells_reading, cells_stored, Kept};

use crate::problem::Sizes;
use crate::refusal::Refusal;
use basics::{Class, OPERATOR_LIMIT, past};
use formula::is_temporal;
use grammar::{Names, TEXT_LIMIT, lookup, read_formula};
use syntax::{END, NAME, put_codes, token_at};

// The most parts of a problem.
pub const PART_LIMIT: usize = 96;

// Whether a second field is a formula's text: some bytes, not too many, and no tab.
fn is_text(text: &[u8]) -> bool
    ensures { result ≡ is_text text.now }
{
    if text.len() == 0 {
        return false;
    }
    if TEXT_LIMIT < text.len() {
        return false;
    }
    past(text, 0, Class::Field) == text.len()
}

// Whether every name in a text is declared.
fn all_declared(names: &Names<'_>, text: &[u8]) -> bool
    ensures { (s : Sizes) → result ≡ all_declared (signals_in s (names_in names.now)) text.now (tokens text.now 0) }
{
    let mut at = 0;
    loop {
        let t = token_at(text, at);
        if t.kind == END {
            return true;
        }
        if t.kind == NAME && lookup(names, &text[t.from..t.next]).is_none() {
            return false;
        }
        at = t.next;
    }
}

// How many of the cells are temporal operators.
fn temporals_in(cells: &[u32]) -> usize
    ensures { result ≡ temporals (kinds_in cells.now) }
{
    let mut n: usize = 0;
    for &cell in cells {
        if is_temporal((cell % 256) as u8) {
            n += 1;
        }
    }
    n
}

// The count of parts with the "and" that joins a formula to the n parts before it.
fn with_joint(n: usize, count: usize) -> usize
    requires { count < 65536 }
    ensures { result ≡ count + joint n }
{
    if n == 0 { count } else { count + 1 }
}

// Joins the parts from n up to count to the n parts before them.
fn join(n: usize, count: usize, parts: &mut [u32])
    requires { (n ≤ count) × (count + joint n ≤ length parts.old) × (length parts.old ≤ index_limit) }
    ensures { parts.new ≡ stored_from (join_part n (count - n)) count parts.old }
{
    if n == 0 {
        return;
    }
    parts[count] = 38 + 256 * ((n - 1) as u32) + 65536 * ((count - 1) as u32);
}

// Line `line` states the formula of these cells.
fn add_cells(cells: &[u32], line: usize, s: Sizes, parts: &mut [u32]) -> Result<Sizes, Refusal>
    requires cells_len_bound { length cells.now < index_limit }
    requires parts_le_part_limit { (s.parts ≤ part_limit) × (s.operators ≤ operator_limit) × (length parts.old ≡ part_limit) }
    ensures value { result ≡ cells_reading cells.now line s }
    ensures parts_after { parts.new ≡ cells_stored cells.now s parts.old }
{
    let n = s.parts;
    let count = n + cells.len();
    let all = with_joint(n, count);
    if PART_LIMIT < all {
        return Err(Refusal::TooManyParts(line));
    }
    let m = s.operators + temporals_in(cells);
    if OPERATOR_LIMIT < m {
        return Err(Refusal::TooManyParts(line));
    }
    put_codes(cells, n, parts);
    join(n, count, parts);
    Ok(Sizes {
        parts: all,
        operators: m,
        ..s
    })
}

// Line `line` states the formula of a text: its parts behind those so far, or a refusal, and they stay as they were.
pub fn add_formula(
    names: &Names<'_>,
    text: &[u8],
    line: usize,
    s: Sizes,
    parts: &mut [u32],
) -> Result<Sizes, Refusal>
    requires { Kept s parts.old }
    ensures value { result ≡ reading_after
        (state_effect line text.now (signals_in s (names_in names.now)) s.parts s.operators) s }
    ensures parts_after { parts.new ≡ parts_after
        (state_effect line text.now (signals_in s (names_in names.now)) s.parts s.operators) s parts.old }
{
    if !is_text(text) {
        return Err(Refusal::BadLine(line));
    }
    let mut cells = [0u32; PART_LIMIT];
    let formula = read_formula(names, text, &mut cells).ok_or(Refusal::BadFormula(line))?;
    if !all_declared(names, text) {
        return Err(Refusal::UnknownName(line));
    }
    if PART_LIMIT < formula.count {
        return Err(Refusal::TooManyParts(line));
    }
    add_cells(&cells[..formula.count], line, s, parts)
}
