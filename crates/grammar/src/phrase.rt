// The phrases of a formula, read by a cycle of functions and written as cells, one for each part.
ghost use Rattle.std.specs.Prelude.{◌≡◌, cond, ◌≤◌, length};
ghost use Rattle.grammar.specs.Grammar.{is_op, is_pre, is_leaf, leftward};
ghost use Rattle.grammar.specs.Limits.{text_limit};
ghost use Rattle.grammar.specs.Parse.{parse, atom};
ghost use Rattle.grammar.specs.PlanParse.{reader, plan_at, parse_formula};
ghost use Rattle.grammar.specs.Names.{names_in, leaf_value};
ghost use Rattle.grammar.specs.Answer.{answer, Reads, Room, cells_after};

use crate::heads::{head_at, second_at};
use crate::names::{Names, leaf_value};
use syntax::{
    ALWAYS, AND, CLOSE, END, EVENTUALLY, FALSE, IMPLIES, NAME, NEXT, NOT, ONE_SIDED, OPEN, OR,
    RELEASE, TRUE, UNTIL, WEAK_NEXT, put, put_leaf, put_plan, put_two, token_at,
};

// The most bytes of a text.
pub const TEXT_LIMIT: usize = 240;

// A phrase that was read: where it ends and how many parts are written then.
#[derive(Clone, Copy)]
pub struct Phrase {
    pub next: usize,
    pub count: usize,
}

// Whether an operator makes phrases of level l, with temporal operators or without.
#[tactic(auto, unfolding(crate::specs::Grammar::is_op))]
fn is_op(temporal: bool, l: usize, k: u8) -> bool
    ensures { result ≡ is_op temporal l k }
{
    match k {
        UNTIL | RELEASE => temporal && l == 1,
        AND => l == 2,
        OR => l == 3,
        IMPLIES => l == 4,
        _ => false,
    }
}

// The level of a right operand in phrases of level l, where r is the level below.
#[tactic(auto, unfolding(crate::specs::Grammar::leftward))]
fn right_level(l: usize, r: usize) -> usize
    ensures { result ≡ cond (leftward l) r l }
{
    match l {
        2 | 3 => r,
        _ => l,
    }
}

#[tactic(auto, unfolding(crate::specs::Grammar::is_pre))]
fn is_prefix(temporal: bool, k: u8) -> bool
    ensures { result ≡ is_pre temporal k }
{
    match k {
        NOT => true,
        NEXT | WEAK_NEXT | EVENTUALLY | ALWAYS => temporal,
        _ => false,
    }
}

#[tactic(auto, unfolding(crate::specs::Grammar::is_leaf))]
fn is_leaf(k: u8) -> bool
    ensures { result ≡ is_leaf k }
{
    matches!(k, NAME | TRUE | FALSE)
}

// A phrase of level l, with temporal operators and plan words or without: one of the level below, and then the level's operators.
#[cycle(read_atom_read_level_read_plan_read_unary)]
fn read_level(
    temporal: bool,
    l: usize,
    names: &Names<'_>,
    text: &[u8],
    at: usize,
    n: usize,
    cells: &mut [u32],
) -> Option<Phrase>
    requires room { Room text.now at n }
    requires l_bound { l ≤ 4 }
    ensures { Reads (leaf_value (names_in names.now) text.now)
        (parse (reader temporal) text.now l at) n cells.old cells.new result }
{
    if l == 0 {
        return read_unary(temporal, names, text, at, n, cells);
    }
    let r = l - 1;
    let mut read = read_level(temporal, r, names, text, at, n, cells)?;
    let right = right_level(l, r);
    loop {
        let op = token_at(text, read.next);
        if !is_op(temporal, l, op.kind) {
            return Some(read);
        }
        let operand = read_level(temporal, right, names, text, op.next, read.count, cells)?;
        put_two(cells, operand.count, op.kind, read.count);
        read = Phrase {
            next: operand.next,
            count: operand.count + 1,
        };
        if right == l {
            return Some(read);
        }
    }
}

#[cycle(read_atom_read_level_read_plan_read_unary)]
fn read_unary(
    temporal: bool,
    names: &Names<'_>,
    text: &[u8],
    at: usize,
    n: usize,
    cells: &mut [u32],
) -> Option<Phrase>
    requires room { Room text.now at n }
    ensures { Reads (leaf_value (names_in names.now) text.now)
        (parse (reader temporal) text.now 0 at) n cells.old cells.new result }
{
    let t = token_at(text, at);
    if !is_prefix(temporal, t.kind) {
        return read_atom(temporal, names, text, at, n, cells);
    }
    let operand = read_unary(temporal, names, text, t.next, n, cells)?;
    put(cells, operand.count, t.kind, ONE_SIDED);
    Some(Phrase {
        next: operand.next,
        count: operand.count + 1,
    })
}

#[cycle(read_atom_read_level_read_plan_read_unary)]
fn read_atom(
    temporal: bool,
    names: &Names<'_>,
    text: &[u8],
    at: usize,
    n: usize,
    cells: &mut [u32],
) -> Option<Phrase>
    requires room { Room text.now at n }
    ensures { Reads (leaf_value (names_in names.now) text.now)
        (atom (reader temporal) text.now at) n cells.old cells.new result }
{
    let t = token_at(text, at);
    if is_leaf(t.kind) {
        put_leaf(cells, n, t.kind, leaf_value(names, text, t));
        return Some(Phrase {
            next: t.next,
            count: n + 1,
        });
    }
    if t.kind != OPEN {
        if !temporal {
            return None;
        }
        return read_plan(names, text, at, n, cells);
    }
    let inner = read_level(temporal, 4, names, text, t.next, n, cells)?;
    let close = token_at(text, inner.next);
    if close.kind != CLOSE {
        return None;
    }
    Some(Phrase {
        next: close.next,
        count: inner.count,
    })
}

// A plan word: its operands, which have no temporal operators and no plan words, are read to lists of their own.
#[cycle(read_atom_read_level_read_plan_read_unary)]
fn read_plan(
    names: &Names<'_>,
    text: &[u8],
    at: usize,
    n: usize,
    cells: &mut [u32],
) -> Option<Phrase>
    requires room { Room text.now at n }
    ensures { Reads (leaf_value (names_in names.now) text.now)
        (plan_at text.now at) n cells.old cells.new result }
{
    let head = head_at(text, at)?;
    let mut a = [0u32; TEXT_LIMIT];
    let first = read_level(false, 4, names, text, head.operand, 0, &mut a)?;
    let place = second_at(head.word, text, head.operand, first.next)?;
    let mut b = [0u32; TEXT_LIMIT];
    let second = read_level(false, 4, names, text, place, 0, &mut b)?;
    let close = token_at(text, second.next);
    if close.kind != CLOSE {
        return None;
    }
    Some(Phrase {
        next: close.next,
        count: put_plan(head.word, &a[..first.count], &b[..second.count], n, cells),
    })
}

// A whole formula text: its parts' cells, one behind another, as far as there is room. Where the text is no formula, all cells are cleared.
pub fn read_formula(names: &Names<'_>, text: &[u8], cells: &mut [u32]) -> Option<Phrase>
    requires text_len_bound { length text.now ≤ text_limit }
    ensures value { result ≡ answer (parse_formula text.now) 0 }
    ensures cells_after { cells.new ≡ cells_after (leaf_value (names_in names.now) text.now)
        (parse_formula text.now) cells.old }
{
    match read_level(true, 4, names, text, 0, 0, cells) {
        Some(read) if token_at(text, read.next).kind == END => Some(read),
        _ => {
            cells.fill(0);
            None
        }
    }
}
