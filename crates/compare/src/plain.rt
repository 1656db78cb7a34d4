// The plain solver: the sentences of `docs/REFERENCE.md` on states, beliefs and the game one after another, over arrays of bools, with no
// thought of time. It shares the reader of problems and the limits with the proved solver, and no code behind them.
ghost use Rattle.std.specs.Prelude.{◌≤◌, length};
ghost use Rattle.basics.specs.Limits.{index_limit};

use crate::plain_beliefs::{Beliefs, Moves, explore_beliefs};
use crate::plain_patterns::PATTERNS;
use crate::plain_ranks::{Ranks, ranks_of};
use crate::plain_rows::put_table;
use crate::plain_states::{Formula, LETTERS, States, Successors, Widths, explore_states};
use basics::{OPERATOR_LIMIT, Order};
use lines::{PART_LIMIT, Sizes, order_of};
use rules::{Refusal, number, place, read};
use search::STATE_LIMIT;
use tables::{BELIEF_LIMIT, PAIR_LIMIT, SIDE_LIMIT, TABLE_SIZE};

// A table, whose used rows stand at the front.
pub type Table = [u16; TABLE_SIZE];

// A table's row count, worst case and order.
#[derive(Clone, Copy, PartialEq)]
pub struct Solved {
    pub rows: usize,
    pub worst_case: usize,
    pub order: Order,
}

// The number and the place of a refusal. The numbers that the plain solver gives are its own, as `docs/REFERENCE.md` lists them.
#[derive(Clone, Copy, PartialEq)]
pub struct Refused {
    pub number: usize,
    pub place: usize,
}

impl From<Refusal> for Refused {
    fn from(r: Refusal) -> Self {
        Refused {
            number: number(r),
            place: place(r),
        }
    }
}

const TOO_MANY_STATES: Refused = Refused {
    number: 9,
    place: 0,
};

const TOO_MANY_BELIEFS: Refused = Refused {
    number: 10,
    place: 0,
};

pub const UNREALIZABLE: Refused = Refused {
    number: 11,
    place: 0,
};

// What is answered to a problem.
pub type Answer = Result<Solved, Refused>;

// Twice a number, where it is at most `most`.
fn twice(n: usize, most: usize) -> usize
    requires { n ≤ most }
    ensures { result ≤ most }
{
    if n <= most / 2 {
        return n * 2;
    }
    n
}

// 2 to the power k, which is at most `most`.
fn power(k: usize, most: usize) -> usize
    requires { 1 ≤ most }
    ensures { result ≤ most }
{
    let mut n = 1;
    for _ in 0..k {
        n = twice(n, most);
    }
    n
}

// How many values the signals of each kind have, and the order.
fn widths(s: Sizes) -> Widths {
    Widths {
        choices: power(s.outputs, SIDE_LIMIT),
        observations: power(s.observed, SIDE_LIMIT),
        hiddens: power(s.hidden, SIDE_LIMIT),
        order: order_of(s),
    }
}

// The answer from the ranks of beliefs.
fn solve_ranks(moves: &Moves, ranks: &Ranks, w: Widths, table: &mut Table) -> Answer {
    let rank = ranks[0].ok_or(UNREALIZABLE)?;
    Ok(Solved {
        rows: put_table(moves, ranks, w, table),
        worst_case: rank as usize,
        order: w.order,
    })
}

// The answer from the states and what letters lead to.
fn solve_states(states: &States, successors: &Successors, w: Widths, table: &mut Table) -> Answer {
    let mut beliefs = Beliefs {
        items: [[false; PATTERNS]; BELIEF_LIMIT],
        count: 0,
    };
    let mut moves = [[0u8; PAIR_LIMIT]; BELIEF_LIMIT];
    explore_beliefs(states, successors, w, &mut beliefs, &mut moves).ok_or(TOO_MANY_BELIEFS)?;
    let ranks = ranks_of(states, &beliefs, &moves, w);
    solve_ranks(&moves, &ranks, w, table)
}

// The answer from the parts of a formula.
fn solve_parts(parts: &[u32], operators: usize, w: Widths, table: &mut Table) -> Answer
    requires { length parts.now ≤ index_limit }
{
    let mut states = States {
        items: [[false; PATTERNS]; STATE_LIMIT],
        count: 0,
    };
    let mut successors = [[0u8; LETTERS]; STATE_LIMIT];
    let formula = Formula {
        parts,
        patterns: 2 * power(operators, 1 << OPERATOR_LIMIT),
    };
    explore_states(formula, w, &mut states, &mut successors).ok_or(TOO_MANY_STATES)?;
    solve_states(&states, &successors, w, table)
}

// Solves a problem. Only the table's used rows change.
pub(crate) fn solve(source: &[u8], table: &mut Table) -> Answer {
    let mut parts = [0u32; PART_LIMIT];
    let s = read(source, &mut parts)?;
    solve_parts(&parts[..s.parts], s.operators, widths(s), table)
}
