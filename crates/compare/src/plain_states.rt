// States: sets of patterns, all that letters reach.
ghost use Rattle.std.specs.Prelude.{◌≡◌, ◌<◌, ◌≤◌, true, length};
ghost use Rattle.basics.specs.Limits.{index_limit};
ghost use Rattle.play.specs.Limits.{side_limit, pair_limit};
ghost use Rattle.compare.specs.Sizes.{pattern_count};

use crate::list::List;
use crate::plain_patterns::{PATTERNS, carried, digit};
use crate::plain_sets::{Set, explore};
use basics::Order;
use search::STATE_LIMIT;
use tables::{PAIR_LIMIT, SIDE_LIMIT};

// Letters by number: the choice, the observation and the hidden value, four bits each.
pub const LETTERS: usize = PAIR_LIMIT * SIDE_LIMIT;

pub type States = List<Set, STATE_LIMIT>;

// The number of the state that each letter leads to, for each state.
pub type Successors = [[u8; LETTERS]; STATE_LIMIT];

// How many choices, observations and hidden values there are, and the order of a step.
#[derive(Clone, Copy)]
pub struct Widths {
    pub choices: usize,
    pub observations: usize,
    pub hiddens: usize,
    pub order: Order,
    ghost choices_le_side_limit: { choices ≤ side_limit },
    ghost observations_le_side_limit: { observations ≤ side_limit },
    ghost hiddens_le_side_limit: { hiddens ≤ side_limit },
}

impl Widths {
    // Whether a number has a choice and an observation of the problem.
    pub(crate) fn has_pair(self, pair: usize) -> bool
        ensures { result ≡ true → pair < pair_limit }
    {
        pair % SIDE_LIMIT < self.choices && pair / SIDE_LIMIT < self.observations
    }

    // Whether a number is a letter of the problem.
    fn has_letter(self, letter: usize) -> bool {
        self.has_pair(letter % PAIR_LIMIT) && letter / PAIR_LIMIT < self.hiddens
    }
}

// The parts of a formula, and how many patterns it has.
#[derive(Clone, Copy)]
pub struct Formula<'a> {
    pub parts: &'a [u32],
    pub patterns: usize,
    ghost parts_len_bound: { length parts.now ≤ index_limit },
    ghost patterns_le_pattern_count: { patterns ≤ pattern_count },
}

impl Formula<'_> {
    // Before any letter: every pattern with the whole formula's bit set.
    fn start(self) -> Set {
        let mut state = [false; PATTERNS];
        for p in 0..self.patterns {
            state[p] = digit(p, 0);
        }
        state
    }

    // The state after one letter more: the patterns that the letter carries into the state before.
    fn after(self, letter: usize, state: &Set) -> Set {
        let mut next = [false; PATTERNS];
        for p in 0..self.patterns {
            next[p] = state[carried(self.parts, letter, p)];
        }
        next
    }
}

// Finds all states, the start first, and where letters lead; none where there are too many.
pub(crate) fn explore_states(
    formula: Formula,
    w: Widths,
    states: &mut States,
    successors: &mut Successors,
) -> Option<()> {
    states.place_of(formula.start())?;
    explore(states, successors, |state, letter| {
        if w.has_letter(letter) {
            Some(formula.after(letter, state))
        } else {
            None
        }
    })
}
