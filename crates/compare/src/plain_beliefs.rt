// Beliefs: sets of states. Those count that choices and observations reach without passing through a final one.
ghost use Rattle.std.specs.Prelude.{◌<◌};
ghost use Rattle.play.specs.Limits.{pair_limit};

use crate::list::List;
use crate::plain_patterns::PATTERNS;
use crate::plain_sets::{Set, explore};
use crate::plain_states::{LETTERS, States, Successors, Widths};
use search::STATE_LIMIT;
use tables::{BELIEF_LIMIT, PAIR_LIMIT};

pub type Beliefs = List<Set, BELIEF_LIMIT>;

// The number of the belief that each choice and observation lead to, for each belief.
pub type Moves = [[u8; PAIR_LIMIT]; BELIEF_LIMIT];

// Adds the states that a choice and an observation lead to from one state, whatever is hidden.
fn add_successors(successors: &[u8; LETTERS], w: Widths, pair: usize, belief: &mut Set)
    requires { pair < pair_limit }
{
    for h in 0..w.hiddens {
        belief[successors[pair + PAIR_LIMIT * h] as usize] = true;
    }
}

// The belief after a choice and an observation.
fn after(successors: &Successors, w: Widths, pair: usize, belief: &Set) -> Set
    requires { pair < pair_limit }
{
    let mut next = [false; PATTERNS];
    for s in 0..STATE_LIMIT {
        if belief[s] {
            add_successors(&successors[s], w, pair, &mut next);
        }
    }
    next
}

// Whether a belief is final: all its states accept, so they hold the pattern that is all zero.
pub(crate) fn is_final(states: &States, belief: &Set) -> bool {
    for s in 0..STATE_LIMIT {
        if belief[s] & !states.items[s][0] {
            return false;
        }
    }
    true
}

// Finds all beliefs that count, that of the start state alone first, and where choices and observations lead from those that are not final;
// none where there are too many.
pub(crate) fn explore_beliefs(
    states: &States,
    successors: &Successors,
    w: Widths,
    beliefs: &mut Beliefs,
    moves: &mut Moves,
) -> Option<()> {
    let mut start = [false; PATTERNS];
    start[0] = true;
    beliefs.place_of(start)?;
    explore(beliefs, moves, |belief, pair| {
        if w.has_pair(pair) && !is_final(states, belief) {
            Some(after(successors, w, pair, belief))
        } else {
            None
        }
    })
}
