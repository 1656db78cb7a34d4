// Ranks: in how many steps a belief is brought to a final one at the latest, and the choices that do so. Observations that are not told
// apart when the choice is made get one choice together: under `set` all of them, under `read` each one alone.
ghost use Rattle.std.specs.Prelude.{◌<◌, ◌≤◌, IfSome};
ghost use Rattle.play.specs.Limits.{belief_limit, side_limit};

use crate::plain_beliefs::{Beliefs, Moves, is_final};
use crate::plain_states::{States, Widths};
use basics::Order;
use tables::{BELIEF_LIMIT, PAIR_LIMIT, SIDE_LIMIT};

// The rank of each belief that has one so far.
pub type Ranks = [Option<u16>; BELIEF_LIMIT];

// Final beliefs have rank 0, and so far no other has a rank.
fn rank_finals(states: &States, beliefs: &Beliefs) -> Ranks {
    let mut ranks = [None; BELIEF_LIMIT];
    for b in 0..beliefs.count {
        if is_final(states, &beliefs.items[b]) {
            ranks[b] = Some(0);
        }
    }
    ranks
}

// Whether two observations get one choice together.
fn are_together(order: Order, o: usize, p: usize) -> bool {
    match order {
        Order::Set => true,
        Order::Read => o == p,
    }
}

// What there is to choose by at a belief: where its moves lead, and the ranks.
#[derive(Clone, Copy)]
pub struct Options<'a> {
    pub moves: &'a [u8; PAIR_LIMIT],
    pub ranks: &'a Ranks,
    pub widths: Widths,
}

impl Options<'_> {
    // The belief that a choice and an observation lead to.
    pub(crate) fn next(self, choice: usize, o: usize) -> u8
        requires choice_lt_side_limit { choice < side_limit }
        requires o_lt_side_limit { o < side_limit }
    {
        self.moves[choice + SIDE_LIMIT * o]
    }

    // Whether a choice leads observation o, and all that get it together with o, to ranks below r.
    fn leads_below(self, o: usize, choice: usize, r: u16) -> bool
        requires { choice < side_limit }
    {
        for p in 0..self.widths.observations {
            let rank = self.ranks[self.next(choice, p) as usize];
            if are_together(self.widths.order, o, p) && rank.is_none_or(|k| k >= r) {
                return false;
            }
        }
        true
    }

    // The smallest choice that does so.
    fn smallest_choice(self, o: usize, r: u16) -> Option<usize>
        ensures { IfSome result (λ choice. choice < side_limit) }
    {
        for choice in 0..self.widths.choices {
            if self.leads_below(o, choice, r) {
                return Some(choice);
            }
        }
        None
    }

    // The choice for an observation of a belief with a rank: the smallest of those that lead lowest.
    pub(crate) fn best_choice(self, o: usize, rank: u16) -> Option<usize>
        ensures { IfSome result (λ choice. choice < side_limit) }
    {
        for r in 1..=rank {
            let choice = self.smallest_choice(o, r);
            if choice.is_some() {
                return choice;
            }
        }
        None
    }

    // Whether every observation has a choice that leads below r.
    fn all_lead_below(self, r: u16) -> bool {
        for o in 0..self.widths.observations {
            if self.smallest_choice(o, r).is_none() {
                return false;
            }
        }
        true
    }
}

// Round r for n beliefs: one that had no rank gets r, where every observation has a choice that leads below r. A rank that it gives is not
// below r.
fn rank_round(moves: &Moves, n: usize, widths: Widths, r: u16, ranks: &mut Ranks)
    requires { n ≤ belief_limit }
{
    for b in 0..n {
        let rank = ranks[b];
        let options = Options {
            moves: &moves[b],
            ranks,
            widths,
        };
        if rank.is_none() && options.all_lead_below(r) {
            ranks[b] = Some(r);
        }
    }
}

// The ranks of all beliefs: each is below their number.
pub(crate) fn ranks_of(states: &States, beliefs: &Beliefs, moves: &Moves, widths: Widths) -> Ranks {
    let mut ranks = rank_finals(states, beliefs);
    for r in 1..beliefs.count {
        rank_round(moves, beliefs.count, widths, r as u16, &mut ranks);
    }
    ranks
}
