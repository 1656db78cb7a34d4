// Pairs that lead to the same states from every state, whatever is hidden: one search serves for all of them.
ghost use Rattle.std.specs.Prelude.{◌≡◌, ◌++◌, ◌<◌, drop};
ghost use Rattle.basics.specs.Lists.{tabulate};
ghost use Rattle.beliefs.specs.Twins.{same_from, same_pairs, first_twin};

use crate::automaton::Automaton;
use basics::first_that;
use tables::PAIR_LIMIT;

// Whether pairs a and b lead to the same states from state s.
fn same_from(automaton: &Automaton, s: usize, a: usize, b: usize) -> bool
    requires s_lt_states { s < automaton.now.states }
    requires a_lt_pairs { a < automaton.now.pairs }
    requires b_lt_pairs { b < automaton.now.pairs }
    ensures { result ≡ same_from automaton.now.successors.now automaton.now.pairs automaton.now.hiddens a b s }
{
    for h in 0..automaton.hiddens {
        if automaton.next(s, a, h) != automaton.next(s, b, h) {
            return false;
        }
    }
    true
}

// Whether they do from each state.
fn same_pairs(automaton: &Automaton, a: usize, b: usize) -> bool
    requires a_lt_pairs { a < automaton.now.pairs }
    requires b_lt_pairs { b < automaton.now.pairs }
    ensures { result ≡ same_pairs automaton.now.successors.now automaton.now.states automaton.now.pairs automaton.now.hiddens a b }
{
    for s in 0..automaton.states {
        if !same_from(automaton, s, a, b) {
            return false;
        }
    }
    true
}

// The first pair that leads where pair a leads.
#[tactic(auto, unfolding(crate::specs::Twins::first_twin))]
fn first_twin(automaton: &Automaton, a: usize) -> usize
    requires { a < automaton.now.pairs }
    ensures { result ≡ first_twin automaton.now.successors.now automaton.now.states automaton.now.pairs automaton.now.hiddens a }
{
    first_that(a, |b| same_pairs(automaton, a, b))
}

// Writes for each pair the first that leads where it leads.
pub(crate) fn put_twins(automaton: &Automaton, twins: &mut [u8; PAIR_LIMIT])
    ensures { twins.new
        ≡ tabulate automaton.now.pairs
        (first_twin automaton.now.successors.now automaton.now.states automaton.now.pairs automaton.now.hiddens)
        ++ drop automaton.now.pairs twins.old }
{
    for q in 0..automaton.pairs {
        twins[q] = first_twin(automaton, q) as u8;
    }
}
