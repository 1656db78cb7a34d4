// Beliefs in memory.
ghost use Rattle.std.specs.Prelude.{◌≡◌, ◌≤◌, ◌<◌, length};
ghost use Rattle.search.specs.Limits.{state_limit};
ghost use Rattle.play.specs.Limits.{belief_limit};
ghost use Rattle.beliefs.specs.BeliefMemory.{belief_in, members_of, Members, belief_of, all_accept};
ghost use Rattle.basics.specs.Lists.{written};
ghost use Rattle.beliefs.specs.BeliefMemory.{with_state, with_hidden, after_members};

use crate::automaton::Automaton;
use crate::sizes::{BELIEF, BELIEFS_SIZE};
use search::{SET, STATE_LIMIT};

// Adds state t.
fn add_state(belief: &mut [u8; BELIEF], t: u8)
    requires { t < state_limit }
    ensures { belief.new ≡ with_state belief.old t }
{
    let i = (t / 8) as usize;
    belief[i] = belief[i] | 1 << (t % 8);
}

// Adds the states that pair q leads to from state s, one for each hidden value.
fn add_hidden(automaton: &Automaton, s: usize, q: usize, belief: &mut [u8; BELIEF])
    requires s_lt_states { s < automaton.now.states }
    requires q_lt_pairs { q < automaton.now.pairs }
    ensures { belief.new ≡ with_hidden automaton.now.successors.now s q automaton.now.pairs automaton.now.hiddens belief.old }
{
    for h in 0..automaton.hiddens {
        add_state(belief, automaton.next(s, q, h));
    }
}

// The belief after pair q, from the members of the one before.
pub(crate) fn after_members(automaton: &Automaton, members: &[u8], q: usize) -> [u8; BELIEF]
    requires members { Members automaton.now.states members.now (length members.now) }
    requires q_lt_pairs { q < automaton.now.pairs }
    ensures { result ≡ after_members automaton.now.successors.now members.now q automaton.now.pairs automaton.now.hiddens (length members.now) }
{
    let mut belief = [0u8; BELIEF];
    for &s in members {
        add_hidden(automaton, s as usize, q, &mut belief);
    }
    belief
}

// Lists the members of belief i, of n states, and answers how many there are.
pub(crate) fn put_members(
    mem: &[u8; BELIEFS_SIZE],
    i: usize,
    n: usize,
    members: &mut [u8; STATE_LIMIT],
) -> usize
    requires i_le_belief_limit { i ≤ belief_limit }
    requires n_le_state_limit { n ≤ state_limit }
    ensures value { result ≡ length (members_of n (belief_in n mem.now i)) }
    ensures members_after { members.new ≡ written (members_of n (belief_in n mem.now i)) members.old }
    ensures members { Members n members.new result }
    ensures result_after { belief_of n members.new result ≡ belief_in n mem.now i }
{
    let at = i * BELIEF;
    let mut c = 0;
    for s in 0..n {
        if (mem[at + s / 8] >> (s % 8)) & 1 == 1 {
            members[c] = s as u8;
            c += 1;
        }
    }
    c
}

// Whether each of the members accepts.
pub(crate) fn is_final(automaton: &Automaton, members: &[u8]) -> bool
    requires { Members automaton.now.states members.now (length members.now) }
    ensures { result ≡ all_accept automaton.now.sets.now members.now (length members.now) }
{
    for &s in members {
        if automaton.sets[s as usize * SET] & 1 == 0 {
            return false;
        }
    }
    true
}
