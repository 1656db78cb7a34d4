// The search for all beliefs that count: each is marked as final or not, in the order in which they are found, and in one that is not final every
// pair of a choice and an observation is tried. Nothing is tried in a final belief.
ghost use Rattle.std.specs.Prelude.{◌≡◌, ◌*◌, ◌≤◌, ◌<◌, length, replicate, set};
ghost use Rattle.basics.specs.Bounded.{first_that};
ghost use Rattle.basics.specs.Lists.{padded, written};
ghost use Rattle.basics.specs.Member.{Distinct};
ghost use Rattle.search.specs.Slots.{with_item, same_slot, count_up_to, explored_of};
ghost use Rattle.play.specs.Limits.{belief_limit, pair_limit};
ghost use Rattle.play.specs.Table.{list_of};
ghost use Rattle.beliefs.specs.Twins.{Twins};
ghost use Rattle.beliefs.specs.BeliefMemory.{belief_size, belief_in, beliefs_in, HoldsBeliefs, Apart};
ghost use Rattle.beliefs.specs.BeliefMemory.{pairs_from, tried_from, Tried, counted_beliefs, moves_of, mark_of, finals_of, RanBeliefs};
ghost use Rattle.beliefs.specs.BeliefMemory.{members_of, Members, belief_of, after_members};

use crate::automaton::Automaton;
use crate::believing::{after_members, is_final, put_members};
use crate::finding::find_hinted;
use crate::sizes::{BELIEF, BELIEFS_SIZE, HINTS};
use crate::twins::put_twins;
use search::STATE_LIMIT;
use tables::{BELIEF_LIMIT, PAIR_LIMIT};

// Writes the belief after pair q, from the members of the one before, into place m, and answers the first place with the same bytes.
fn put_belief(
    automaton: &Automaton,
    members: &[u8],
    q: usize,
    m: usize,
    mem: &mut [u8; BELIEFS_SIZE],
    hints: &mut [u8; HINTS],
) -> usize
    requires members { Members automaton.now.states members.now (length members.now) }
    requires q_lt_pairs { q < automaton.now.pairs }
    requires m_le_belief_limit { m ≤ belief_limit }
    requires apart { Apart mem.old m }
    ensures value { result ≡ first_that (same_slot belief_size (with_item belief_size mem.old m
        (after_members automaton.now.successors.now members.now q automaton.now.pairs automaton.now.hiddens (length members.now))) m) m }
    ensures mem_after { mem.new ≡ with_item belief_size mem.old m
        (after_members automaton.now.successors.now members.now q automaton.now.pairs automaton.now.hiddens (length members.now)) }
{
    let at = m * BELIEF;
    mem[at..at + BELIEF].copy_from_slice(&after_members(automaton, members, q));
    find_hinted(mem, m, hints)
}

// Tries every pair in the belief that has the members, with k beliefs in memory. Writes the beliefs that are new behind the
// others, and for each pair the number of the belief that it leads to; answers how many beliefs there are then, none where they are too many.
fn expand_belief(
    automaton: &Automaton,
    twins: &[u8; PAIR_LIMIT],
    members: &[u8],
    k: usize,
    mem: &mut [u8; BELIEFS_SIZE],
    hints: &mut [u8; HINTS],
    row: &mut [u8],
) -> Option<usize>
    requires twins { Twins automaton.now.successors.now automaton.now.states automaton.now.pairs automaton.now.hiddens twins.now }
    requires members { Members automaton.now.states members.now (length members.now) }
    requires k_le_belief_limit { k ≤ belief_limit }
    requires holds_beliefs { HoldsBeliefs automaton.now.states mem.old k }
    requires distinct { Distinct (beliefs_in automaton.now.states mem.old k) }
    requires row_len { length row.old ≡ automaton.now.pairs }
    ensures value { result ≡ count_up_to belief_limit
        (tried_from automaton.now.successors.now automaton.now.states automaton.now.pairs automaton.now.hiddens automaton.now.pairs
        mem.old k (belief_of automaton.now.states members.now (length members.now))) }
    ensures tried { Tried automaton.now.successors.now automaton.now.states automaton.now.pairs automaton.now.hiddens automaton.now.pairs
        mem.old k (belief_of automaton.now.states members.now (length members.now)) row.old mem.new row.new }
{
    let mut m = k;
    for q in 0..automaton.pairs {
        let b = twins[q] as usize;
        if b < q {
            row[q] = row[b];
        } else {
            let t = put_belief(automaton, members, q, m, mem, hints);
            if t == BELIEF_LIMIT {
                return None;
            }
            if t == m {
                m += 1;
            }
            row[q] = t as u8;
        }
    }
    Some(m)
}

// Lists the members of belief i, marks whether it is final, and answers how many members there are.
fn mark_belief(
    automaton: &Automaton,
    mem: &[u8; BELIEFS_SIZE],
    i: usize,
    members: &mut [u8; STATE_LIMIT],
    finals: &mut [u8; BELIEF_LIMIT],
) -> usize
    requires { i < belief_limit }
    ensures value { result ≡ length (members_of automaton.now.states (belief_in automaton.now.states mem.now i)) }
    ensures members_after { members.new
        ≡ written (members_of automaton.now.states (belief_in automaton.now.states mem.now i)) members.old }
    ensures members { Members automaton.now.states members.new result }
    ensures result_after { belief_of automaton.now.states members.new result ≡ belief_in automaton.now.states mem.now i }
    ensures finals_after { finals.new
        ≡ set finals.old i (mark_of automaton.now.sets.now automaton.now.states (belief_in automaton.now.states mem.now i)) }
{
    let count = put_members(mem, i, automaton.states, members);
    finals[i] = is_final(automaton, &members[..count]) as u8;
    count
}

// Marks belief i, of k, and tries every pair in it if it is not final.
fn visit_belief(
    automaton: &Automaton,
    twins: &[u8; PAIR_LIMIT],
    i: usize,
    k: usize,
    mem: &mut [u8; BELIEFS_SIZE],
    hints: &mut [u8; HINTS],
    row: &mut [u8],
    finals: &mut [u8; BELIEF_LIMIT],
) -> Option<usize>
    requires twins { Twins automaton.now.successors.now automaton.now.states automaton.now.pairs automaton.now.hiddens twins.now }
    requires i_lt_k { i < k }
    requires k_le_belief_limit { k ≤ belief_limit }
    requires holds_beliefs { HoldsBeliefs automaton.now.states mem.old k }
    requires distinct { Distinct (beliefs_in automaton.now.states mem.old k) }
    requires row_len { length row.old ≡ automaton.now.pairs }
    ensures value { result ≡ count_up_to belief_limit
        (tried_from automaton.now.successors.now automaton.now.states automaton.now.pairs automaton.now.hiddens
        (pairs_from automaton.now.sets.now automaton.now.states automaton.now.pairs (belief_in automaton.now.states mem.old i))
        mem.old k (belief_in automaton.now.states mem.old i)) }
    ensures tried { Tried automaton.now.successors.now automaton.now.states automaton.now.pairs automaton.now.hiddens
        (pairs_from automaton.now.sets.now automaton.now.states automaton.now.pairs (belief_in automaton.now.states mem.old i))
        mem.old k (belief_in automaton.now.states mem.old i) row.old mem.new row.new }
    ensures finals_after { finals.new
        ≡ set finals.old i (mark_of automaton.now.sets.now automaton.now.states (belief_in automaton.now.states mem.old i)) }
{
    let mut members = [0u8; STATE_LIMIT];
    let count = mark_belief(automaton, mem, i, &mut members, finals);
    if finals[i] == 1 {
        return Some(k);
    }
    expand_belief(automaton, twins, &members[..count], k, mem, hints, row)
}

// All beliefs that count: for each the row of the beliefs that pairs lead to, into memory that is all zero, and its mark. After
// too many beliefs both may hold anything.
fn count_beliefs(
    automaton: &Automaton,
    moves: &mut [u8],
    finals: &mut [u8; BELIEF_LIMIT],
) -> Option<usize>
    requires { moves.old ≡ replicate (belief_limit * pair_limit) 0 }
    ensures value { result ≡ explored_of (counted_beliefs automaton.now.sets.now automaton.now.successors.now
        automaton.now.states automaton.now.pairs automaton.now.hiddens belief_limit) }
    ensures ran_beliefs { RanBeliefs automaton.now.sets.now automaton.now.successors.now automaton.now.states automaton.now.pairs
        automaton.now.hiddens (counted_beliefs automaton.now.sets.now automaton.now.successors.now
        automaton.now.states automaton.now.pairs automaton.now.hiddens belief_limit) moves.new finals.new }
{
    let mut mem = [0u8; BELIEFS_SIZE];
    let mut twins = [0u8; PAIR_LIMIT];
    let mut hints = [0u8; HINTS];
    put_twins(automaton, &mut twins);
    mem[0] = 1;
    let mut k = 1;
    let mut i = 0;
    while i < k {
        let at = i * PAIR_LIMIT;
        let row = &mut moves[at..at + automaton.pairs];
        k = visit_belief(automaton, &twins, i, k, &mut mem, &mut hints, row, finals)?;
        i += 1;
    }
    Some(k)
}

// All beliefs over the automaton's states that count, by number: for each the row of the beliefs that pairs lead to, into memory that
// is all zero, and whether it is final. The row of a final one stays zero. After too many beliefs nothing but the answer.
pub fn explore_beliefs(automaton: &Automaton, moves: &mut [u8], finals: &mut [u8]) -> Option<usize>
    requires moves_value { moves.old ≡ replicate (belief_limit * pair_limit) 0 }
    requires belief_limit_in_bounds { belief_limit ≤ length finals.old }
    ensures value { result ≡ explored_of (counted_beliefs automaton.now.sets.now automaton.now.successors.now
        automaton.now.states automaton.now.pairs automaton.now.hiddens belief_limit) }
    ensures moves_after { moves.new ≡ padded (belief_limit * pair_limit)
        (moves_of automaton.now.sets.now automaton.now.successors.now automaton.now.states automaton.now.pairs automaton.now.hiddens
        (counted_beliefs automaton.now.sets.now automaton.now.successors.now
        automaton.now.states automaton.now.pairs automaton.now.hiddens belief_limit)) }
    ensures finals_after { finals.new ≡ written (finals_of automaton.now.sets.now automaton.now.states
        (list_of (counted_beliefs automaton.now.sets.now automaton.now.successors.now
        automaton.now.states automaton.now.pairs automaton.now.hiddens belief_limit))) finals.old }
{
    let mut marks = [0u8; BELIEF_LIMIT];
    match count_beliefs(automaton, moves, &mut marks) {
        Some(k) => {
            finals[..k].copy_from_slice(&marks[..k]);
            Some(k)
        }
        None => {
            moves.fill(0);
            None
        }
    }
}
