// States in memory: their sets, and where letters lead from each.
ghost use Rattle.std.specs.Prelude.{◌≡◌, ◌+◌, ◌*◌, ◌≤◌, ◌<◌, length};
ghost use Rattle.search.specs.Limits.{state_limit, letter_limit, set_size};
ghost use Rattle.play.specs.Limits.{pair_limit};
ghost use Rattle.beliefs.specs.BeliefMemory.{Successors, successor_in};

use search::LETTER_LIMIT;

// The numbers below `states` are states, closed under letters. A letter is a pair of a choice and an observation, with a hidden value:
// number q + h * pairs is pair q with hidden value h.
#[derive(Clone, Copy)]
pub struct Automaton<'a> {
    pub sets: &'a [u8],
    pub successors: &'a [u8],
    pub states: usize,
    pub pairs: usize,
    pub hiddens: usize,
    ghost successors_len: { length successors.now ≡ state_limit * letter_limit },
    ghost sets_long: { states * set_size ≤ length sets.now },
    ghost some: { 0 < states },
    ghost few: { states ≤ state_limit },
    ghost few_pairs: { pairs ≤ pair_limit },
    ghost few_letters: { hiddens * pairs ≤ letter_limit },
    ghost closed: { Successors successors.now states pairs hiddens },
}

impl Automaton<'_> {
    // The state that pair q leads to from state s with hidden value h.
    pub(crate) fn next(&self, s: usize, q: usize, h: usize) -> u8
        requires s_lt_states { s < self.now.states }
        requires q_lt_pairs { q < self.now.pairs }
        requires h_lt_hiddens { h < self.now.hiddens }
        ensures value { result ≡ successor_in self.now.successors.now s (q + h * self.now.pairs) }
        ensures result_lt_states { result < self.now.states }
    {
        self.successors[s * LETTER_LIMIT + (q + h * self.pairs)]
    }
}
