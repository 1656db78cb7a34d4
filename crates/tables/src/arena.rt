// Positions in memory: where each choice and observation lead from each, and which are final.
ghost use Rattle.std.specs.Prelude.{◌≡◌, ◌<◌};
ghost use Rattle.tables.specs.PositionMemory.{Positions, next_of, rank_after};

use crate::sizes::{BELIEF_LIMIT, PAIR_LIMIT};

// The first `count` numbers are positions, closed under moves. There is at least one choice and one observation.
#[derive(Clone, Copy)]
pub struct Arena<'a> {
    pub moves: &'a [u8],
    pub finals: &'a [u8],
    pub count: usize,
    pub choices: usize,
    pub observations: usize,
    ghost positions: { Positions count choices observations moves.now finals.now },
}

impl Arena<'_> {
    // Where choice c and observation s lead from position k.
    #[tactic(auto, unfolding(crate::specs::PositionMemory::next_of))]
    pub(crate) fn next(&self, k: usize, c: usize, s: usize) -> u8
        requires k_lt_count { k < self.now.count }
        requires c_lt_choices { c < self.now.choices }
        requires s_lt_observations { s < self.now.observations }
        ensures value { result ≡ next_of self.now.moves.now self.now.choices k c s }
        ensures result_lt_count { result < self.now.count }
    {
        self.moves[k * PAIR_LIMIT + s * self.choices + c]
    }

    // The rank of the position there.
    #[tactic(auto, unfolding(crate::specs::PositionMemory::rank_after))]
    pub(crate) fn rank_after(
        &self,
        ranks: &[u16; BELIEF_LIMIT],
        k: usize,
        c: usize,
        s: usize,
    ) -> u16
        requires k_lt_count { k < self.now.count }
        requires c_lt_choices { c < self.now.choices }
        requires s_lt_observations { s < self.now.observations }
        ensures { result ≡ rank_after self.now.moves.now ranks.now self.now.choices k c s }
    {
        ranks[self.next(k, c, s) as usize]
    }
}
