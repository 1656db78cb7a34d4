// The choices of a position whose rank is known.
ghost use Rattle.std.specs.Prelude.{◌≡◌, ◌≤◌, ◌<◌, replicate};
ghost use Rattle.basics.specs.Bounded.{first_that};
ghost use Rattle.basics.specs.Lists.{written};
ghost use Rattle.basics.specs.declared.order.Order.TheVariants.{Read};
ghost use Rattle.play.specs.Limits.{side_limit};
ghost use Rattle.tables.specs.PositionMemory.{is_best, answers_at};

use crate::arena::Arena;
use crate::ranking::smallest_choice;
use crate::sizes::{BELIEF_LIMIT, SIDE_LIMIT};
use basics::Order;

// The smallest choice that leads, at observation s, to the lowest rank.
fn best_choice(arena: &Arena, ranks: &[u16; BELIEF_LIMIT], k: usize, s: usize) -> usize
    requires k_lt_count { k < arena.now.count }
    requires s_lt_observations { s < arena.now.observations }
    ensures { result ≡ first_that (is_best arena.now.moves.now ranks.now arena.now.choices k s) arena.now.choices }
{
    let mut best = 0;
    let mut least = arena.rank_after(ranks, k, 0, s);
    for c in 1..arena.choices {
        let rank = arena.rank_after(ranks, k, c, s);
        if rank < least {
            best = c;
            least = rank;
        }
    }
    best
}

// The same choice for each of n observations.
fn put_one(c: usize, n: usize, answers: &mut [u8; SIDE_LIMIT])
    requires c_le_side_limit { c ≤ side_limit }
    requires n_le_side_limit { n ≤ side_limit }
    ensures { answers.new ≡ written (replicate n c) answers.old }
{
    answers[..n].fill(c as u8);
}

// For each observation its best choice.
fn put_best(arena: &Arena, ranks: &[u16; BELIEF_LIMIT], k: usize, answers: &mut [u8; SIDE_LIMIT])
    requires { k < arena.now.count }
    ensures { answers.new
        ≡ written (answers_at Read arena.now.moves.now ranks.now arena.now.choices arena.now.observations k) answers.old }
{
    for s in 0..arena.observations {
        answers[s] = best_choice(arena, ranks, k, s) as u8;
    }
}

// The choice of position k for each observation.
pub(crate) fn put_answers(
    order: Order,
    arena: &Arena,
    ranks: &[u16; BELIEF_LIMIT],
    k: usize,
    answers: &mut [u8; SIDE_LIMIT],
)
    requires { k < arena.now.count }
    ensures { answers.new
        ≡ written (answers_at order arena.now.moves.now ranks.now arena.now.choices arena.now.observations k) answers.old }
{
    match order {
        Order::Set => {
            let c = smallest_choice(arena, ranks, ranks[k], k);
            put_one(c, arena.observations, answers);
        }
        Order::Read => put_best(arena, ranks, k, answers),
    }
}
