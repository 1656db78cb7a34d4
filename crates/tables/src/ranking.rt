// Ranks, round by round: a position gets rank r where the controller can choose so that every observation leads below r.
ghost use Rattle.std.specs.Prelude.{◌≡◌, suc, ◌<◌, ◌++◌, take, drop};
ghost use Rattle.basics.specs.Lists.{tabulate};
ghost use Rattle.basics.specs.Bounded.{any, first_that};
ghost use Rattle.basics.specs.declared.order.Order.TheVariants.{Read};
ghost use Rattle.tables.specs.PositionMemory.{works, can_lead, first_rank, ranks_below, has_rank, no_rank};

use crate::arena::Arena;
use crate::sizes::{BELIEF_LIMIT, NO_RANK};
use basics::Order;

// The smallest choice after which every observation leads to a rank below r; `choices` if there is none.
pub(crate) fn smallest_choice(arena: &Arena, ranks: &[u16; BELIEF_LIMIT], r: u16, k: usize) -> usize
    requires { k < arena.now.count }
    ensures { result ≡ first_that (works arena.now.moves.now ranks.now arena.now.choices arena.now.observations r k) arena.now.choices }
{
    'choices: for c in 0..arena.choices {
        for s in 0..arena.observations {
            if arena.rank_after(ranks, k, c, s) >= r {
                continue 'choices;
            }
        }
        return c;
    }
    arena.choices
}

// Whether at every observation some choice leads to a rank below r.
fn each_has_choice(arena: &Arena, ranks: &[u16; BELIEF_LIMIT], r: u16, k: usize) -> bool
    requires { k < arena.now.count }
    ensures { result ≡ can_lead Read arena.now.moves.now ranks.now arena.now.choices arena.now.observations r k }
{
    'observations: for s in 0..arena.observations {
        for c in 0..arena.choices {
            if arena.rank_after(ranks, k, c, s) < r {
                continue 'observations;
            }
        }
        return false;
    }
    true
}

// Whether the controller can choose so that every observation leads to a rank below r.
fn can_lead(order: Order, arena: &Arena, ranks: &[u16; BELIEF_LIMIT], r: u16, k: usize) -> bool
    requires { k < arena.now.count }
    ensures { result ≡ can_lead order arena.now.moves.now ranks.now arena.now.choices arena.now.observations r k }
{
    match order {
        Order::Set => smallest_choice(arena, ranks, r, k) < arena.choices,
        Order::Read => each_has_choice(arena, ranks, r, k),
    }
}

// Gives rank 0 to the final positions, and no rank to the others.
fn rank_finals(arena: &Arena, ranks: &mut [u16; BELIEF_LIMIT])
    ensures { ranks.new ≡ tabulate arena.now.count (first_rank arena.now.finals.now) ++ drop arena.now.count ranks.old }
{
    for k in 0..arena.count {
        if arena.finals[k] == 1 {
            ranks[k] = 0;
        } else {
            ranks[k] = NO_RANK;
        }
    }
}

// Gives rank r to every position without a rank from which the controller can lead below r; answers whether there was one.
fn rank_round(order: Order, arena: &Arena, r: u16, ranks: &mut [u16; BELIEF_LIMIT]) -> bool
    requires r_nonzero { 0 < r }
    requires r_lt_no_rank { r < no_rank }
    requires ranks_value { take arena.now.count ranks.old
        ≡ ranks_below order arena.now.count arena.now.choices arena.now.observations r arena.now.moves.now arena.now.finals.now }
    ensures ranks_after { ranks.new
        ≡ ranks_below order arena.now.count arena.now.choices arena.now.observations (suc r) arena.now.moves.now arena.now.finals.now
        ++ drop arena.now.count ranks.old }
    ensures value { result
        ≡ any arena.now.count (has_rank order arena.now.choices arena.now.observations r arena.now.moves.now arena.now.finals.now) }
{
    let mut more = false;
    for k in 0..arena.count {
        if ranks[k] == NO_RANK {
            if can_lead(order, arena, ranks, r, k) {
                ranks[k] = r;
                more = true;
            }
        }
    }
    more
}

// The ranks of all positions.
pub(crate) fn rank_all(order: Order, arena: &Arena, ranks: &mut [u16; BELIEF_LIMIT])
    ensures { ranks.new
        ≡ ranks_below order arena.now.count arena.now.choices arena.now.observations arena.now.count arena.now.moves.now arena.now.finals.now
        ++ drop arena.now.count ranks.old }
{
    rank_finals(arena, ranks);
    for r in 1..arena.count {
        if !rank_round(order, arena, r as u16, ranks) {
            return;
        }
    }
}
