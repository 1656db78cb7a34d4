// The place of a belief. The places found last are tried before all others.
ghost use Rattle.std.specs.Prelude.{◌≡◌, ◌≤◌, ◌<◌};
ghost use Rattle.basics.specs.Bounded.{first_that};
ghost use Rattle.search.specs.Slots.{same_slot};
ghost use Rattle.play.specs.Limits.{belief_limit};
ghost use Rattle.beliefs.specs.BeliefMemory.{belief_size, Apart, hint_size};

use crate::sizes::{BELIEF, BELIEFS_SIZE, HINTS};
use search::{find, same_slot};
use tables::BELIEF_LIMIT;

// Where the hint for place m is kept: a hash of its bytes, with Bernstein's factor 33. Any number below `HINTS` would do.
fn hint_at(mem: &[u8; BELIEFS_SIZE], m: usize) -> usize
    requires { m ≤ belief_limit }
    ensures { result < hint_size }
{
    let at = m * BELIEF;
    let mut x = 0;
    for i in 0..BELIEF {
        x = (x * 33 + mem[at + i] as usize) % HINTS;
    }
    x
}

// The first of the places before m that holds the same bytes; m if there is none. A hint, the place found last for bytes like
// these, is tried first. What the hints are afterwards is open: no answer depends on them.
pub(crate) fn find_hinted(mem: &[u8; BELIEFS_SIZE], m: usize, hints: &mut [u8; HINTS]) -> usize
    requires m_le_belief_limit { m ≤ belief_limit }
    requires apart { Apart mem.now m }
    ensures { result ≡ first_that (same_slot belief_size mem.now m) m }
{
    let h = hint_at(mem, m);
    let g = hints[h] as usize;
    if g < m {
        if same_slot(mem, BELIEF, m, g) {
            return g;
        }
    }
    let t = find(mem, BELIEF, m);
    if t < BELIEF_LIMIT {
        hints[h] = t as u8;
    }
    t
}
