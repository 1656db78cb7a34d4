// The search for all states: every letter is read in every state, in the order in which states are found. A letter is known
// here by its number and its map.
ghost use Rattle.std.specs.Prelude.{◌≡◌, [], ◌∷◌, ◌+◌, ◌*◌, ◌≤◌, ◌<◌, length, get_or, replicate};
ghost use Rattle.basics.specs.Limits.{operator_limit};
ghost use Rattle.search.specs.Limits.{state_limit, letter_limit, set_size};
ghost use Rattle.basics.specs.Bounded.{first_that};
ghost use Rattle.basics.specs.Lists.{below, padded};
ghost use Rattle.search.specs.Maps.{map_at};
ghost use Rattle.search.specs.Letters.{back_by, reached};
ghost use Rattle.search.specs.Slots.{same_slot, explored_of};
ghost use Rattle.search.specs.Memory.{half_of, set_in, sets_in, Holds, bits_in, with_next};
ghost use Rattle.search.specs.Memory.{grown, row_of, count_of, Expanded, Ran, sets_of, successors_of};

use crate::letters::Letters;
use crate::sets::{find, put_next, put_spread, put_start};
use crate::sizes::{LETTER_LIMIT, MAP, PATTERNS, SET, STATE_LIMIT};

// How many bytes of a set differ once a letter was read.
#[tactic(auto, using(basics::proofs::BitsLaws::shl_one), unfolding(crate::specs::Memory::half_of))]
fn half_of(d: usize) -> usize
    requires { d ≤ operator_limit }
    ensures { result ≡ half_of d }
{
    if d < 3 { 1 } else { 1 << (d - 3) }
}

// Makes the set that letter a leads to from set i, by the map at place a, and answers the first place that holds it. No set is
// passed by value: `present` lends the bits of set i, spread once for all letters, and the next set is written where it is kept if
// it is new, in place m of the work memory that the customer lends. `solve` lends the front of it to `solve_source`, and
// `solve_parts`, `states::explore`, `search`, `run` and `expand` hand on the slice that they are lent. Set i stands in front of
// place m, so it stays; its number is there for the contract.
fn put_set(
    letters: &Letters<'_>,
    present: &[bool; PATTERNS],
    i: usize,
    a: usize,
    m: usize,
    mem: &mut [u8],
) -> usize
    requires a_lt_count { a < letters.now.count }
    requires own_map { get_or letters.now.firsts.now a 0 ≡ a }
    requires i_lt_m { i < m }
    requires m_le_state_limit { m ≤ state_limit }
    requires mem_len { length mem.old ≡ (state_limit + 1) * set_size }
    requires present_value { present.now ≡ bits_in letters.now.operators mem.old i }
    ensures mem_after { mem.new ≡ with_next letters.now.operators
        (map_at letters.now.maps.now letters.now.operators) mem.old i (a ∷ []) m }
    ensures value { result ≡ first_that (same_slot set_size mem.new m) m }
{
    let from = a * MAP;
    let map = &letters.maps[from..from + MAP];
    let at = m * SET;
    let h = half_of(letters.operators);
    put_next(present, map, h, &mut mem[at..at + SET]);
    find(mem, SET, m)
}

// Reads every letter in set i, of n. Writes the sets that are new behind the others, and for each letter the number of the set
// that it leads to; answers how many sets there are then, none where they are too many.
fn expand(
    letters: &Letters<'_>,
    i: usize,
    n: usize,
    mem: &mut [u8],
    row: &mut [u8],
) -> Option<usize>
    requires row_len { length row.old ≡ letters.now.count }
    requires i_lt_n { i < n }
    requires n_le_state_limit { n ≤ state_limit }
    requires mem_len { length mem.old ≡ (state_limit + 1) * set_size }
    requires holds { Holds letters.now.operators mem.old n }
    ensures value { result ≡ count_of (grown letters.now.operators (back_by letters.now) (below letters.now.count)
        (sets_in letters.now.operators mem.old n) (set_in letters.now.operators mem.old i)) }
    ensures expanded { Expanded letters.now.operators
        (grown letters.now.operators (back_by letters.now) (below letters.now.count)
        (sets_in letters.now.operators mem.old n) (set_in letters.now.operators mem.old i))
        (row_of letters.now.operators (back_by letters.now) (below letters.now.count)
        (grown letters.now.operators (back_by letters.now) (below letters.now.count)
        (sets_in letters.now.operators mem.old n) (set_in letters.now.operators mem.old i))
        (set_in letters.now.operators mem.old i))
        mem.new row.new }
{
    let mut present = [false; PATTERNS];
    let place = i * SET;
    put_spread(&mem[place..place + SET], &mut present);
    let mut m = n;
    for a in 0..letters.count {
        let b = letters.firsts[a] as usize;
        if b < a {
            row[a] = row[b];
        } else {
            let t = put_set(letters, &present, i, a, m, mem);
            if t == m {
                if m == STATE_LIMIT {
                    return None;
                }
                m += 1;
            }
            row[a] = t as u8;
        }
    }
    Some(m)
}

// Reads every letter in every set, from the start on, into memory that is all zero for the rows, and answers how many sets there are. After
// too many there is no answer, and both memories may hold anything.
fn run(letters: &Letters<'_>, mem: &mut [u8], successors: &mut [u8]) -> Option<usize>
    requires mem_len { length mem.old ≡ (state_limit + 1) * set_size }
    requires successors_value { successors.old ≡ replicate (state_limit * letter_limit) 0 }
    ensures value { result ≡ explored_of (reached letters.now) }
    ensures ran { Ran letters.now.operators (back_by letters.now) (below letters.now.count) (reached letters.now)
        mem.new successors.new }
{
    put_start(letters.operators, &mut mem[0..SET]);
    let mut n = 1;
    let mut i = 0;
    while i < n {
        let at = i * LETTER_LIMIT;
        n = expand(letters, i, n, mem, &mut successors[at..at + letters.count])?;
        i += 1;
    }
    Some(n)
}

// All sets that the letters reach, and the number of the set that each leads to from each, into memory that is all
// zero for the latter; answers how many sets there are, none where they are too many.
pub fn search(letters: &Letters<'_>, mem: &mut [u8], successors: &mut [u8]) -> Option<usize>
    requires mem_len { length mem.old ≡ (state_limit + 1) * set_size }
    requires successors_value { successors.old ≡ replicate (state_limit * letter_limit) 0 }
    ensures value { result ≡ explored_of (reached letters.now) }
    ensures mem_after { mem.new ≡ padded (length mem.old) (sets_of (reached letters.now)) }
    ensures successors_after { successors.new ≡ padded (length successors.old)
        (successors_of letters.now.operators (back_by letters.now) (below letters.now.count) (reached letters.now)) }
{
    match run(letters, mem, successors) {
        Some(n) => {
            let at = n * SET;
            mem[at..].fill(0);
            Some(n)
        }
        None => {
            mem.fill(0);
            successors.fill(0);
            None
        }
    }
}
