// The states of a problem's formula.
ghost use Rattle.std.specs.Prelude.{◌≡◌, ◌+◌, ◌*◌, ◌≤◌, ◌<◌, length, replicate};
ghost use Rattle.formula.specs.Codes.{parts_in};
ghost use Rattle.rules.specs.Trace.{counts_of};
ghost use Rattle.search.specs.Limits.{state_limit, letter_limit, set_size, map_size};
ghost use Rattle.basics.specs.Lists.{padded};
ghost use Rattle.obligations.specs.Letters.{counts, letter_count, letters_of};
ghost use Rattle.obligations.specs.Obligation.{operators_of, back};
ghost use Rattle.basics.specs.Limits.{kind_limit, operator_limit};
ghost use Rattle.states.specs.States.{states_of};
ghost use Rattle.obligations.specs.Values.{Stored};
ghost use Rattle.search.specs.Maps.{planes_of};
ghost use Rattle.states.specs.Planes.{Sized, MapsOf};
ghost use Rattle.search.specs.Slots.{explored_of};
ghost use Rattle.search.specs.Memory.{sets_of, successors_of};

use crate::blocks::put_planes;
use crate::maps::classify;
use crate::sizes::{MAPS, WORDS};
use basics::WORD_BITS;
use lines::Sizes;
use obligations::{BLOCK, list_letters};
use search::{LETTER_LIMIT, Letters, search};

// How many planes d operators take.
#[tactic(auto, using(basics::proofs::BitsLaws::shl_one), unfolding(search::specs::Maps::planes_of))]
fn planes_of(d: usize) -> usize
    requires { d ≤ operator_limit }
    ensures { result ≡ planes_of d }
{
    1 << d.saturating_sub(WORD_BITS)
}

// Writes the maps of all letters, and answers how many letters there are.
fn prepare(
    parts: &[u32],
    sizes: Sizes,
    maps: &mut [u8; MAPS],
    firsts: &mut [u16; LETTER_LIMIT],
) -> usize
    requires stored { Stored parts.now }
    requires sized { Sized parts.now sizes }
    ensures value { result ≡ letter_count (counts_of sizes) }
    ensures maps_of { MapsOf (parts_in parts.now) (letters_of (counts_of sizes)) sizes.operators result
        maps.new firsts.new }
{
    let mut letters = [0u16; LETTER_LIMIT];
    let mut words = [0u64; WORDS];
    let n = list_letters(sizes.outputs, sizes.observed, sizes.hidden, &mut letters);
    let m = planes_of(sizes.operators);
    put_planes(
        parts,
        sizes.operators,
        &letters,
        n.div_ceil(BLOCK),
        m,
        &mut words,
    );
    classify(&words, n, m, maps, firsts);
    n
}

// All states, and the number of the state that each letter leads to from each, into memory that is all zero for the latter;
// nothing but the answer where they are too many.
pub fn explore(parts: &[u32], sizes: Sizes, mem: &mut [u8], successors: &mut [u8]) -> Option<usize>
    requires stored { Stored parts.now }
    requires sized { Sized parts.now sizes }
    requires mem_len { length mem.old ≡ (state_limit + 1) * set_size }
    requires successors_value { successors.old ≡ replicate (state_limit * letter_limit) 0 }
    ensures value { result ≡ explored_of (states_of (parts_in parts.now) (letters_of (counts_of sizes)) state_limit) }
    ensures mem_after { mem.new ≡ padded (length mem.old)
        (sets_of (states_of (parts_in parts.now) (letters_of (counts_of sizes)) state_limit)) }
    ensures successors_after { successors.new ≡ padded (length successors.old)
        (successors_of sizes.operators (back (parts_in parts.now)) (letters_of (counts_of sizes))
        (states_of (parts_in parts.now) (letters_of (counts_of sizes)) state_limit)) }
{
    let mut maps = [0u8; MAPS];
    let mut firsts = [0u16; LETTER_LIMIT];
    let count = prepare(parts, sizes, &mut maps, &mut firsts);
    let letters = Letters {
        maps: &maps,
        firsts: &firsts,
        operators: sizes.operators,
        count,
    };
    search(&letters, mem, successors)
}
