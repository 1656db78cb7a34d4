// The maps of letters: for each pattern about the next step the one that the letter carries it back to. Letters with the same
// words have the same map, which is kept once.
ghost use Rattle.std.specs.Prelude.{◌≡◌, ◌<◌, ◌≤◌, ◌*◌, ◌+◌, ◌++◌, length, drop};
ghost use Rattle.search.specs.Limits.{map_size, letter_limit};
ghost use Rattle.basics.specs.Lists.{tabulate};
ghost use Rattle.basics.specs.Limits.{word_size};
ghost use Rattle.states.specs.Limits.{slot_size, plane_size, plane_count};
ghost use Rattle.states.specs.Planes.{lane_of, map_of, same_words, first_of, maps_to};

use crate::sizes::{MAPS, PLANE, PLANES, SLOT, WORDS};
use basics::{WORD, first_that, from_bits};
use search::{LETTER_LIMIT, MAP};

// Whether letters a and b have the same words.
fn same_words(words: &[u64; WORDS], a: usize, b: usize) -> bool
    requires a_lt_letter_limit { a < letter_limit }
    requires b_lt_letter_limit { b < letter_limit }
    ensures { result ≡ same_words words.now a b }
{
    for y in 0..PLANES * SLOT {
        let at = y / SLOT * PLANE + y % SLOT;
        if words[at + a * SLOT] != words[at + b * SLOT] {
            return false;
        }
    }
    true
}

// The first letter with the words of letter a.
#[tactic(auto, unfolding(crate::specs::Planes::first_of))]
fn first_same(words: &[u64; WORDS], a: usize) -> usize
    requires a_lt_letter_limit { a < letter_limit }
    ensures { result ≡ first_of words.now a }
{
    first_that(a, |b| same_words(words, a, b))
}

// The number whose bits are the bits j of a letter's words in a plane, from `at` on.
fn lane_of(words: &[u64; WORDS], at: usize, j: usize) -> u8
    requires slot_size_in_bounds { at + slot_size ≤ plane_count * plane_size }
    requires j_lt_word_size { j < word_size }
    ensures { result ≡ lane_of words.now at j }
{
    from_bits(SLOT, |k| words[at + k] >> j & 1 == 1)
}

// Writes the map of letter a, from m planes.
fn put_map(words: &[u64; WORDS], a: usize, m: usize, map: &mut [u8])
    requires a_lt_letter_limit { a < letter_limit }
    requires m_le_plane_count { m ≤ plane_count }
    requires map_len { length map.old ≡ map_size }
    ensures { map.new ≡ map_of words.now a (m * word_size) ++ drop (m * word_size) map.old }
{
    for p in 0..m * WORD {
        map[p] = lane_of(words, p / WORD * PLANE + a * SLOT, p % WORD);
    }
}

// Writes for each of n letters the first with the same words, and the maps of those that are first.
pub(crate) fn classify(
    words: &[u64; WORDS],
    n: usize,
    m: usize,
    maps: &mut [u8; MAPS],
    firsts: &mut [u16; LETTER_LIMIT],
)
    requires n_le_letter_limit { n ≤ letter_limit }
    requires m_le_plane_count { m ≤ plane_count }
    ensures maps_after { maps.new ≡ maps_to words.now m n maps.old }
    ensures firsts_after { firsts.new ≡ tabulate n (first_of words.now) ++ drop n firsts.old }
{
    for a in 0..n {
        let b = first_same(words, a);
        firsts[a] = b as u16;
        if b == a {
            let at = a * MAP;
            put_map(words, a, m, &mut maps[at..at + MAP]);
        }
    }
}
