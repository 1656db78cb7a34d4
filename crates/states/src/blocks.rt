// The patterns that letters carry back, as words: bit by bit, a word of patterns at a time.
ghost use Rattle.std.specs.Prelude.{◌≡◌, ◌++◌, ◌<◌, ◌≤◌, ◌*◌, length, take, drop};
ghost use Rattle.formula.specs.Codes.{parts_in};
ghost use Rattle.search.specs.Limits.{letter_limit};
ghost use Rattle.obligations.specs.Obligation.{operators_of, spots as spots_of};
ghost use Rattle.obligations.specs.Values.{Stored, stored_prop, numbers_of, block_size, values_to};
ghost use Rattle.states.specs.Limits.{slot_size, plane_size, plane_count};
ghost use Rattle.states.specs.Planes.{carried_lane, plane, planes_to};

use crate::sizes::{PLANE, SLOT, VALUES, WORDS};
use formula::part_at;
use lines::PART_LIMIT;
use obligations::{BLOCK, number_parts, owed_lanes, put_values};
use search::LETTER_LIMIT;

// A formula's parts, for each how many operators stand before it, and where the operators stand among them.
#[derive(Clone, Copy)]
struct Numbered<'a> {
    parts: &'a [u32],
    numbers: &'a [u8],
    spots: &'a [u8],
    operators: usize,
    ghost stored: { Stored parts.now } by { stored_prop parts.now },
    ghost counted: { operators ≡ operators_of (parts_in parts.now) },
    ghost numbered: { take (length parts.now) numbers.now ≡ numbers_of (parts_in parts.now) },
    ghost listed: { take operators spots.now ≡ spots_of (parts_in parts.now) },
}

// Word k of the block's letter x: an operator's obligation, then the whole formula's, then none.
fn carried_lane(formula: &Numbered<'_>, v: &[u64; VALUES], x: usize, k: usize) -> u64
    requires x_lt_block_size { x < block_size }
    ensures { result ≡ carried_lane (parts_in formula.now.parts.now) formula.now.spots.now formula.now.operators v.now x k }
{
    if k < formula.operators {
        let i = formula.spots[k] as usize;
        let part = part_at(formula.parts, i);
        return owed_lanes(
            part.kind,
            v[part.left as usize * BLOCK + x],
            v[i * BLOCK + x],
        );
    }
    if k == formula.operators {
        return v[(formula.parts.len() - 1) * BLOCK + x];
    }
    0
}

// Writes the words of a block of letters, for block w of patterns.
fn put_block(
    formula: &Numbered<'_>,
    letters: &[u16],
    w: usize,
    v: &mut [u64; VALUES],
    words: &mut [u64],
)
    requires letters_len { length letters.now ≡ block_size }
    requires words_len { length words.old ≡ block_size * slot_size }
    ensures words_after { words.new ≡ plane (parts_in formula.now.parts.now) letters.now w (block_size * slot_size) }
    ensures v_after { v.new ≡ values_to (parts_in formula.now.parts.now) letters.now w (length formula.now.parts.now) v.old }
{
    put_values(
        formula.parts,
        formula.numbers,
        letters,
        w,
        formula.parts.len(),
        v,
    );
    for y in 0..BLOCK * SLOT {
        words[y] = carried_lane(formula, v, y / SLOT, y % SLOT);
    }
}

// Writes the words of all letters, in so many blocks, for block w of patterns.
fn put_plane(
    formula: &Numbered<'_>,
    letters: &[u16; LETTER_LIMIT],
    blocks: usize,
    w: usize,
    words: &mut [u64],
)
    requires block_size_bound { blocks * block_size ≤ letter_limit }
    requires words_len { length words.old ≡ plane_size }
    ensures { words.new ≡ plane (parts_in formula.now.parts.now) letters.now w (blocks * block_size * slot_size)
        ++ drop (blocks * block_size * slot_size) words.old }
{
    let mut v = [0u64; VALUES];
    for b in 0..blocks {
        let from = b * BLOCK;
        let at = from * SLOT;
        put_block(
            formula,
            &letters[from..from + BLOCK],
            w,
            &mut v,
            &mut words[at..at + BLOCK * SLOT],
        );
    }
}

// Writes the words of all letters in m planes.
pub(crate) fn put_planes(
    parts: &[u32],
    d: usize,
    letters: &[u16; LETTER_LIMIT],
    blocks: usize,
    m: usize,
    words: &mut [u64; WORDS],
)
    requires stored { Stored parts.now }
    requires d_value { d ≡ operators_of (parts_in parts.now) }
    requires block_size_bound { blocks * block_size ≤ letter_limit }
    requires m_le_plane_count { m ≤ plane_count }
    ensures { words.new ≡ planes_to (parts_in parts.now) letters.now (blocks * block_size) m words.old }
{
    let mut numbers = [0u8; PART_LIMIT];
    let mut spots = [0u8; SLOT];
    number_parts(parts, &mut numbers, &mut spots);
    let formula = Numbered {
        parts,
        numbers: &numbers,
        spots: &spots,
        operators: d,
    };
    for w in 0..m {
        let at = w * PLANE;
        put_plane(&formula, letters, blocks, w, &mut words[at..at + PLANE]);
    }
}
