// The values of all parts for a block of letters, a word of patterns at a time.
ghost use Rattle.std.specs.Prelude.{◌≡◌, ◌<◌, ◌≤◌, ◌*◌, length, take};
ghost use Rattle.formula.specs.Codes.{parts_in};
ghost use Rattle.basics.specs.Limits.{index_limit};
ghost use Rattle.obligations.specs.Values.{Stored, numbers_of, block_size, with_part, values_to};

use crate::lanes::obligation_lanes;
use formula::{Part, Truth, bit_of, combined, part_at};

// Letters that are evaluated together.
pub const BLOCK: usize = 16;

// Writes the words of part i, from those of its operands; o is its obligation.
fn put_part(part: Part, o: u64, letters: &[u16], i: usize, v: &mut [u64])
    requires letters_len { length letters.now ≡ block_size }
    requires i_lt_index_limit { i < index_limit }
    requires v_len { length v.old ≡ index_limit * block_size }
    ensures { v.new ≡ with_part part o letters.now i v.old }
{
    let left = part.left as usize * BLOCK;
    let right = part.right as usize * BLOCK;
    let at = i * BLOCK;
    for x in 0..BLOCK {
        let s = u64::all(bit_of(letters[x], part.left));
        v[at + x] = combined(part.kind, s, o, v[left + x], v[right + x]);
    }
}

// Writes the words of the first n parts, for block w of patterns.
pub fn put_values(parts: &[u32], numbers: &[u8], letters: &[u16], w: usize, n: usize, v: &mut [u64])
    requires stored { Stored parts.now }
    requires numbers_value { take (length parts.now) numbers.now ≡ numbers_of (parts_in parts.now) }
    requires letters_len { length letters.now ≡ block_size }
    requires n_in_bounds { n ≤ length parts.now }
    requires v_len { length v.old ≡ index_limit * block_size }
    ensures { v.new ≡ values_to (parts_in parts.now) letters.now w n v.old }
{
    if n == 0 {
        return;
    }
    let i = n - 1;
    put_values(parts, numbers, letters, w, i, v);
    let o = obligation_lanes(numbers[i], w);
    put_part(part_at(parts, i), o, letters, i, v);
}
