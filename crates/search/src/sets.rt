// Sets of patterns in memory, at places of equal size.
ghost use Rattle.std.specs.Prelude.{◌≡◌, ◌<◌, ◌≤◌, ◌*◌, ◌+◌, length};
ghost use Rattle.basics.specs.Limits.{operator_limit};
ghost use Rattle.basics.specs.Bounded.{first_that};
ghost use Rattle.search.specs.Limits.{set_size};
ghost use Rattle.search.specs.PatternSet.{start};
ghost use Rattle.search.specs.Slots.{same_run, same_slot};
ghost use Rattle.search.specs.Memory.{packed, start_byte, spread, next_byte, repeated, next_bytes};

use crate::sizes::{PATTERNS, RUN};
use basics::{first_that, from_bits};

// Byte i of the start set over d operators.
fn start_byte(d: usize, i: usize) -> u8
    requires d_le_operator_limit { d ≤ operator_limit }
    requires i_lt_set_size { i < set_size }
    ensures { result ≡ start_byte d i }
{
    from_bits(8, |j| (i * 8 + j) >> d & 1 == 1)
}

// Writes the start set over d operators: the patterns with bit d.
pub(crate) fn put_start(d: usize, place: &mut [u8])
    requires d_le_operator_limit { d ≤ operator_limit }
    requires place_len_bound { length place.old ≤ set_size }
    ensures { place.new ≡ packed (length place.old) (start d) }
{
    for (i, byte) in place.iter_mut().enumerate() {
        *byte = start_byte(d, i);
    }
}

// Writes the bits of some bytes one by one.
pub(crate) fn put_spread(bytes: &[u8], present: &mut [bool; PATTERNS])
    requires { length bytes.now ≡ set_size }
    ensures { present.new ≡ spread bytes.now }
{
    for (p, bit) in present.iter_mut().enumerate() {
        *bit = bytes[p / 8] >> (p % 8) & 1 == 1;
    }
}

// Byte b of the next set: each pattern is in it if the one that it is carried back to is present.
fn next_byte(present: &[bool; PATTERNS], entries: &[u8], b: usize) -> u8
    requires b_in_bounds { b * 8 + 8 ≤ length entries.now }
    ensures { result ≡ next_byte present.now entries.now b }
{
    from_bits(8, |j| present[entries[b * 8 + j] as usize])
}

// Fills the set with its first h bytes.
fn repeat(h: usize, place: &mut [u8])
    requires h_nonzero { 0 < h }
    requires h_in_bounds { h ≤ length place.old }
    ensures { place.new ≡ repeated h place.old }
{
    for b in h..place.len() {
        place[b] = place[b - h];
    }
}

// Writes the next set: h bytes, and then the same again.
pub(crate) fn put_next(present: &[bool; PATTERNS], entries: &[u8], h: usize, place: &mut [u8])
    requires h_in_bounds { h * 8 ≤ length entries.now }
    requires h_nonzero { 0 < h }
    requires h_in_bounds_2 { h ≤ length place.old }
    ensures { place.new ≡ next_bytes (length place.old) present.now entries.now h }
{
    for b in 0..h {
        place[b] = next_byte(present, entries, b);
    }
    repeat(h, place);
}

// Whether the k bytes from a on and from b on agree.
#[inline(always)]
fn same_run(mem: &[u8], a: usize, b: usize, k: usize) -> bool
    requires k_in_bounds { a + k ≤ length mem.now }
    requires k_in_bounds_2 { b + k ≤ length mem.now }
    ensures { result ≡ same_run mem.now a b k }
{
    for y in 0..k {
        if mem[a + y] != mem[b + y] {
            return false;
        }
    }
    true
}

// Whether places i and n, of w bytes each, hold the same bytes.
pub fn same_slot(mem: &[u8], w: usize, n: usize, i: usize) -> bool
    requires w_in_bounds { n * w + w ≤ length mem.now }
    requires w_in_bounds_2 { i * w + w ≤ length mem.now }
    ensures { result ≡ same_slot w mem.now n i }
{
    for r in 0..w / RUN {
        if !same_run(mem, i * w + r * RUN, n * w + r * RUN, RUN) {
            return false;
        }
    }
    let y = w / RUN * RUN;
    same_run(mem, i * w + y, n * w + y, w - y)
}

// The first place with the bytes of place n.
pub fn find(mem: &[u8], w: usize, n: usize) -> usize
    requires w_in_bounds { n * w + w ≤ length mem.now }
    ensures { result ≡ first_that (same_slot w mem.now n) n }
{
    first_that(n, |i| same_slot(mem, w, n, i))
}
