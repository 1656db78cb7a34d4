// The temporal operators of a formula, numbered in the order of its parts.
ghost use Rattle.std.specs.Prelude.{◌≡◌, ◌++◌, ◌≤◌, length, drop};
ghost use Rattle.formula.specs.Codes.{parts_in};
ghost use Rattle.basics.specs.Limits.{index_limit};
ghost use Rattle.obligations.specs.Obligation.{operators_of, spots as spots_of};
ghost use Rattle.obligations.specs.Values.{numbers_of};

use formula::is_temporal_at;

// Writes for each part how many operators stand before it, and for each operator which part it is.
pub fn number_parts(parts: &[u32], numbers: &mut [u8], spots: &mut [u8])
    requires parts_in_bounds { length parts.now ≤ length numbers.old }
    requires numbers_len_bound { length numbers.old ≤ index_limit }
    requires parts_in_bounds_2 { operators_of (parts_in parts.now) ≤ length spots.old }
    ensures numbers_after { numbers.new ≡ numbers_of (parts_in parts.now) ++ drop (length parts.now) numbers.old }
    ensures spots_after { spots.new ≡ spots_of (parts_in parts.now) ++ drop (operators_of (parts_in parts.now)) spots.old }
{
    let mut k = 0;
    for i in 0..parts.len() {
        numbers[i] = k as u8;
        if is_temporal_at(parts, i) {
            spots[k] = i as u8;
            k += 1;
        }
    }
}
