// The values of parts on a trace, worked out from the last step back to the first, all parts at each step: linear in steps
// times parts.
ghost use Rattle.std.specs.Prelude.{◌≡◌, ◌≤◌, ◌<◌, length, drop};
ghost use Rattle.basics.specs.Limits.{index_limit};
ghost use Rattle.formula.specs.Codes.{parts_in};
ghost use Rattle.formula.specs.Parts.{last_of};
ghost use Rattle.formula.specs.Values.{value_on};
ghost use Rattle.formula.specs.Entries.{entries_on, with_values, with_owed};

use crate::formula::{bit_of, combined, entry_of, owed_by, owed_in, value_in};
use crate::parts::{Part, part_at};

// Writes the values of the first n parts at the step with this letter, from the entries for the next step. An operand that does not
// stand before its part counts as false.
fn values_back(parts: &[u32], letter: u16, n: usize, entries: &mut [u8])
    requires n_in_bounds { n ≤ length parts.now }
    requires parts_in_bounds { (length parts.now ≤ length entries.old) × (index_limit ≤ length entries.old) }
    ensures { entries.new ≡ with_values (parts_in parts.now) letter n entries.old }
{
    if n == 0 {
        return;
    }
    let i = n - 1;
    values_back(parts, letter, i, entries);
    let Part { kind, left, right } = part_at(parts, i);
    let o = owed_in(entries[i]);
    let x = ((left as usize) < i) & value_in(entries[left as usize]);
    let y = ((right as usize) < i) & value_in(entries[right as usize]);
    let v = combined(kind, bit_of(letter, left), o, x, y);
    entries[i] = entry_of(v, false);
}

// Writes the obligations of all parts about a step, from the values there.
fn owed_back(parts: &[u32], entries: &mut [u8])
    requires { (length parts.now ≤ length entries.old) × (index_limit ≤ length entries.old) }
    ensures { entries.new ≡ with_owed (parts_in parts.now) (length parts.now) entries.old }
{
    for i in 0..parts.len() {
        let Part { kind, left, .. } = part_at(parts, i);
        let v = value_in(entries[i]);
        let x = value_in(entries[left as usize]);
        entries[i] = entry_of(v, owed_by(kind, x, v));
    }
}

// The entries at step t. An obligation may be about the value of a later part, so all values are written before it.
fn entries_at(parts: &[u32], trace: &[u16], t: usize, entries: &mut [u8])
    requires t_in_bounds { t ≤ length trace.now }
    requires parts_in_bounds { (length parts.now ≤ length entries.old) × (index_limit ≤ length entries.old) }
    ensures { entries.new ≡ entries_on (parts_in parts.now) (length entries.old) (drop t trace.now) }
{
    if t == trace.len() {
        entries.fill(0);
        return;
    }
    entries_at(parts, trace, t + 1, entries);
    values_back(parts, trace[t], parts.len(), entries);
    owed_back(parts, entries);
}

// Whether the last part is true at the first step; the entries hold every part's value there.
pub fn holds_on(parts: &[u32], trace: &[u16], entries: &mut [u8]) -> bool
    requires parts_nonzero { 0 < length parts.now }
    requires parts_in_bounds { (length parts.now ≤ length entries.old) × (index_limit ≤ length entries.old) }
    ensures value { result ≡ value_on (parts_in parts.now) trace.now (last_of (parts_in parts.now)) }
    ensures entries_after { entries.new ≡ entries_on (parts_in parts.now) (length entries.old) trace.now }
{
    entries_at(parts, trace, 0, entries);
    value_in(entries[parts.len() - 1])
}
