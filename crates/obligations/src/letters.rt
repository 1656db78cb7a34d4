// The letters of a problem, by number.
ghost use Rattle.std.specs.Prelude.{◌≡◌, ◌++◌, ◌<◌, ◌≤◌, ◌+◌, length, drop};
ghost use Rattle.basics.specs.Limits.{kind_limit};
ghost use Rattle.obligations.specs.Letters.{counts, letter_count, letter_of, letters_of};

use basics::{HIDDEN, OBSERVED};

// Letter number i: output signals have the lowest bits, then observed ones, then hidden ones.
fn letter_of(outputs: usize, observed: usize, hidden: usize, i: usize) -> u16
    requires outputs_le_kind_limit { outputs ≤ kind_limit }
    requires observed_le_kind_limit { observed ≤ kind_limit }
    requires hidden_le_kind_limit { hidden ≤ kind_limit }
    requires i_bound { i < letter_count (counts outputs observed hidden) }
    ensures { result ≡ letter_of (counts outputs observed hidden) i }
{
    let out = i & ((1 << outputs) - 1);
    let see = (i >> outputs) & ((1 << observed) - 1);
    let hid = i >> (outputs + observed);
    (out | see << OBSERVED | hid << HIDDEN) as u16
}

// Writes all letters, and answers how many there are.
pub fn list_letters(outputs: usize, observed: usize, hidden: usize, letters: &mut [u16]) -> usize
    requires outputs_le_kind_limit { outputs ≤ kind_limit }
    requires observed_le_kind_limit { observed ≤ kind_limit }
    requires hidden_le_kind_limit { hidden ≤ kind_limit }
    requires hidden_in_bounds { letter_count (counts outputs observed hidden) ≤ length letters.old }
    ensures value { result ≡ letter_count (counts outputs observed hidden) }
    ensures letters_after { letters.new ≡ letters_of (counts outputs observed hidden) ++ drop (letter_count (counts outputs observed hidden))
        letters.old }
{
    let count = 1 << (outputs + observed + hidden);
    for i in 0..count {
        letters[i] = letter_of(outputs, observed, hidden, i);
    }
    count
}
