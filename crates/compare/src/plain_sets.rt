// Sets: of patterns by number, and of states by number. A state or a belief has a byte for its number.
ghost use Rattle.std.specs.Prelude.{◌≤◌};
ghost use Rattle.basics.specs.Limits.{index_limit};

use crate::list::List;
use crate::plain_patterns::PATTERNS;

pub type Set = [bool; PATTERNS];

// Finds all sets that moves lead to from those that are there, and where each move leads; none where there are more than N. A move leads
// from a set to `after` of both, if it can be made there.
pub(crate) fn explore<const M: usize, const N: usize, F: Fn(&Set, usize) -> Option<Set>>(
    found: &mut List<Set, N>,
    moves: &mut [[u8; M]; N],
    after: F,
) -> Option<()>
    requires few { N ≤ index_limit }
    requires callable { F.IsAlwaysCallable after }
    ensures { found.old.count ≤ found.new.count }
{
    let mut i = 0;
    while i < found.count {
        let set = found.items[i];
        for m in 0..M {
            if let Some(next) = after(&set, m) {
                let j = found.place_of(next)?;
                moves[i][m] = j as u8;
            }
        }
        i += 1;
    }
    Some(())
}
