// Memory to lend, which holds ones, and what it has to be afterwards.
ghost use Rattle.std.specs.Prelude.{◌≡◌, length};

use rules::WORK_SIZE;
use streams::Console;

// Memory to lend.
pub(crate) fn ones() -> [u8; WORK_SIZE]
    ensures { 65536 ≡ length result }
{
    [1; WORK_SIZE]
}

// Says so where memory does not hold what is expected, and `behind` in the rest of it.
pub(crate) fn look_at<T: Copy + PartialEq>(
    console: Console,
    memory: &[T],
    expected: &[T],
    behind: T,
) {
    for (i, &cell) in memory.iter().enumerate() {
        if cell != expected.get(i).copied().unwrap_or(behind) {
            return console.say_wrong();
        }
    }
}

// Work memory is all zero after a call, or untouched where memory was short.
pub(crate) fn look_at_work(console: Console, work: &[u8], short: bool) {
    look_at(console, work, b"", short as u8);
}
