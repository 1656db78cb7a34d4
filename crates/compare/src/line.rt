// What a line's fields say.
ghost use Rattle.std.specs.Prelude.{◌<◌};

use crate::draw::Kind;
use basics::field;
use streams::Console;

// The number in a field; 0 where it is wrong, which is said.
pub(crate) fn argument(console: Console, line: &[u8], k: usize) -> usize
    ensures { result < 65536 }
{
    console.number_in(field(line, k))
}

// The kind of problems that a line is about.
pub(crate) fn kind_of<'a>(console: Console, line: &'a [u8]) -> Kind<'a> {
    Kind {
        outputs: argument(console, line, 3),
        observed: argument(console, line, 4),
        hidden: argument(console, line, 5),
        rules: argument(console, line, 6),
        size: argument(console, line, 7),
        operators: argument(console, line, 8),
        damage: argument(console, line, 9) != 0,
        patterns: field(line, 10),
    }
}
