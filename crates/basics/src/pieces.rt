// The pieces of a text that single bytes part: lines by byte 10, the fields of a line by tabs.
ghost use Rattle.std.specs.Prelude.{◌≡◌, ◌≤◌, length, drop};
ghost use Rattle.basics.specs.Bytes.{in_class};
ghost use Rattle.basics.specs.Pieces.{field_at};

use crate::bytes::{Class, past};

// The piece from a place on: a line, or a field.
pub fn piece(text: &[u8], at: usize, class: Class) -> &[u8]
    requires { at ≤ length text.now }
    ensures { result.now ≡ Rattle.basics.specs.Pieces.piece (in_class class) (drop at text.now) }
{
    &text[at..past(text, at, class)]
}

// Where the piece behind that one begins, or the end.
pub fn behind(text: &[u8], at: usize, class: Class) -> usize
    requires { at ≤ length text.now }
    ensures upper_bound { result ≤ length text.now }
    ensures text_value { drop result text.now ≡ Rattle.basics.specs.Pieces.behind (in_class class) (drop at text.now) }
{
    let end = past(text, at, class);
    if end < text.len() { end + 1 } else { end }
}

// Field k of a line, from 0; empty where the line has none.
pub fn field(line: &[u8], k: usize) -> &[u8]
    ensures { result.now ≡ field_at k line.now }
{
    let mut start = 0;
    for _ in 0..k {
        start = behind(line, start, Class::Field);
    }
    piece(line, start, Class::Field)
}
