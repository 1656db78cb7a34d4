// Runs of bytes of one class, and equality of byte strings.
ghost use Rattle.std.specs.Prelude.{◌≡◌};
ghost use Rattle.basics.specs.Bytes.{lower, word_byte, in_class, same_bytes};

// What a run of bytes is made of: spaces, the bytes of a word, those of a field, those of a line.
#[derive(Clone, Copy)]
pub enum Class {
    Space,
    Word,
    Field,
    Line,
}

#[tactic(auto, unfolding(crate::specs::Bytes::lower))]
pub fn is_lower(b: u8) -> bool
    ensures { result ≡ lower b }
{
    matches!(b, b'a'..=b'z')
}

#[tactic(auto, unfolding(crate::specs::Bytes::word_byte))]
fn is_word(b: u8) -> bool
    ensures { result ≡ word_byte b }
{
    is_lower(b) || matches!(b, b'_' | b'0'..=b'9')
}

fn is_in(class: Class, b: u8) -> bool
    ensures { result ≡ in_class class b }
{
    match class {
        Class::Space => b == b' ',
        Class::Word => is_word(b),
        Class::Field => b != b'\t',
        Class::Line => b != b'\n',
    }
}

// The first place from `at` on whose byte is not of the class, or the end; `at` itself where it lies behind the end.
pub fn past(text: &[u8], at: usize, class: Class) -> usize
    ensures { result ≡ Rattle.basics.specs.Bytes.past (in_class class) text.now at }
{
    for i in at..text.len() {
        if !is_in(class, text[i]) {
            return i;
        }
    }
    at.max(text.len())
}

// Whether two byte strings are equal.
#[tactic(auto, using(crate::proofs::BytesLaws::same_pointwise))]
pub fn same(a: &[u8], b: &[u8]) -> bool
    ensures { result ≡ same_bytes a.now b.now }
{
    a == b
}
