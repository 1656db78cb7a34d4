// The tokens of a formula text.
ghost use Rattle.std.specs.Prelude.{◌≡◌};
ghost use Rattle.syntax.specs.Lex.{plan_kind, word_kind, token_at};

use crate::kinds::{
    AFTER, BEFORE, DURING, END, FALSE, IMPLIES, NAME, NO_TOKEN, ONCE, TRUE, WITHIN,
};
use basics::{Class, is_lower, past, same};

// A token: its kind, where it starts, and where the next one is looked for.
#[derive(Clone, Copy, PartialEq, Eq, Debug)]
pub struct Token {
    pub kind: u8,
    pub from: usize,
    pub next: usize,
}

// The kind of a word that is no constant.
#[tactic(auto, unfolding(crate::specs::Lex::plan_kind))]
fn plan_kind(word: &[u8]) -> u8
    ensures { result ≡ plan_kind word.now }
{
    if same(word, b"once") {
        ONCE
    } else if same(word, b"before") {
        BEFORE
    } else if same(word, b"after") {
        AFTER
    } else if same(word, b"within") {
        WITHIN
    } else if same(word, b"during") {
        DURING
    } else {
        NAME
    }
}

#[tactic(auto, unfolding(crate::specs::Lex::word_kind))]
fn word_kind(word: &[u8]) -> u8
    ensures { result ≡ word_kind word.now }
{
    if same(word, b"true") {
        TRUE
    } else if same(word, b"false") {
        FALSE
    } else {
        plan_kind(word)
    }
}

// The token at or after `at`.
#[tactic(auto, using(basics::proofs::BytesLaws::past_in))]
pub fn token_at(text: &[u8], at: usize) -> Token
    ensures { result ≡ token_at text.now at }
{
    let i = past(text, at, Class::Space);
    if text.len() <= i {
        return Token {
            kind: END,
            from: i,
            next: i,
        };
    }
    let b = text[i];
    if is_lower(b) {
        let j = past(text, i, Class::Word);
        let k = word_kind(&text[i..j]);
        return Token {
            kind: k,
            from: i,
            next: j,
        };
    }
    if b == b'-' {
        if i + 1 < text.len() && text[i + 1] == b'>' {
            return Token {
                kind: IMPLIES,
                from: i,
                next: i + 2,
            };
        }
        return Token {
            kind: NO_TOKEN,
            from: i,
            next: i + 1,
        };
    }
    if b == 0 {
        return Token {
            kind: NO_TOKEN,
            from: i,
            next: i + 1,
        };
    }
    Token {
        kind: b,
        from: i,
        next: i + 1,
    }
}
