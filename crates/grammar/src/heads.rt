// The head of a plan word: the word, its `(` and its numbers; and where its second operand stands.
ghost use Rattle.std.specs.Prelude.{◌≡◌, Some};
ghost use Rattle.grammar.specs.PlanParse.{number_at, within_head, during_from, head_of, head_at, second_at};
ghost use Rattle.grammar.specs.Grammar.{takes_two};

use syntax::{AFTER, BEFORE, COMMA, DURING, ONCE, OPEN, PlanWord, WITHIN, ZERO, token_at};

// The most steps that `within` can name, and the last step that `during` can.
const STEPS_LIMIT: usize = 5;

const LAST_LIMIT: usize = 7;

// A digit with a comma behind it, and the place behind both.
#[derive(Clone, Copy)]
pub struct Digit {
    pub value: usize,
    pub next: usize,
}

// A word with its numbers, and where its first operand is looked for.
#[derive(Clone, Copy)]
pub struct Head {
    pub word: PlanWord,
    pub operand: usize,
}

#[tactic(auto, unfolding(crate::specs::PlanParse::number_at))]
fn number_at(text: &[u8], at: usize) -> Option<Digit>
    ensures { result ≡ number_at text.now at }
{
    let digit = token_at(text, at);
    let comma = token_at(text, digit.next);
    if ZERO <= digit.kind && digit.kind <= ZERO + 9 && comma.kind == COMMA {
        return Some(Digit {
            value: (digit.kind - ZERO) as usize,
            next: comma.next,
        });
    }
    None
}

fn within_head(steps: Digit) -> Option<Head>
    ensures { result ≡ within_head (Some steps) }
{
    if steps.value <= STEPS_LIMIT {
        return Some(Head {
            word: PlanWord::Within { steps: steps.value },
            operand: steps.next,
        });
    }
    None
}

fn during_from(text: &[u8], first: Digit) -> Option<Head>
    ensures { result ≡ during_from text.now (Some first) }
{
    let last = number_at(text, first.next)?;
    if 1 <= first.value && first.value <= last.value && last.value <= LAST_LIMIT {
        return Some(Head {
            word: PlanWord::During {
                first: first.value,
                last: last.value,
            },
            operand: last.next,
        });
    }
    None
}

#[tactic(auto, unfolding(crate::specs::PlanParse::head_of))]
fn head_of(k: u8, text: &[u8], at: usize) -> Option<Head>
    ensures { result ≡ head_of k text.now at }
{
    let word = match k {
        ONCE => PlanWord::Once,
        BEFORE => PlanWord::Before,
        AFTER => PlanWord::After,
        WITHIN => return within_head(number_at(text, at)?),
        DURING => return during_from(text, number_at(text, at)?),
        _ => return None,
    };
    Some(Head { word, operand: at })
}

#[tactic(auto, unfolding(crate::specs::PlanParse::head_at))]
pub(crate) fn head_at(text: &[u8], at: usize) -> Option<Head>
    ensures { result ≡ head_at text.now at }
{
    let word = token_at(text, at);
    let open = token_at(text, word.next);
    if open.kind != OPEN {
        return None;
    }
    head_of(word.kind, text, open.next)
}

fn takes_two(w: PlanWord) -> bool
    ensures { result ≡ takes_two w }
{
    matches!(
        w,
        PlanWord::Before | PlanWord::After | PlanWord::Within { .. }
    )
}

// Where the second operand stands: behind a comma, or where the first stands if the word takes one.
#[tactic(auto, unfolding(crate::specs::PlanParse::second_at))]
pub(crate) fn second_at(w: PlanWord, text: &[u8], first: usize, at: usize) -> Option<usize>
    ensures { result ≡ second_at w text.now first at }
{
    if !takes_two(w) {
        return Some(first);
    }
    let comma = token_at(text, at);
    if comma.kind != COMMA {
        return None;
    }
    Some(comma.next)
}
