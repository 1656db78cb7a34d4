// What a call may say no to, with its number and its place (REFERENCE.md, Refusals).
ghost use Rattle.std.specs.Prelude.{◌≡◌};
ghost use Rattle.lines.specs.Refusal.{number_of, place_of};

#[derive(Clone, Copy, Debug, PartialEq, Eq)]
pub enum Refusal {
    LongSource,
    BadLine(usize),
    NameTwice(usize),
    TooManySignals(usize),
    BadFormula(usize),
    UnknownName(usize),
    TooManyParts(usize),
    NoFormula,
    TooManyStates,
    TooManyBeliefs,
    Unrealizable,
    ShortMemory,
    BadTable,
    Stopped,
    BadObservation,
    BadTrace(usize),
    BadText(usize),
}

// The number of a refusal.
pub fn number(r: Refusal) -> usize
    ensures { result ≡ number_of r }
{
    match r {
        Refusal::LongSource => 1,
        Refusal::BadLine(_) => 2,
        Refusal::NameTwice(_) => 3,
        Refusal::TooManySignals(_) => 4,
        Refusal::BadFormula(_) => 5,
        Refusal::UnknownName(_) => 6,
        Refusal::TooManyParts(_) => 7,
        Refusal::NoFormula => 8,
        Refusal::TooManyStates => 9,
        Refusal::TooManyBeliefs => 10,
        Refusal::Unrealizable => 11,
        Refusal::ShortMemory => 12,
        Refusal::BadTable => 13,
        Refusal::Stopped => 14,
        Refusal::BadObservation => 15,
        Refusal::BadTrace(_) => 16,
        Refusal::BadText(_) => 17,
    }
}

// The line or the step of a refusal, counted from 1, or 0.
pub fn place(r: Refusal) -> usize
    ensures { result ≡ place_of r }
{
    match r {
        Refusal::BadLine(n)
        | Refusal::NameTwice(n)
        | Refusal::TooManySignals(n)
        | Refusal::BadFormula(n)
        | Refusal::UnknownName(n)
        | Refusal::TooManyParts(n)
        | Refusal::BadTrace(n)
        | Refusal::BadText(n) => n,
        _ => 0,
    }
}
