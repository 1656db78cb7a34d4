// Parts by value, as an array of numbers: what the calls that lend records are made of.
ghost use Rattle.std.specs.Prelude.{◌≡◌, ◌<◌, get_or, set, take};
ghost use Rattle.basics.specs.Limits.{index_limit};
ghost use Rattle.formula.specs.Limits.{part_limit};
ghost use Rattle.formula.specs.Parts.{no_part};
ghost use Rattle.formula.specs.Codes.{code_of, part_of, parts_in};
ghost use Rattle.rules.specs.Trace.{counts_of};
ghost use Rattle.records.specs.Reading.{read_into, count_of, listing_of};
ghost use Rattle.records.specs.Judging.{few_counted, judged_in, count_taken};

use basics::{KIND_LIMIT, SIGNAL_LIMIT};
use formula::{Part, code_of};
use lines::{PART_LIMIT, Refusal, Sizes};
use rules::{judge_trace, read};

// What reading gave, and the numbers of the parts: so many, with zeros behind them.
#[derive(Clone, Copy)]
pub struct Listing {
    pub count: usize,
    pub codes: [u32; PART_LIMIT],
    pub reading: Result<Sizes, Refusal>,
}

// How many parts were read.
fn count_of(r: Result<Sizes, Refusal>) -> usize
    ensures { result ≡ count_of r }
{
    match r {
        Ok(s) => s.parts,
        Err(_) => 0,
    }
}

// Reads a problem where so many records are lent.
pub fn list_parts(source: &[u8], room: usize) -> Listing
    ensures { result ≡ listing_of (read_into room source.now) }
{
    let mut codes = [0u32; PART_LIMIT];
    let reading = if PART_LIMIT <= room {
        read(source, &mut codes)
    } else {
        Err(Refusal::ShortMemory)
    };
    Listing {
        count: count_of(reading),
        codes,
        reading,
    }
}

// Parts to judge by, as numbers.
#[derive(Clone, Copy)]
pub struct PartList {
    pub codes: [u32; PART_LIMIT],
}

impl PartList {
    // Stores part i, whose numbers are bytes: the clause `bytes` tells that to the proofs.
    pub(crate) fn put(&mut self, i: usize, p: Part)
        requires { i < part_limit }
        ensures value { self.new ≡ record { codes = set self.old.codes i (code_of p) } }
        ensures bytes { (p.left < index_limit) × (p.right < index_limit) }
    {
        self.codes[i] = code_of(p);
    }
}

// How many of the lent records are listed.
pub(crate) fn count_taken(room: usize, s: Sizes) -> usize
    ensures { result ≡ count_taken room s }
{
    if room < s.parts || PART_LIMIT < s.parts {
        0
    } else {
        s.parts
    }
}

// Whether there are few enough signals of each kind, and in all.
#[tactic(auto, unfolding(crate::specs::Judging::few_counted))]
fn few_signals(s: Sizes) -> bool
    ensures { result ≡ few_counted (counts_of s) }
{
    s.outputs <= KIND_LIMIT
        && s.observed <= KIND_LIMIT
        && s.hidden <= KIND_LIMIT
        && s.outputs + s.observed + s.hidden <= SIGNAL_LIMIT
}

// The verdict on a trace by the listed parts that s counts, where so many records are lent.
#[tactic(auto, unfolding(crate::specs::Judging::judged_in))]
pub fn judge_list(l: PartList, room: usize, s: Sizes, trace: &[u16]) -> Result<bool, Refusal>
    ensures { result ≡ judged_in room s (parts_in (take s.parts l.codes)) trace.now }
{
    let n = s.parts;
    if room < n {
        return Err(Refusal::ShortMemory);
    }
    if !few_signals(s) {
        return Err(Refusal::TooManySignals(0));
    }
    if PART_LIMIT < n {
        return Err(Refusal::TooManyParts(0));
    }
    if n == 0 {
        return Err(Refusal::NoFormula);
    }
    judge_trace(&l.codes[..n], s, trace)
}
