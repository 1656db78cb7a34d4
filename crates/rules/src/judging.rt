// Judging a recorded trace.
ghost use Rattle.std.specs.Prelude.{◌≡◌, ◌≤◌, ◌<◌, length};
ghost use Rattle.formula.specs.Codes.{parts_in};
ghost use Rattle.formula.specs.Parts.{last_of};
ghost use Rattle.formula.specs.Values.{value_on};
ghost use Rattle.basics.specs.Limits.{kind_limit, index_limit};
ghost use Rattle.rules.specs.Trace.{counts_of, bad_step, verdict_on};
ghost use Rattle.formula.specs.Letter.{is_letter};
ghost use Rattle.rules.specs.Problem.{read_problem};
ghost use Rattle.rules.specs.Judge.{judged_by, judged, work_after, told_verdict, JudgedAs};

use crate::reader::read;
use basics::{HIDDEN, INDEX_LIMIT, KIND_LIMIT, OBSERVED};
use formula::holds_on;
use lines::{PART_LIMIT, Refusal, Sizes};

// The bits of one kind of signals.
const KIND_MASK: u16 = (1 << KIND_LIMIT) - 1;

// Whether a letter has no bit without a signal.
fn is_letter(s: Sizes, letter: u16) -> bool
    requires { (s.outputs ≤ kind_limit) × (s.observed ≤ kind_limit) × (s.hidden ≤ kind_limit) }
    ensures { result ≡ is_letter (counts_of s) letter }
{
    (letter & KIND_MASK < 1 << s.outputs)
        & ((letter >> OBSERVED & KIND_MASK < 1 << s.observed) & (letter >> HIDDEN < 1 << s.hidden))
}

// The first step, counted from 1, whose letter has such a bit.
fn bad_step(s: Sizes, trace: &[u16]) -> Option<usize>
    requires { (s.outputs ≤ kind_limit) × (s.observed ≤ kind_limit) × (s.hidden ≤ kind_limit) }
    ensures { result ≡ bad_step (counts_of s) 1 trace.now }
{
    for i in 0..trace.len() {
        if !is_letter(s, trace[i]) {
            return Some(i + 1);
        }
    }
    None
}

// The most steps of a trace, and the least bytes of work memory.
const TRACE_LIMIT: usize = 1000;

pub const WORK_SIZE: usize = 65536;

// The verdict on a trace by parts. It serves the crate above too, which shows what it asks.
pub fn judge_trace(parts: &[u32], s: Sizes, trace: &[u16]) -> Result<bool, Refusal>
    requires parts_nonzero { (0 < length parts.now) × (length parts.now ≤ index_limit) }
    requires outputs_le_kind_limit { (s.outputs ≤ kind_limit) × (s.observed ≤ kind_limit) × (s.hidden ≤ kind_limit) }
    ensures { result ≡ verdict_on (counts_of s) trace.now
        (value_on (parts_in parts.now) trace.now (last_of (parts_in parts.now))) }
{
    let steps = trace.len();
    if (steps == 0) | (steps > TRACE_LIMIT) {
        return Err(Refusal::BadTrace(0));
    }
    if let Some(step) = bad_step(s, trace) {
        return Err(Refusal::BadTrace(step));
    }
    let mut entries = [0u8; INDEX_LIMIT];
    Ok(holds_on(parts, trace, &mut entries))
}

// The verdict on a trace by a problem's text.
fn judge_source(source: &[u8], trace: &[u16]) -> Result<bool, Refusal>
    ensures { result ≡ judged_by (read_problem source.now) trace.now }
{
    let mut parts = [0u32; PART_LIMIT];
    let s = read(source, &mut parts)?;
    judge_trace(&parts[..s.parts], s, trace)
}

// Judges a recorded trace by a problem's text: true exactly where the trace satisfies the formula that the written grammar
// derives. Refusals: 12, then 1 to 8, then 16. Work memory is all zero afterwards, but untouched where it is too short.
pub fn judge(source: &[u8], trace: &[u16], work: &mut [u8]) -> Result<bool, Refusal>
    ensures answer { result ≡ judged (length work.old) source.now trace.now }
    ensures cleared { work.new ≡ work_after work.old }
    ensures due { JudgedAs (length work.old) source.now trace.now (told_verdict result) }
{
    if work.len() < WORK_SIZE {
        return Err(Refusal::ShortMemory);
    }
    let r = judge_source(source, trace);
    work.fill(0);
    r
}
