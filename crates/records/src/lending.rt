// The calls that lend records of parts.
ghost use Rattle.std.specs.Prelude.{◌≡◌, length, take};
ghost use Rattle.formula.specs.Parts.{part_at};
ghost use Rattle.rules.specs.Reading.{reading_of, told_reading};
ghost use Rattle.rules.specs.Judge.{told_verdict};
ghost use Rattle.records.specs.Reading.{read_into, records_after, ListedAs};
ghost use Rattle.records.specs.Judging.{judged_in, JudgedBy};

use crate::listing::{PartList, count_taken, judge_list, list_parts};
use formula::{Op, Part, part_of};
use lines::{PART_LIMIT, Refusal, Sizes};

// Reads a problem, and writes the parts of its formula to the front of the lent records, or refuses: 12 where fewer than 96 records are
// lent, else 1 to 8. A refusal leaves the records as they were, and those behind the parts stay.
pub fn read_parts(source: &[u8], parts: &mut [Part]) -> Result<Sizes, Refusal>
    ensures { (result ≡ reading_of (read_into (length parts.old) source.now))
        × (parts.new ≡ records_after source.now parts.old)
        × ListedAs source.now parts.old (told_reading result) parts.new }
{
    let l = list_parts(source, parts.len());
    for i in 0..l.count {
        parts[i] = part_of(l.codes[i]);
    }
    l.reading
}

// Record i; past the end, the part that always is false.
pub fn record_at(parts: &[Part], i: usize) -> Part
    ensures { result ≡ part_at parts.now i }
{
    if i < parts.len() {
        parts[i]
    } else {
        Part {
            kind: Op::False,
            left: 0,
            right: 0,
        }
    }
}

// Judges a recorded trace by the first of the lent records, as many as s counts: by what `read_parts` left and answered, or by any other
// parts. Refusals: 12 where fewer are lent; 4 where s counts too many signals, 7 too many parts, 8 none, all with place 0; then 16. The
// count of operators and the order are not looked at.
pub fn judge_parts(parts: &[Part], s: Sizes, trace: &[u16]) -> Result<bool, Refusal>
    ensures { (result ≡ judged_in (length parts.now) s (take s.parts parts.now) trace.now)
        × JudgedBy (length parts.now) s (take s.parts parts.now) trace.now (told_verdict result) }
{
    let room = parts.len();
    let n = count_taken(room, s);
    let mut l = PartList {
        codes: [0; PART_LIMIT],
    };
    for i in 0..n {
        l.put(i, parts[i]);
    }
    judge_list(l, room, s, trace)
}
