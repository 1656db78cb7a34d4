// A line that declares a signal.
ghost use Rattle.std.specs.Prelude.{◌≡◌, ◌+◌, ◌≤◌, set, OnOk, OnErr};
ghost use Rattle.grammar.specs.Names.{names_in};
ghost use Rattle.basics.specs.Limits.{kind_limit};
ghost use Rattle.lines.specs.Lines.{is_name};
ghost use Rattle.lines.specs.Effect.{first_bit, declare_effect};
ghost use Rattle.lines.specs.Memory.{signals_in, count_in, more_signals, reading_after, names_after};

use crate::problem::{Kind, Sizes};
use crate::refusal::Refusal;
use basics::{HIDDEN, KIND_LIMIT, OBSERVED, SIGNAL_LIMIT};
use grammar::{Names, lookup};
use syntax::{NAME, token_at};

// The most bytes of a name.
const NAME_LIMIT: usize = 12;

fn is_name(name: &[u8]) -> bool
    ensures { result ≡ is_name name.now }
{
    let t = token_at(name, 0);
    (t.kind == NAME) & (t.from == 0) & (t.next == name.len()) & (name.len() <= NAME_LIMIT)
}

fn count_in(kind: Kind, s: Sizes) -> usize
    ensures { result ≡ count_in kind s }
{
    match kind {
        Kind::Output => s.outputs,
        Kind::Observed => s.observed,
        Kind::Hidden => s.hidden,
    }
}

fn first_bit(kind: Kind) -> usize
    ensures { result ≡ first_bit kind }
{
    match kind {
        Kind::Output => 0,
        Kind::Observed => OBSERVED,
        Kind::Hidden => HIDDEN,
    }
}

// The counts with one more signal of a kind.
fn more_signals(kind: Kind, s: Sizes) -> Sizes
    requires { count_in kind s ≤ kind_limit }
    ensures { result ≡ more_signals kind s }
{
    match kind {
        Kind::Output => Sizes {
            outputs: s.outputs + 1,
            ..s
        },
        Kind::Observed => Sizes {
            observed: s.observed + 1,
            ..s
        },
        Kind::Hidden => Sizes {
            hidden: s.hidden + 1,
            ..s
        },
    }
}

// Line `line` declares the signal called `name`. On a refusal the slices that are lent stay as they were.
pub fn declare<'a>(
    name: &'a [u8],
    line: usize,
    kind: Kind,
    s: Sizes,
    names: &mut Names<'a>,
) -> Result<Sizes, Refusal>
    requires { (s.outputs ≤ kind_limit) × (s.observed ≤ kind_limit) × (s.hidden ≤ kind_limit) }
    ensures value { result ≡ reading_after (declare_effect line kind name.now (signals_in s (names_in names.old))) s }
    ensures names_after { names_in names.new ≡ names_after (declare_effect line kind name.now (signals_in s (names_in names.old))) s
        (names_in names.old) }
    ensures stored { OnOk result (names.new ≡ set names.old (first_bit kind + count_in kind s) name.entry) }
    ensures kept { OnErr result (names.new ≡ names.old) }
{
    if !is_name(name) {
        return Err(Refusal::BadLine(line));
    }
    if lookup(names, name).is_some() {
        return Err(Refusal::NameTwice(line));
    }
    let n = count_in(kind, s);
    if n == KIND_LIMIT {
        return Err(Refusal::TooManySignals(line));
    }
    if s.outputs + s.observed + s.hidden == SIGNAL_LIMIT {
        return Err(Refusal::TooManySignals(line));
    }
    names[first_bit(kind) + n] = name;
    Ok(more_signals(kind, s))
}
