// The cells of a plan word's expansion, from those of its operands.
ghost use Rattle.std.specs.Prelude.{◌≡◌, ◌+◌, ◌-◌, ◌*◌, ◌≤◌, ◌<◌, length};
ghost use Rattle.std.proofs.lemmas.List.Edits.{sets};
ghost use Rattle.syntax.specs.Plans.{InRange, plan_cells, plan_size};
ghost use Rattle.syntax.specs.Plans.{chain_cells, once_cells, before_cells, after_cells, within_cells, during_cells};
ghost use Rattle.syntax.specs.Writer.{Writes};

use crate::kinds::{ALWAYS, AND, EVENTUALLY, NEXT, NOT, OR, UNTIL, WEAK_NEXT};
use crate::writer::Writer;

// A plan word with its numbers.
#[derive(Clone, Copy, PartialEq, Eq, Debug)]
pub enum PlanWord {
    Once,
    Before,
    After,
    Within { steps: usize },
    During { first: usize, last: usize },
}

impl Writer<'_> {
    // An operand, and by `op` the same at the next k steps, each behind a `step`.
    fn chain(&mut self, op: u8, step: u8, k: usize, a: &[u32])
        requires { self.old.at + ((k + 1) * length a.now + 2 * k) < 65536 }
        ensures { Writes self.old self.new (chain_cells op step k a.now) }
    {
        self.copy(a);
        if k < 1 {
            return;
        }
        let right = self.at;
        self.chain(op, step, k - 1, a);
        self.over(step);
        self.join(op, right);
    }

    fn once(&mut self, a: &[u32])
        requires { self.old.at + (7 + 3 * length a.now) < 65536 }
        ensures { Writes self.old self.new (once_cells a.now) }
    {
        self.copy(a);
        let right = self.at;
        self.prefix(NOT, a);
        let inner = self.at;
        self.prefix(EVENTUALLY, a);
        self.join(AND, inner);
        self.over(EVENTUALLY);
        self.join(AND, right);
        self.over(EVENTUALLY);
        self.over(NOT);
    }

    fn before(&mut self, a: &[u32], b: &[u32])
        requires { self.old.at + (3 + length a.now + length b.now) < 65536 }
        ensures { Writes self.old self.new (before_cells a.now b.now) }
    {
        self.prefix(NOT, b);
        let right = self.at;
        self.copy(a);
        self.join(UNTIL, right);
        self.over(NOT);
    }

    fn after(&mut self, a: &[u32], b: &[u32])
        requires { self.old.at + (4 + length a.now + length b.now) < 65536 }
        ensures { Writes self.old self.new (after_cells a.now b.now) }
    {
        self.prefix(NOT, a);
        let right = self.at;
        self.prefix(EVENTUALLY, b);
        self.join(OR, right);
        self.over(ALWAYS);
    }

    fn within(&mut self, k: usize, a: &[u32], b: &[u32])
        requires { self.old.at + (3 + length a.now + (k + 1) * length b.now + 2 * k) < 65536 }
        ensures { Writes self.old self.new (within_cells k a.now b.now) }
    {
        self.prefix(NOT, a);
        let right = self.at;
        self.chain(OR, NEXT, k, b);
        self.join(OR, right);
        self.over(ALWAYS);
    }

    #[tactic(auto, unfolding(crate::specs::Plans::delay_cells))]
    fn during(&mut self, first: usize, last: usize, a: &[u32])
        requires { (1 ≤ first) × (first ≤ last) × (self.old.at + (first - 1 + (last - first + 1) * length a.now + 2 * (last - first)) < 65536) }
        ensures { Writes self.old self.new (during_cells first last a.now) }
    {
        self.chain(AND, WEAK_NEXT, last - first, a);
        for _ in 1..first {
            self.over(WEAK_NEXT);
        }
    }

    // A word that takes one operand does not look at the second.
    #[tactic(auto, unfolding(crate::specs::Plans::plan_cells, crate::specs::Plans::plan_size))]
    fn plan(&mut self, word: PlanWord, a: &[u32], b: &[u32])
        requires in_range { InRange word }
        requires b_bound { self.old.at + plan_size word (length a.now) (length b.now) < 65536 }
        ensures { Writes self.old self.new (plan_cells word a.now b.now) }
    {
        match word {
            PlanWord::Once => self.once(a),
            PlanWord::Before => self.before(a, b),
            PlanWord::After => self.after(a, b),
            PlanWord::Within { steps } => self.within(steps, a, b),
            PlanWord::During { first, last } => self.during(first, last, a),
        }
    }
}

// Writes the expansion of a word from place n on, and answers the place behind it; past the end nothing is written.
#[tactic(auto, using(crate::proofs::PlansLaws::plan_length))]
pub fn put_plan(word: PlanWord, a: &[u32], b: &[u32], n: usize, cells: &mut [u32]) -> usize
    requires in_range { InRange word }
    requires b_bound { n + plan_size word (length a.now) (length b.now) < 65536 }
    ensures value { result ≡ n + plan_size word (length a.now) (length b.now) }
    ensures cells_after { cells.new ≡ sets cells.old n (plan_cells word a.now b.now) }
{
    let mut out = Writer { cells, at: n };
    out.plan(word, a, b);
    out.at
}
