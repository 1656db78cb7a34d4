// Cells written one behind another.
ghost use Rattle.std.specs.Prelude.{◌≡◌, ◌+◌, ◌-◌, ◌≤◌, ◌<◌, [], ◌∷◌, length};
ghost use Rattle.syntax.specs.Cells.{cell, one_sided, two_sided, prefix_cells};
ghost use Rattle.syntax.specs.Writer.{Writes};

use crate::cells::{ONE_SIDED, put, put_cell, put_two};

// Where cells go, and the place of the next. Past the end nothing is written.
#[derive(Drop)]
pub(crate) struct Writer<'a> {
    pub(crate) cells: &'a mut [u32],
    pub(crate) at: usize,
}

impl Writer<'_> {
    fn push(&mut self, cell: u32)
        requires { self.old.at + 1 < 65536 }
        ensures { Writes self.old self.new (cell ∷ []) }
    {
        put_cell(self.cells, self.at, cell);
        self.at += 1;
    }

    pub(crate) fn copy(&mut self, from: &[u32])
        requires { self.old.at + length from.now < 65536 }
        ensures { Writes self.old self.new from.now }
    {
        for &cell in from {
            self.push(cell);
        }
    }

    // An operator over the operand before it.
    pub(crate) fn over(&mut self, k: u8)
        requires { self.old.at + 1 < 65536 }
        ensures { Writes self.old self.new (cell k one_sided ∷ []) }
    {
        put(self.cells, self.at, k, ONE_SIDED);
        self.at += 1;
    }

    // An operator that joins the two operands before it, the right one in the cells from c on.
    pub(crate) fn join(&mut self, k: u8, c: usize)
        requires { (c ≤ self.old.at) × (self.old.at + 1 < 65536) }
        ensures { Writes self.old self.new (cell k (two_sided (self.old.at - c)) ∷ []) }
    {
        put_two(self.cells, self.at, k, c);
        self.at += 1;
    }

    // An operand and an operator over it.
    pub(crate) fn prefix(&mut self, k: u8, a: &[u32])
        requires { self.old.at + length a.now + 1 < 65536 }
        ensures { Writes self.old self.new (prefix_cells k a.now) }
    {
        self.copy(a);
        self.over(k);
    }
}
