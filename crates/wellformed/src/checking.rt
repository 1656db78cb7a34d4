// What a table must be: the tests of number 13.
ghost use Rattle.std.specs.Prelude.{◌≡◌, ◌*◌, ◌^◌, ◌<◌, ◌≤◌, false, length, MatchOption};
ghost use Rattle.basics.specs.Limits.{kind_limit};
ghost use Rattle.play.specs.Limits.{side_limit};
ghost use Rattle.play.specs.Cells.{row_size, cell, first_cell, choice_cell, next_cell, rank_cell};
ghost use Rattle.basics.specs.Bounded.{all};
ghost use Rattle.wellformed.specs.WellFormed.{Sized, first_limit, is_sized, is_first, rank_fits, is_next, next_count, is_pair, leads_on};
ghost use Rattle.wellformed.specs.WellFormed.{Leads, is_lower, is_ranked, is_row, is_blank_at, is_blank, is_printable_row, is_printable};

use basics::{KIND_LIMIT, Order};
use tables::{
    BELIEF_LIMIT, SIDE_LIMIT, STOP, Shape, choice_cell, first_cell, next_cell, rank_cell, row_size,
};

// Whether the row count, the cells and the number of observed signals are within their limits.
pub fn is_sized(cells: usize, shape: Shape) -> bool
    ensures { result ≡ is_sized cells shape }
{
    shape.rows > 0
        && shape.rows <= BELIEF_LIMIT
        && shape.rows * row_size(shape.order) <= cells
        && shape.observed <= KIND_LIMIT
}

// What the first cell of a row that does not stop is below.
fn first_limit(order: Order) -> u16
    ensures { result ≡ first_limit order }
{
    match order {
        Order::Set => SIDE_LIMIT as u16,
        Order::Read => 1,
    }
}

// Whether a cell may be a row's first.
fn is_first(order: Order, c: u16) -> bool
    ensures { result ≡ is_first order c }
{
    (c < first_limit(order)) | (c == STOP)
}

// A table whose cells have room for its rows, and whose observed signals are few enough.
#[derive(Clone, Copy)]
pub struct SizedTable<'a> {
    pub cells: &'a [u16],
    pub shape: Shape,
    pub ghost room: { shape.rows * row_size shape.order ≤ length cells.now },
    pub ghost seen: { shape.observed ≤ kind_limit },
}

impl<'a> SizedTable<'a> {
    // The table of these cells, where they have the sizes of the shape.
    pub fn new(cells: &'a [u16], shape: Shape) -> Option<Self>
        ensures { MatchOption result (is_sized (length cells.now) shape ≡ false) (λ t. (t.cells.now ≡ cells.now) × (t.shape ≡ shape) × Sized (length cells.now) shape) }
    {
        if is_sized(cells.len(), shape) {
            Some(SizedTable { cells, shape })
        } else {
            None
        }
    }

    // Cell i of a row.
    pub fn cell(&self, row: usize, i: usize) -> u16
        requires row_lt_rows { row < self.now.shape.rows }
        requires i_bound { i < row_size self.now.shape.order }
        ensures { result ≡ cell self.now.shape.order self.now.cells.now row i }
    {
        self.cells[row * row_size(self.shape.order) + i]
    }

    // A row's first cell, its rank, and for an observation its choice and its next row.
    pub fn first(&self, row: usize) -> u16
        requires { row < self.now.shape.rows }
        ensures { result ≡ first_cell self.now.shape.order self.now.cells.now row }
    {
        first_cell(self.cells, self.shape.order, row)
    }

    pub fn rank(&self, row: usize) -> u16
        requires { row < self.now.shape.rows }
        ensures { result ≡ rank_cell self.now.shape.order self.now.cells.now row }
    {
        rank_cell(self.cells, self.shape.order, row)
    }

    pub fn choice(&self, row: usize, s: usize) -> u16
        requires row_lt_rows { row < self.now.shape.rows }
        requires s_lt_side_limit { s < side_limit }
        ensures { result ≡ choice_cell self.now.shape.order self.now.cells.now row s }
    {
        choice_cell(self.cells, self.shape.order, row, s)
    }

    pub fn next(&self, row: usize, s: usize) -> u16
        requires row_lt_rows { row < self.now.shape.rows }
        requires s_lt_side_limit { s < side_limit }
        ensures { result ≡ next_cell self.now.shape.order self.now.cells.now row s }
    {
        next_cell(self.cells, self.shape.order, row, s)
    }

    // Whether a row's rank fits the row by itself: below the row count, 0 where the row stops and not 0 where it goes on.
    fn rank_fits(&self, row: usize) -> bool
        requires { row < self.now.shape.rows }
        ensures { result ≡ rank_fits self.now.cells.now self.now.shape row }
    {
        let rank = self.rank(row) as usize;
        if rank >= self.shape.rows {
            return false;
        }
        if self.first(row) == STOP {
            return rank == 0;
        }
        rank > 0
    }

    // Whether a cell leads to a row.
    fn is_next(&self, next: u16) -> bool
        ensures { result ≡ is_next self.now.cells.now self.now.shape next }
    {
        let row = next as usize;
        row < self.shape.rows && is_first(self.shape.order, self.first(row)) && self.rank_fits(row)
    }

    // How many observations there are.
    #[tactic(auto, using(crate::proofs::WellFormedLaws::side_le))]
    pub fn observations(&self) -> usize
        ensures value { result ≡ 2 ^ self.now.shape.observed }
        ensures few { result ≤ side_limit }
    {
        1 << self.shape.observed
    }

    // How many observations a row has cells for.
    fn next_count(&self, row: usize) -> usize
        requires { row < self.now.shape.rows }
        ensures value { result ≡ next_count self.now.cells.now self.now.shape row }
        ensures few { result ≤ side_limit }
    {
        if self.first(row) == STOP {
            0
        } else {
            self.observations()
        }
    }

    // Whether the cells of an observation are a choice, and lead to a row.
    fn is_pair(&self, row: usize, s: usize) -> bool
        requires row_lt_rows { row < self.now.shape.rows }
        requires s_lt_side_limit { s < side_limit }
        ensures { result ≡ is_pair self.now.cells.now self.now.shape row s }
    {
        self.choice(row, s) < SIDE_LIMIT as u16 && self.is_next(self.next(row, s))
    }

    // Whether a row's first cell is as it must be, and the cells of each of its observations are.
    #[tactic(auto, using(basics::proofs::BoundedLaws::all_more), unfolding(crate::specs::WellFormed::leads_on))]
    fn leads_on(&self, row: usize) -> bool
        requires { row < self.now.shape.rows }
        ensures { result ≡ leads_on self.now.cells.now self.now.shape row }
    {
        if !is_first(self.shape.order, self.first(row)) {
            return false;
        }
        for s in 0..self.next_count(row) {
            if !self.is_pair(row, s) {
                return false;
            }
        }
        true
    }

    // Whether the next row for observation s ranks lower.
    fn is_lower(&self, row: usize, s: usize) -> bool
        requires row_lt_rows { row < self.now.shape.rows }
        requires s_lt_side_limit { s < side_limit }
        requires s_bound { next_cell self.now.shape.order self.now.cells.now row s < self.now.shape.rows }
        ensures { result ≡ is_lower self.now.cells.now self.now.shape row s }
    {
        self.rank(self.next(row, s) as usize) < self.rank(row)
    }

    // Whether a row's rank fits the row, and each next row ranks lower.
    #[tactic(auto, using(basics::proofs::BoundedLaws::all_more), unfolding(crate::specs::WellFormed::is_ranked))]
    pub fn is_ranked(&self, row: usize) -> bool
        requires row_lt_rows { row < self.now.shape.rows }
        requires leads { Leads self.now.cells.now self.now.shape row }
        ensures { result ≡ is_ranked self.now.cells.now self.now.shape row }
    {
        if !self.rank_fits(row) {
            return false;
        }
        for s in 0..self.next_count(row) {
            if !self.is_lower(row, s) {
                return false;
            }
        }
        true
    }

    // Whether the cabinet may stand on a row.
    #[tactic(auto, using(crate::proofs::TestsSay::leads_asks), unfolding(crate::specs::WellFormed::is_row))]
    pub fn is_row(&self, row: usize) -> bool
        requires { row < self.now.shape.rows }
        ensures { result ≡ is_row self.now.cells.now self.now.shape row }
    {
        self.leads_on(row) && self.is_ranked(row)
    }

    // Whether an observation's own cells are 0.
    fn is_blank_at(&self, row: usize, s: usize) -> bool
        requires row_lt_rows { row < self.now.shape.rows }
        requires s_lt_side_limit { s < side_limit }
        ensures { result ≡ is_blank_at self.now.shape.order self.now.cells.now row s }
    {
        match self.shape.order {
            Order::Set => self.next(row, s) == 0,
            Order::Read => self.choice(row, s) == 0 && self.next(row, s) == 0,
        }
    }

    // Whether the unused cells of a row are 0.
    #[tactic(auto, using(crate::proofs::WellFormedLaws::blank_more))]
    fn is_blank(&self, row: usize) -> bool
        requires { row < self.now.shape.rows }
        ensures { result ≡ is_blank self.now.cells.now self.now.shape row }
    {
        let n = self.next_count(row);
        for s in n..SIDE_LIMIT {
            if !self.is_blank_at(row, s) {
                return false;
            }
        }
        true
    }

    // Whether a row can be printed.
    #[tactic(auto, unfolding(crate::specs::WellFormed::is_printable_row))]
    fn is_printable_row(&self, row: usize) -> bool
        requires { row < self.now.shape.rows }
        ensures { result ≡ is_printable_row self.now.cells.now self.now.shape row }
    {
        self.is_row(row) && self.is_blank(row)
    }

    // Whether every row can be.
    #[tactic(auto, using(basics::proofs::BoundedLaws::all_more))]
    fn are_rows(&self) -> bool
        ensures { result ≡ all self.now.shape.rows (is_printable_row self.now.cells.now self.now.shape) }
    {
        for row in 0..self.shape.rows {
            if !self.is_printable_row(row) {
                return false;
            }
        }
        true
    }

    // Whether the table can be printed; not where its row count breaks the limits.
    pub fn is_printable(&self, worst: usize) -> bool
        ensures { result ≡ is_printable self.now.cells.now self.now.shape worst }
    {
        is_printable(self.cells, self.shape, worst)
    }
}

// Whether the cabinet may stand on a row of these cells.
pub fn is_row(table: &[u16], shape: Shape, row: usize) -> bool
    requires order_in_bounds { shape.rows * row_size shape.order ≤ length table.now }
    requires row_lt_rows { row < shape.rows }
    requires observed_le_kind_limit { shape.observed ≤ kind_limit }
    ensures { result ≡ is_row table.now shape row }
{
    let table = SizedTable {
        cells: table,
        shape,
    };
    table.is_row(row)
}

// Whether the rank of a row of these cells fits the row, and each next row ranks lower.
pub fn is_ranked(table: &[u16], shape: Shape, row: usize) -> bool
    requires order_in_bounds { shape.rows * row_size shape.order ≤ length table.now }
    requires row_lt_rows { row < shape.rows }
    requires observed_le_kind_limit { shape.observed ≤ kind_limit }
    requires leads { Leads table.now shape row }
    ensures { result ≡ is_ranked table.now shape row }
{
    let table = SizedTable {
        cells: table,
        shape,
    };
    table.is_ranked(row)
}

// Whether a table can be printed: it has the sizes of its shape, the worst case is the rank of row 0, and every row can be.
#[tactic(auto, unfolding(crate::specs::WellFormed::is_printable))]
pub fn is_printable(table: &[u16], shape: Shape, worst: usize) -> bool
    ensures { result ≡ is_printable table.now shape worst }
{
    if !is_sized(table.len(), shape) {
        return false;
    }
    let table = SizedTable {
        cells: table,
        shape,
    };
    table.rank(0) as usize == worst && table.are_rows()
}
