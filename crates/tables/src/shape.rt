// What a reader of a table's cells must know of it.
use basics::Order;

// The number of rows, the number of observed signals, and the order of a step.
#[derive(Clone, Copy)]
pub struct Shape {
    pub rows: usize,
    pub observed: usize,
    pub order: Order,
}

// A table whose cells are in lent memory: its shape, and the most steps that any run takes.
#[derive(Clone, Copy)]
pub struct Table {
    pub shape: Shape,
    pub worst_case: usize,
}
