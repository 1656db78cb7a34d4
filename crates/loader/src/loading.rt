// The loading call.
ghost use Rattle.std.specs.Prelude.{◌≡◌, ◌≤◌, length};
ghost use Rattle.basics.specs.Lists.{written};
ghost use Rattle.loader.specs.LoadedAs.{loaded_at, count_at, loaded_by, table_after, told_loaded, used_rows, LoadedAs};

use crate::candidate::{shape_in, worst_in};
use crate::faults::fault_in;
use lines::Refusal;
use tables::{Shape, TABLE_SIZE, Table, row_size};

// Copies cells to the front of a table.
fn copy(cells: &[u16], table: &mut [u16])
    requires { length cells.now ≤ length table.old }
    ensures { table.new ≡ written cells.now table.old }
{
    table[..cells.len()].copy_from_slice(cells);
}

// The answer, by the line of the first fault.
fn answer_at(fault: Option<usize>, shape: Shape, worst: usize) -> Result<Table, Refusal>
    ensures { result ≡ loaded_at fault shape worst }
{
    match fault {
        Some(line) => Err(Refusal::BadText(line)),
        None => Ok(Table {
            shape,
            worst_case: worst,
        }),
    }
}

// How many of n cells are written: all, or none where a line is at fault.
fn count_at(fault: Option<usize>, n: usize) -> usize
    ensures { result ≡ count_at fault n }
{
    if fault.is_some() { 0 } else { n }
}

// Loads the table whose text it is. Refusals: 12, then 17. Only the used rows change; a refusal leaves the table as it was.
pub fn load(text: &[u8], table: &mut [u16]) -> Result<Table, Refusal>
    ensures answer { result ≡ loaded_by (length table.old) text.now }
    ensures rows { table.new ≡ table_after text.now table.old }
    ensures due { LoadedAs (length table.old) text.now (told_loaded result) (used_rows result table.new) }
{
    if table.len() < TABLE_SIZE {
        return Err(Refusal::ShortMemory);
    }
    let told = shape_in(text);
    let shape = told.shape;
    let worst = worst_in(text, shape.rows);
    let mut cells = [0u16; TABLE_SIZE];
    told.put_rows(text, &mut cells);
    let end = shape.rows * row_size(shape.order);
    let fault = fault_in(text, &cells[..end], shape, worst);
    let used = count_at(fault, end);
    copy(&cells[..used], table);
    answer_at(fault, shape, worst)
}
