// The first line at fault: where a text differs from the print of its table, and then where a rank is not as it must be.
ghost use Rattle.std.specs.Prelude.{◌<◌, ◌≡◌};
ghost use Rattle.printer.specs.Text.{table_text};
ghost use Rattle.wellformed.specs.WellFormed.{Shaped};
ghost use Rattle.loader.specs.Difference.{difference};
ghost use Rattle.loader.specs.LoadedAs.{Leading, row_fault, rank_fault, first_fault};

use crate::comparing::compare_print;
use tables::Shape;
use wellformed::SizedTable;

// The line of the first row whose ranks are not as they must be.
fn row_fault(table: &SizedTable) -> Option<usize>
    requires { Leading table.now.cells.now table.now.shape }
    ensures { result ≡ row_fault table.now.cells.now table.now.shape }
{
    for row in 0..table.shape.rows {
        if !table.is_ranked(row) {
            return Some(2 + row);
        }
    }
    None
}

// Line 1 where the worst case is not the rank of row 0, else that line.
#[tactic(auto, unfolding(crate::specs::LoadedAs::rank_fault))]
fn rank_fault(table: &SizedTable, worst: usize) -> Option<usize>
    requires some { 0 < table.now.shape.rows }
    requires leading { Leading table.now.cells.now table.now.shape }
    ensures { result ≡ rank_fault table.now.cells.now table.now.shape worst }
{
    let rank = table.rank(0) as usize;
    if rank != worst {
        return Some(1);
    }
    row_fault(table)
}

// The line where the text differs from the print of the table, else that line.
pub(crate) fn fault_in(text: &[u8], cells: &[u16], shape: Shape, worst: usize) -> Option<usize>
    requires { Shaped cells.now shape worst }
    ensures { result
        ≡ first_fault (difference 1 text.now (table_text cells.now shape worst)) cells.now shape worst }
{
    let table = SizedTable { cells, shape };
    match compare_print(text, &table, worst) {
        Some(line) => Some(line),
        None => rank_fault(&table, worst),
    }
}
