// Where a text differs from the print of a table.
ghost use Rattle.std.specs.Prelude.{◌≡◌, ◌≤◌, length};
ghost use Rattle.printer.specs.Limits.{text_size};
ghost use Rattle.printer.specs.Text.{table_text};
ghost use Rattle.loader.specs.Difference.{difference};

use basics::LINE_END;
use printer::{TEXT_SIZE, put_table};
use wellformed::SizedTable;

// The line, from 1, of the first difference of two texts.
fn first_difference(a: &[u8], b: &[u8]) -> Option<usize>
    ensures { result ≡ difference 1 a.now b.now }
{
    let mut line = 1;
    for (&x, &y) in a.iter().zip(b) {
        if x != y {
            return Some(line);
        }
        if x == LINE_END {
            line += 1;
        }
    }
    if a.len() == b.len() {
        return None;
    }
    Some(line)
}

// The same of a text and the print of a table.
pub(crate) fn compare_print(text: &[u8], table: &SizedTable, worst: usize) -> Option<usize>
    requires { length (table_text table.now.cells.now table.now.shape worst) ≤ text_size }
    ensures { result ≡ difference 1 text.now (table_text table.now.cells.now table.now.shape worst) }
{
    let mut print = [0u8; TEXT_SIZE];
    let n = put_table(&mut print, table, worst);
    first_difference(text, &print[..n])
}
