// The printing call.
ghost use Rattle.std.specs.Prelude.{◌≡◌, length};
ghost use Rattle.cabinet.specs.Print.{printed_by, text_after, told_printed, used_text, PrintedAs};

use lines::Refusal;
use printer::{TEXT_SIZE, put_table};
use tables::Shape;
use wellformed::SizedTable;

// Prints a table of a shape, with its worst case, and answers the length of the text. Refusals: 12, then 13. Only the text's own bytes
// change, at the front.
#[tactic(auto, using(crate::proofs::PrintLaws::print_laws), unfolding(crate::specs::Print::printed_by, crate::specs::Print::bytes_by))]
pub fn print(table: &[u16], shape: Shape, worst: usize, text: &mut [u8]) -> Result<usize, Refusal>
    ensures answer { result ≡ printed_by table.now shape worst (length text.old) }
    ensures bytes { text.new ≡ text_after table.now shape worst text.old }
    ensures due { PrintedAs table.now shape worst (length text.old) (told_printed result) (used_text result text.new) }
{
    if text.len() < TEXT_SIZE {
        return Err(Refusal::ShortMemory);
    }
    match SizedTable::new(table, shape) {
        Some(table) if table.is_printable(worst) => Ok(put_table(text, &table, worst)),
        _ => Err(Refusal::BadTable),
    }
}
