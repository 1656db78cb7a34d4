// From a problem's text to the text of its table, or of the refusal.
ghost use Rattle.std.specs.Prelude.{◌≡◌, length};
ghost use Rattle.cabinet.specs.Print.{told_printed, used_text};
ghost use Rattle.cabinet.specs.Response.{responded_by, response_after, responded_table, responded_work, RespondedAs};

use crate::printing::print;
use game::solve;
use lines::Refusal;
use printer::{TEXT_SIZE, put_refusal};
use rules::WORK_SIZE;
use tables::{TABLE_SIZE, row_size};

// Solves a problem and writes its table, or the refusal, as text. Refusal: 12, which touches nothing. Otherwise only the text's own
// bytes change, at the front; the table and the work memory are left as `solve` leaves them.
pub fn respond(
    source: &[u8],
    work: &mut [u8],
    table: &mut [u16],
    text: &mut [u8],
) -> Result<usize, Refusal>
    ensures answer { result ≡ responded_by (length work.old) (length table.old) (length text.old) source.now }
    ensures bytes { text.new ≡ response_after (length work.old) (length table.old) source.now
        text.old }
    ensures rows { table.new ≡ responded_table (length work.old) (length text.old) source.now
        table.old }
    ensures cleared { work.new ≡ responded_work (length table.old) (length text.old) work.old }
    ensures due { RespondedAs (length work.old) (length table.old) (length text.old) source.now
        (told_printed result) (used_text result text.new) }
{
    if (work.len() < WORK_SIZE) | (table.len() < TABLE_SIZE) | (text.len() < TEXT_SIZE) {
        return Err(Refusal::ShortMemory);
    }
    match solve(source, work, table) {
        Ok(solved) => {
            let end = solved.shape.rows * row_size(solved.shape.order);
            print(&table[..end], solved.shape, solved.worst_case, text)
        }
        Err(r) => Ok(put_refusal(text, r)),
    }
}
