// A policy sheet written again (02, L12): with its own names line, single spaces, no leading zeros, the edges in rising order and none
// twice.
#![tactic(auto)]

ghost use Rattle.std.specs.Prelude.{◌≡◌, length};
ghost use Rattle.sheet_writer.specs.Writer.{written_into, writing_answer, rewriting_answer, rewritten_in};

use sheet_lines::LONGEST_SHEET;
use usage::{EDGE_TABLE, MOST_EDGES, Reason, SheetRefusal};

mod keys;
mod text;

// The sheet of policies in `text` is written to `out`, which must have room for the longest sheet (else 40): how many bytes were written. A
// sheet that is refused has its refusal, and nothing is written.
pub fn write_policies(text: &[u8], out: &mut [u8]) -> Result<usize, SheetRefusal>
    ensures result_value { writing_answer result ≡ rewriting_answer (written_into (length out.old) text.now) }
    ensures out_after { out.new ≡ rewritten_in (written_into (length out.old) text.now) out.old }
{
    if out.len() < LONGEST_SHEET {
        return Err(SheetRefusal {
            line: 0,
            reason: Reason::Room,
        });
    }
    let mut table = [0u8; EDGE_TABLE];
    let sheet = sheet_reader::read_policies(text, &mut table)?;
    let mut sorted = [0u32; MOST_EDGES];
    let n = keys::sort(&table, sheet.edges, &mut sorted);
    Ok(text::write(&sorted[..n], sheet.local, out))
}
