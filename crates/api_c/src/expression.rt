// An outline typed as an expression, for callers in C and Rust.
ghost use Rattle.std.specs.Prelude.{◌≡◌, cond, eqb, length};
ghost use Rattle.sheet_lines.specs.Answer.{reading_answer, answered};
ghost use Rattle.sheet_reader.specs.Readers.{stored};
ghost use Rattle.sheet_expression.specs.Expression.{expression_into};
ghost use Rattle.report.specs.Output.{length_put, put as output_put};
ghost use Rattle.report.specs.Expression.{expression_printed, expression_room};
ghost use Rattle.api_c.specs.Reading.{read_code};

use usage::SheetRefusal;

// What is more where a refusal has a line.
const ON_A_LINE: usize = 65536;

fn read_code(r: Result<usize, SheetRefusal>) -> usize
    ensures { result ≡ read_code (reading_answer r) }
{
    match r {
        Ok(n) => n,
        Err(r) => {
            let told = 512 + u8::from(r.reason) as usize;
            if r.line == 0 {
                return told;
            }
            ON_A_LINE + told
        }
    }
}

// The nodes of an expression into a table, three bytes to a node: how many there are, 1 to 64; or 512 and the number of the refusal, and
// 65,536 more where its line is 1 and not 0. The table needs room for 64 nodes (else 40); what comes after the nodes is left as it was, and
// all of it by a refusal.
pub fn wiforekun_read_expression(text: &[u8], table: &mut [u8]) -> usize
    ensures value { result ≡ read_code (answered (expression_into (length table.old) text.now)) }
    ensures table_after { table.new ≡ stored (expression_into (length table.old) text.now) table.old }
{
    read_code(sheet_expression::read_expression(text, table))
}

// What the program that reads an expression prints, from the bytes of `outline.expr`: its length, and 0 where `out` lacks the room.
pub fn wiforekun_report_expression(text: &[u8], out: &mut [u8]) -> usize
    ensures value { result ≡ length_put expression_room out.old (expression_printed text.now) }
    ensures out_after { out.new ≡ output_put expression_room out.old (expression_printed text.now) }
{
    report::report_expression(text, out)
}
