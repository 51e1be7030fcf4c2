// The functions of `api_c::expression` under their C names.
ghost use Rattle.std.specs.Prelude.{◌≡◌, length};
ghost use Rattle.sheet_lines.specs.Answer.{answered};
ghost use Rattle.sheet_reader.specs.Readers.{stored};
ghost use Rattle.sheet_expression.specs.Expression.{expression_into};
ghost use Rattle.report.specs.Output.{length_put, put as output_put};
ghost use Rattle.report.specs.Expression.{expression_printed, expression_room};
ghost use Rattle.api_c.specs.Reading.{read_code};

// As `api_c::expression::wiforekun_read_expression`.
#[unsafe(no_mangle)]
pub extern "C" fn wiforekun_read_expression(text: &[u8], table: &mut [u8]) -> usize
    ensures value { result ≡ read_code (answered (expression_into (length table.old) text.now)) }
    ensures table_after { table.new ≡ stored (expression_into (length table.old) text.now) table.old }
{
    api_c::expression::wiforekun_read_expression(text, table)
}

// As `api_c::expression::wiforekun_report_expression`.
#[unsafe(no_mangle)]
pub extern "C" fn wiforekun_report_expression(text: &[u8], out: &mut [u8]) -> usize
    ensures value { result ≡ length_put expression_room out.old (expression_printed text.now) }
    ensures out_after { out.new ≡ output_put expression_room out.old (expression_printed text.now) }
{
    api_c::expression::wiforekun_report_expression(text, out)
}
