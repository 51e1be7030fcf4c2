// What the third program prints of two sheets, put into a lent buffer: a trace sheet.
ghost use Rattle.std.specs.Prelude.{◌≡◌, ◌+◌, ◌≤◌, ◌*◌, length};
ghost use Rattle.std.proofs.lemmas.List.Edits.{sets};
ghost use Rattle.usage.specs.Limits.{step_fields};
ghost use Rattle.usage.specs.Tables.{from, step_at_lem};
ghost use Rattle.sheet_lines.specs.Sheet.{sheet};
ghost use Rattle.sheet_lines.specs.Sheets.{outline_sheet};
ghost use Rattle.sheet_reader.specs.Readers.{ruled_result};
ghost use Rattle.checker_counterexample.specs.Explained.{Explained, steps_written_lem};
ghost use Rattle.report.specs.Counterexample.{no_steps, RightTrace, step_rows, shown_sheet, nodes_sheet, counterexample_room, Prints};

use checker_counterexample::Explanation;
use checker_trace::MOST_NUMBERS;
use usage::{NODE_FIELDS, NODE_TABLE, Reason};

// The counterexample of an outline that is checked with the edges, or the refusal of the outline: the length of the text.
pub(crate) fn of_text(edges: &[u8], local: bool, text: &[u8], out: &mut [u8]) -> usize
    requires { counterexample_room ≤ length out.old }
    ensures { Prints (RightTrace local edges.now (ruled_result (sheet outline_sheet text.now)))
        (nodes_sheet (ruled_result (sheet outline_sheet text.now))) out.old result out.new }
{
    let mut nodes = [0u8; NODE_TABLE];
    match sheet_reader::read_outline(text, &mut nodes) {
        Ok(n) => of_nodes(edges, local, &nodes[0..n * NODE_FIELDS], out),
        Err(r) => crate::refused(out, 5, r),
    }
}

// The trace sheet of what the check explains.
fn of_nodes(edges: &[u8], local: bool, nodes: &[u8], out: &mut [u8]) -> usize
    requires { counterexample_room ≤ length out.old }
    ensures { Prints (Explained local edges.now nodes.now no_steps) shown_sheet
        out.old result out.new }
{
    let mut trace = [0u32; MOST_NUMBERS];
    let e = checker_counterexample::check_with_counterexample(edges, local, nodes, &mut trace);
    let at = report_lines::trace_names(out);
    rows(&trace, steps_written(e), out, at)
}

// How many steps were written.
fn steps_written(e: Result<Explanation, Reason>) -> usize
    ensures { result ≡ steps_written_lem e }
{
    match e {
        Ok(Explanation::Accepted) => 0,
        Ok(Explanation::Shown { policy: _, steps }) => steps as usize,
        Ok(Explanation::Longer { policy: _ }) => 0,
        Err(_) => 0,
    }
}

// The lines of the first n steps of a table, from `at` on: the place after them.
fn rows(trace: &[u32], n: usize, out: &mut [u8], at: usize) -> usize
    requires n_in_bounds { step_fields * n ≤ length trace.now }
    requires rows_in_bounds { at + length (step_rows (from (step_at_lem trace.now) 0 n)) ≤ length out.old }
    ensures value { result ≡ at + length (step_rows (from (step_at_lem trace.now) 0 n)) }
    ensures out_after { out.new ≡ sets out.old at (step_rows (from (step_at_lem trace.now) 0 n)) }
{
    let mut next = at;
    for i in 0..n {
        let s = crate::trace::step_at(trace, i);
        next = report_lines::row(out, next, s.kind as usize, s.a as usize, s.b as usize);
    }
    next
}
