// What the program that prints a summary prints of two sheets, put into a lent buffer: a line for each mark.
ghost use Rattle.std.specs.Prelude.{◌≡◌, ◌+◌, ◌<◌, ◌≤◌, length};
ghost use Rattle.std.proofs.lemmas.List.Edits.{sets};
ghost use Rattle.usage.specs.Tables.{edges_of, nodes_of, EdgeTable, NodeTable};
ghost use Rattle.sheet_lines.specs.Sheet.{sheet};
ghost use Rattle.sheet_lines.specs.Sheets.{outline_sheet};
ghost use Rattle.sheet_reader.specs.Readers.{ruled_result};
ghost use Rattle.checker.specs.Summary.{Exact, mark_bits};
ghost use Rattle.report.specs.Summary.{RightMarks, bit_text, policy_text, marks_text, summary_text, nodes_summary};
ghost use Rattle.report.specs.Summary.{summary_room, PrintsMarks};

use usage::{NODE_FIELDS, NODE_TABLE, POLICIES};

// The bits of a policy's number: its actions, and its opening.
pub(crate) const MARK_BITS: u32 = 33;

// The summary of an outline under the edges, or the refusal of the outline: the length of the text.
pub(crate) fn of_text(edges: &[u8], local: bool, text: &[u8], out: &mut [u8]) -> usize
    requires edge_table { EdgeTable edges.now }
    requires summary_room_in_bounds { summary_room ≤ length out.old }
    ensures { PrintsMarks (RightMarks local edges.now (ruled_result (sheet outline_sheet text.now)))
        (nodes_summary (ruled_result (sheet outline_sheet text.now))) out.old result out.new }
{
    let mut nodes = [0u8; NODE_TABLE];
    match sheet_reader::read_outline(text, &mut nodes) {
        Ok(n) => of_nodes(edges, local, &nodes[0..n * NODE_FIELDS], out),
        Err(r) => crate::refused(out, 5, r),
    }
}

// The text of the exact summary.
fn of_nodes(edges: &[u8], local: bool, nodes: &[u8], out: &mut [u8]) -> usize
    requires edge_table { EdgeTable edges.now }
    requires node_table { NodeTable nodes.now }
    requires summary_room_in_bounds { summary_room ≤ length out.old }
    ensures { PrintsMarks (Exact local (edges_of edges.now) (nodes_of nodes.now)) summary_text
        out.old result out.new }
{
    let mut marks = [0u64; POLICIES];
    let _ = checker::summary::summary(edges, local, nodes, &mut marks);
    let at = report_lines::mark_names(out);
    all_rows(&marks, out, at)
}

// The lines of all marks, from `at` on: the place after them.
fn all_rows(marks: &[u64; POLICIES], out: &mut [u8], at: usize) -> usize
    requires { at + length (marks_text marks.now) ≤ length out.old }
    ensures value { result ≡ at + length (marks_text marks.now) }
    ensures out_after { out.new ≡ sets out.old at (marks_text marks.now) }
{
    let mut next = at;
    for p in 0..POLICIES {
        next = policy_rows(marks[p], p, out, next);
    }
    next
}

// Those of policy p's number n.
fn policy_rows(n: u64, p: usize, out: &mut [u8], at: usize) -> usize
    requires { at + length (policy_text n p) ≤ length out.old }
    ensures value { result ≡ at + length (policy_text n p) }
    ensures out_after { out.new ≡ sets out.old at (policy_text n p) }
{
    let mut next = at;
    for i in 0..MARK_BITS {
        next = bit_row(n, p, i, out, next);
    }
    next
}

// The line of bit i, if it is set.
fn bit_row(n: u64, p: usize, i: u32, out: &mut [u8], at: usize) -> usize
    requires i_lt_mark_bits { i < mark_bits }
    requires i_in_bounds { at + length (bit_text n p i) ≤ length out.old }
    ensures value { result ≡ at + length (bit_text n p i) }
    ensures out_after { out.new ≡ sets out.old at (bit_text n p i) }
{
    if (n >> i) & 1 == 1 {
        return report_lines::mark_row(out, at, p, i as usize);
    }
    at
}
