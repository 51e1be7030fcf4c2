// The line that the second program prints for an outline, put into a lent buffer after the line of names.
ghost use Rattle.std.specs.Prelude.{◌≡◌, ◌+◌, ◌≤◌, length};
ghost use Rattle.std.proofs.lemmas.List.Edits.{sets};
ghost use Rattle.usage.specs.Answers.{Verdict, answer, detail};
ghost use Rattle.sheet_lines.specs.Sheet.{sheet};
ghost use Rattle.sheet_lines.specs.Sheets.{outline_sheet};
ghost use Rattle.sheet_reader.specs.Readers.{ruled_result};
ghost use Rattle.checker.specs.Promise.{outcome_verdict};
ghost use Rattle.report.specs.Output.{longest_outline_row};
ghost use Rattle.report.specs.Outline.{RightNodes, nodes_row};

use checker::Outcome;
use usage::{NODE_FIELDS, NODE_TABLE, Reason};

// The line of an outline that is checked with the edges, or of its refusal, from `at` on: the place after it. It is told by whichever
// verdict is right, and one is.
pub(crate) fn row(edges: &[u8], local: bool, text: &[u8], out: &mut [u8], at: usize) -> usize
    requires { at + longest_outline_row ≤ length out.old }
    ensures value { (v : Verdict) → RightNodes local edges.now (ruled_result (sheet outline_sheet text.now)) v
        → result ≡ at + length (nodes_row (ruled_result (sheet outline_sheet text.now)) v) }
    ensures out_after { (v : Verdict) → RightNodes local edges.now (ruled_result (sheet outline_sheet text.now)) v
        → out.new ≡ sets out.old at (nodes_row (ruled_result (sheet outline_sheet text.now)) v) }
    ensures right_nodes { (v : Verdict) × RightNodes local edges.now (ruled_result (sheet outline_sheet text.now)) v }
    ensures upper_bound { result ≤ at + longest_outline_row }
{
    let mut nodes = [0u8; NODE_TABLE];
    match sheet_reader::read_outline(text, &mut nodes) {
        Ok(n) => {
            let a = checker::check(edges, local, &nodes[0..n * NODE_FIELDS]);
            report_lines::row(out, at, 0, outcome_number(a), outcome_detail(a) as usize)
        }
        Err(r) => crate::refusal_row(out, at, 5, r),
    }
}

// Document 01's two numbers for an outcome.
fn outcome_number(a: Result<Outcome, Reason>) -> usize
    ensures { result ≡ answer (outcome_verdict a) }
{
    match a {
        Ok(Outcome::Accepted) => 0,
        Ok(Outcome::Named(_)) => 1,
        Err(_) => 2,
    }
}

fn outcome_detail(a: Result<Outcome, Reason>) -> u8
    ensures { result ≡ detail (outcome_verdict a) }
{
    match a {
        Ok(Outcome::Accepted) => 0,
        Ok(Outcome::Named(p)) => p,
        Err(r) => u8::from(r),
    }
}
