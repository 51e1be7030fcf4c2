// What the programs print: the bytes of the sheets in, the bytes of the printed lines out.
#![tactic(auto)]

ghost use Rattle.std.specs.Prelude.{◌+◌, ◌++◌, ◌<◌, ◌≤◌, ◌≡◌, length};
ghost use Rattle.usage.specs.Answers.{Verdict};
ghost use Rattle.usage.specs.Reasons.{refusal_of};
ghost use Rattle.report_lines.specs.Lines.{names_line, names_room, refusal_row as lines_refusal};
ghost use Rattle.report_lines.specs.Put.{put_at, end_at};
ghost use Rattle.report.specs.Output.{fronted, trace_room, outline_room, length_put, put as output_put};
ghost use Rattle.report.specs.Trace.{trace_printed};
ghost use Rattle.report.specs.Outline.{RightTexts, outline_printed};
ghost use Rattle.report.specs.Counterexample.{RightExplanation, counterexample_printed, counterexample_room, Prints};
ghost use Rattle.report.specs.Policies.{policies_printed, policies_room};
ghost use Rattle.report.specs.Expression.{expression_printed, expression_room};
ghost use Rattle.report.specs.Summary.{RightSummary, summary_printed, summary_room};
ghost use Rattle.checker.specs.Summary.{Summary};

use checker_trace::MOST_NUMBERS;
use report_lines::{MARK_NAMES, NAMES, NODE_NAMES, TRACE_NAMES};
use sheet_lines::LONGEST_SHEET;
use sheet_reader::PolicySheet;
use usage::{
    EDGE_FIELDS, EDGE_TABLE, MOST_NODES, MOST_STEPS, NODE_FIELDS, NODE_TABLE, POLICIES,
    STEP_FIELDS, SheetRefusal,
};

mod counterexample;
mod expression;
mod outline;
mod summary;
mod trace;

// ── Sizes ── as specs/Output, specs/Counterexample, specs/Expression and specs/Summary have them.

// The bytes of a line at most: of a step's answer, of an outline's or of refused policies', of a step of a counterexample, of a node, and
// of a mark.
const LONGEST_STEP_ROW: usize = 10;

const LONGEST_OUTLINE_ROW: usize = 9;

const LONGEST_SHOWN_ROW: usize = 9;

const LONGEST_NODE_ROW: usize = 11;

const LONGEST_MARK_ROW: usize = 5;

// The steps of a counterexample at most.
const MOST_SHOWN: usize = MOST_NUMBERS / STEP_FIELDS;

// The bytes of the longest output of each program.
pub const TRACE_ROOM: usize = NAMES + MOST_STEPS * LONGEST_STEP_ROW;

pub const OUTLINE_ROOM: usize = NAMES + LONGEST_OUTLINE_ROW;

pub const COUNTEREXAMPLE_ROOM: usize = TRACE_NAMES + MOST_SHOWN * LONGEST_SHOWN_ROW;

pub const POLICIES_ROOM: usize = LONGEST_SHEET;

pub const EXPRESSION_ROOM: usize = NODE_NAMES + MOST_NODES * LONGEST_NODE_ROW;

pub const SUMMARY_ROOM: usize = MARK_NAMES
    + POLICIES * (summary::MARK_BITS as usize * LONGEST_MARK_ROW);

// The line of a refused sheet, from `at` on: the place after it. `sheet` tells which: 3 policies, 4 a trace, 5 an outline.
fn refusal_row(out: &mut [u8], at: usize, sheet: usize, r: SheetRefusal) -> usize
    ensures value { result ≡ end_at out.old at (lines_refusal sheet (refusal_of r)) }
    ensures out_after { out.new ≡ put_at out.old at (lines_refusal sheet (refusal_of r)) }
{
    report_lines::row(out, at, r.line, sheet, u8::from(r.reason) as usize)
}

// A refused sheet, as the second program prints it: the length of the text.
fn refused(out: &mut [u8], sheet: usize, r: SheetRefusal) -> usize
    requires { names_room + length (lines_refusal sheet (refusal_of r)) ≤ length out.old }
    ensures value { result ≡ length (names_line ++ lines_refusal sheet (refusal_of r)) }
    ensures out_after { out.new ≡ fronted out.old (names_line ++ lines_refusal sheet (refusal_of r)) }
{
    let at = report_lines::names(out);
    refusal_row(out, at, sheet, r)
}

// Kept: each program reads its policies itself: with a closure for what follows, each contract would be one of the closure.

// What the first program prints, from the bytes of `policies.txt` and `trace.txt`: its length, and 0 where `out` lacks the room.
pub fn report_trace(policies: &[u8], trace: &[u8], out: &mut [u8]) -> usize
    ensures value { result ≡ length_put trace_room out.old (trace_printed policies.now trace.now) }
    ensures out_after { out.new ≡ output_put trace_room out.old
        (trace_printed policies.now trace.now) }
{
    if out.len() < TRACE_ROOM {
        return 0;
    }
    let at = report_lines::names(out);
    let mut edges = [0u8; EDGE_TABLE];
    match sheet_reader::read_policies(policies, &mut edges) {
        Ok(PolicySheet { edges: n, local }) => {
            crate::trace::rows(&edges[0..n * EDGE_FIELDS], local, trace, out, at)
        }
        Err(r) => refusal_row(out, at, 3, r),
    }
}

// What the second program prints, from the bytes of `policies.txt` and `outline.txt`: its length, and 0 where `out` lacks the room.
// It is told by whichever verdict is right; where anything is printed, one is.
pub fn report_outline(policies: &[u8], outline: &[u8], out: &mut [u8]) -> usize
    ensures value { (v : Verdict) → RightTexts policies.now outline.now v
        → result ≡ length_put outline_room out.old (outline_printed policies.now outline.now v) }
    ensures out_after { (v : Verdict) → RightTexts policies.now outline.now v
        → out.new ≡ output_put outline_room out.old
        (outline_printed policies.now outline.now v) }
    ensures right_texts { 0 < result → (v : Verdict) × RightTexts policies.now outline.now v }
{
    if out.len() < OUTLINE_ROOM {
        return 0;
    }
    let next = report_lines::names(out);
    let mut edges = [0u8; EDGE_TABLE];
    match sheet_reader::read_policies(policies, &mut edges) {
        Ok(PolicySheet { edges: n, local }) => {
            crate::outline::row(&edges[0..n * EDGE_FIELDS], local, outline, out, next)
        }
        Err(r) => refusal_row(out, next, 3, r),
    }
}

// What the third program prints, from the bytes of `policies.txt` and `outline.txt`: a shortest counterexample as a trace sheet. Its
// length, and 0 where `out` lacks the room.
pub fn report_counterexample(policies: &[u8], outline: &[u8], out: &mut [u8]) -> usize
    ensures value { length out.old < counterexample_room → (result ≡ 0) × (out.new ≡ out.old) }
    ensures prints { counterexample_room ≤ length out.old → Prints
        (RightExplanation policies.now outline.now)
        (counterexample_printed policies.now outline.now)
        out.old result out.new }
{
    if out.len() < COUNTEREXAMPLE_ROOM {
        return 0;
    }
    let mut edges = [0u8; EDGE_TABLE];
    match sheet_reader::read_policies(policies, &mut edges) {
        Ok(PolicySheet { edges: n, local }) => {
            crate::counterexample::of_text(&edges[0..n * EDGE_FIELDS], local, outline, out)
        }
        Err(r) => refused(out, 3, r),
    }
}

// What the fourth program prints, from the bytes of `policies.txt`: the sheet written again, or its refusal. Its length, and 0 where `out`
// lacks the room.
pub fn report_policies(policies: &[u8], out: &mut [u8]) -> usize
    ensures value { result ≡ length_put policies_room out.old (policies_printed policies.now) }
    ensures out_after { out.new ≡ output_put policies_room out.old (policies_printed policies.now) }
{
    if out.len() < POLICIES_ROOM {
        return 0;
    }
    match sheet_writer::write_policies(policies, out) {
        Ok(n) => n,
        Err(refusal) => refused(out, 3, refusal),
    }
}

// What the program that reads an expression prints, from the bytes of `outline.expr`: its outline sheet. Its length, and 0 where `out`
// lacks the room.
pub fn report_expression(text: &[u8], out: &mut [u8]) -> usize
    ensures value { result ≡ length_put expression_room out.old (expression_printed text.now) }
    ensures out_after { out.new ≡ output_put expression_room out.old (expression_printed text.now) }
{
    if out.len() < EXPRESSION_ROOM {
        return 0;
    }
    let mut nodes = [0u8; NODE_TABLE];
    match sheet_expression::read_expression(text, &mut nodes) {
        Ok(n) => crate::expression::sheet(&nodes[0..n * NODE_FIELDS], out),
        Err(r) => refused(out, 5, r),
    }
}

// What the program of summaries prints, from the bytes of `policies.txt` and `outline.txt`: its length, and 0 where `out` lacks the room. It
// is the text of whichever summary is right, and there is one only; where anything is printed, one is right.
pub fn report_summary(policies: &[u8], outline: &[u8], out: &mut [u8]) -> usize
    ensures value { (m : Summary) → RightSummary policies.now outline.now m
        → result ≡ length_put summary_room out.old (summary_printed policies.now outline.now m) }
    ensures out_after { (m : Summary) → RightSummary policies.now outline.now m
        → out.new ≡ output_put summary_room out.old
        (summary_printed policies.now outline.now m) }
    ensures right_summary { 0 < result → (m : Summary) × RightSummary policies.now outline.now m }
{
    if out.len() < SUMMARY_ROOM {
        return 0;
    }
    let mut edges = [0u8; EDGE_TABLE];
    match sheet_reader::read_policies(policies, &mut edges) {
        Ok(PolicySheet { edges: n, local }) => {
            crate::summary::of_text(&edges[0..n * EDGE_FIELDS], local, outline, out)
        }
        Err(r) => refused(out, 3, r),
    }
}
