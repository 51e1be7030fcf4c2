// The lines that the first program prints for a trace, put into a lent buffer after the line of names.
ghost use Rattle.std.specs.Prelude.{◌≡◌, ◌+◌, ◌≤◌, ◌<◌, ◌*◌, ◌/◌, length};
ghost use Rattle.std.proofs.lemmas.List.Edits.{sets};
ghost use Rattle.usage.specs.Limits.{step_fields, step_places};
ghost use Rattle.usage.specs.Tables.{step_at_lem, steps_of};
ghost use Rattle.usage.specs.Answers.{answer, detail};
ghost use Rattle.sheet_lines.specs.Sheet.{sheet};
ghost use Rattle.sheet_lines.specs.Sheets.{trace_sheet};
ghost use Rattle.monitor_state.specs.Judge.{verdict_of, start_state};
ghost use Rattle.report.specs.Output.{longest_step_row, steps_room};
ghost use Rattle.report.specs.Trace.{judged_rows, trace_rows};

use monitor_state::{Answer, Sizes};
use usage::{RawStep, Reason, STEP_FIELDS, STEP_TABLE};

// The rows of a trace, or of its refusal, from `at` on: the place after them.
pub(crate) fn rows(edges: &[u8], local: bool, text: &[u8], out: &mut [u8], at: usize) -> usize
    requires { at + steps_room ≤ length out.old }
    ensures value { result ≡ at + length (trace_rows edges.now local (sheet trace_sheet text.now)) }
    ensures out_after { out.new
        ≡ sets out.old at (trace_rows edges.now local (sheet trace_sheet text.now)) }
{
    let mut steps = [0u32; STEP_TABLE];
    match sheet_reader::read_trace(text, &mut steps) {
        Ok(n) => judge_all(edges, local, &steps[0..n * STEP_FIELDS], out, at),
        Err(r) => crate::refusal_row(out, at, 4, r),
    }
}

// The rows of the steps, each judged with the state that the last one returned.
fn judge_all(edges: &[u8], local: bool, steps: &[u32], out: &mut [u8], at: usize) -> usize
    requires steps_len_bound { length steps.now ≤ step_places }
    requires step_fields_in_bounds { at + longest_step_row * (length steps.now / step_fields) ≤ length out.old }
    ensures value { result ≡ at + length (judged_rows edges.now local start_state 2 (steps_of steps.now)) }
    ensures out_after { out.new ≡ sets out.old at
        (judged_rows edges.now local start_state 2 (steps_of steps.now)) }
{
    let n = steps.len() / STEP_FIELDS;
    let mut s = monitor::start();
    let mut sizes = Sizes {
        count: s.created.count,
        highest: s.created.highest,
        depth: s.unclosed.depth,
        halted: s.halted,
    };
    let mut next = at;
    for i in 0..n {
        let t = monitor::judge_lent(
            edges,
            local,
            &mut s.tracked.sets,
            &mut s.tracked.pairs,
            &mut s.tracked.possible,
            &mut s.created.numbers,
            &mut s.unclosed.counts,
            &mut s.unclosed.order,
            sizes,
            step_at(steps, i),
        );
        let a = t.answer;
        next = report_lines::row(out, next, i + 2, number_of(a), detail_of(a));
        sizes = t.sizes;
    }
    next
}

// Document 01's two numbers for an answer.
// Kept: two functions, as for an outcome: a pair would have to be taken apart at its one call.
fn number_of(a: Answer<Reason>) -> usize
    ensures { result ≡ answer (verdict_of a) }
{
    match a {
        Answer::Allowed => 0,
        Answer::Violated(_) => 1,
        Answer::Refused(_) => 2,
    }
}

fn detail_of(a: Answer<Reason>) -> usize
    ensures { result ≡ detail (verdict_of a) }
{
    match a {
        Answer::Allowed => 0,
        Answer::Violated(p) => p as usize,
        Answer::Refused(r) => u8::from(r) as usize,
    }
}

// Step i of the table.
pub(crate) fn step_at(steps: &[u32], i: usize) -> RawStep
    requires { step_fields * i + 2 < length steps.now }
    ensures { result ≡ step_at_lem steps.now i }
{
    RawStep {
        kind: steps[STEP_FIELDS * i],
        a: steps[STEP_FIELDS * i + 1],
        b: steps[STEP_FIELDS * i + 2],
    }
}
