// What the program of the routine desk prints (02, L14): the bytes of three sheets in, the bytes of the printed lines out.
#![tactic(auto)]

ghost use Rattle.std.specs.Prelude.{◌+◌, ◌*◌, ◌/◌, ◌<◌, ◌≤◌, ◌≡◌, length};
ghost use Rattle.std.proofs.lemmas.List.Edits.{sets};
ghost use Rattle.usage.specs.Limits.{step_fields, step_places, most_steps};
ghost use Rattle.usage.specs.Tables.{steps_of};
ghost use Rattle.report_desk.specs.Printed.{answer_in, detail_in, lean_in, code_row, sheet_row, TraceRows, OutlineRows};
ghost use Rattle.report_desk.specs.Printed.{longest_desk_row, rows_room, desk_room, PrintsDesk};
ghost use Rattle.report_desk.specs.Code.{PutRows, StepRows, JudgedRows};

use desk::DESK_BYTES;
use report_lines::DESK_NAMES;
use usage::{MOST_STEPS, STEP_FIELDS, STEP_TABLE};

// The bytes of a line at most, as specs/Printed has it, and of all.
const LONGEST_ROW: usize = 16;

pub const DESK_ROOM: usize = DESK_NAMES + LONGEST_ROW + MOST_STEPS * LONGEST_ROW;

// The answers that tell which sheet is refused, and that of any refusal in a returned number.
const POLICIES_REFUSED: usize = 3;

const TRACE_REFUSED: usize = 4;

const OUTLINE_REFUSED: usize = 5;

const REFUSED: u32 = 2;

// The line of a call: what it is about, and the number that it returned, taken apart.
fn called(out: &mut [u8], at: usize, line: usize, code: u32) -> usize
    requires line_bound { line < 100000 }
    requires longest_desk_row_in_bounds { at + longest_desk_row ≤ length out.old }
    ensures value { result ≡ at + length (code_row line code) }
    ensures out_after { out.new ≡ sets out.old at (code_row line code) }
    ensures code_len_bound { length (code_row line code) ≤ longest_desk_row }
{
    let n = code as usize;
    report_lines::numbered_row(out, at, line, n / 256 % 256, n % 256, n / 65536 % 2)
}

// The line of a refused sheet.
fn refused(out: &mut [u8], at: usize, sheet: usize, code: u32) -> usize
    requires sheet_bound { sheet < 10 }
    requires longest_desk_row_in_bounds { at + longest_desk_row ≤ length out.old }
    ensures value { result ≡ at + length (sheet_row sheet code) }
    ensures out_after { out.new ≡ sets out.old at (sheet_row sheet code) }
    ensures code_len_bound { length (sheet_row sheet code) ≤ longest_desk_row }
{
    let n = code as usize;
    report_lines::numbered_row(out, at, n / 131072, sheet, n % 256, 0)
}

// The lines of the steps of a table, each handed to the desk as the last one left it.
fn step_rows(state: &mut [u8], steps: &[u32], out: &mut [u8], at: usize) -> usize
    requires steps_len_bound { length steps.now ≤ step_places }
    requires longest_desk_row_in_bounds { at + most_steps * longest_desk_row ≤ length out.old }
    ensures { PutRows (StepRows state.old (steps_of steps.now)) (most_steps * longest_desk_row)
        out.old at result out.new }
{
    let n = steps.len() / STEP_FIELDS;
    let mut next = at;
    for i in 0..n {
        let code = desk::step(
            state,
            steps[STEP_FIELDS * i],
            steps[STEP_FIELDS * i + 1],
            steps[STEP_FIELDS * i + 2],
        );
        next = called(out, next, i + 2, code);
    }
    next
}

// The lines of the check's verdict and of the steps.
fn judged_rows(state: &mut [u8], verdict: u32, steps: &[u32], out: &mut [u8], at: usize) -> usize
    requires steps_len_bound { length steps.now ≤ step_places }
    requires rows_room_in_bounds { at + rows_room ≤ length out.old }
    ensures { PutRows (JudgedRows state.old (steps_of steps.now) verdict) rows_room
        out.old at result out.new }
{
    let next = called(out, at, 0, verdict);
    step_rows(state, steps, out, next)
}

// The lines of the trace at a desk whose check has answered with this number.
fn trace_rows(state: &mut [u8], verdict: u32, trace: &[u8], out: &mut [u8], at: usize) -> usize
    requires { at + rows_room ≤ length out.old }
    ensures { PutRows (TraceRows trace.now state.old verdict) rows_room
        out.old at result out.new }
{
    let mut steps = [0u32; STEP_TABLE];
    match sheet_reader::read_trace(trace, &mut steps) {
        Ok(n) => judged_rows(state, verdict, &steps[0..n * STEP_FIELDS], out, at),
        Err(r) => report_lines::numbered_row(
            out,
            at,
            r.line,
            TRACE_REFUSED,
            u8::from(r.reason) as usize,
            0,
        ),
    }
}

// The lines at a desk that has policies.
fn outline_rows(state: &mut [u8], outline: &[u8], trace: &[u8], out: &mut [u8], at: usize) -> usize
    requires { at + rows_room ≤ length out.old }
    ensures { PutRows (OutlineRows outline.now trace.now state.old) rows_room
        out.old at result out.new }
{
    let code = desk::outline(state, outline);
    if code / 256 % 256 == REFUSED {
        return refused(out, at, OUTLINE_REFUSED, code);
    }
    trace_rows(state, code, trace, out, at)
}

// What the program of the desk prints, from the bytes of `policies.txt`, `outline.txt` and `trace.txt`: its length, and 0 where `out` lacks
// the room.
pub fn report_desk(policies: &[u8], outline: &[u8], trace: &[u8], out: &mut [u8]) -> usize
    ensures value { length out.old < desk_room → (result ≡ 0) × (out.new ≡ out.old) }
    ensures prints_desk { desk_room ≤ length out.old → PrintsDesk
        policies.now outline.now trace.now out.old result out.new }
{
    if out.len() < DESK_ROOM {
        return 0;
    }
    let at = report_lines::desk_names(out);
    let mut state = [0u8; DESK_BYTES];
    let code = desk::policies(&mut state, policies);
    if code != 0 {
        return refused(out, at, POLICIES_REFUSED, code);
    }
    outline_rows(&mut state, outline, trace, out, at)
}
