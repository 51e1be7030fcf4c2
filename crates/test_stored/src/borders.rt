// Calls of the functions themselves: refusals that no sheet can bring about, each at its border, and states that were never reached. Each
// line has the number of the call, the answer and its detail, and what the files of the calls say.
ghost use Rattle.std.specs.Prelude.{◌≡◌};
ghost use Rattle.test_stored.specs.Code.{reading_code, policies_code_lem};

use crate::{judge_calls, local_calls, order_calls, print, retire_calls, trace_calls};
use sheet_reader::PolicySheet;
use usage::{EDGE_FIELDS, EDGE_TABLE, NODE_FIELDS, NODE_TABLE, STEP_TABLE, SheetRefusal};

// One place too few.
const FEW_EDGES: usize = EDGE_TABLE - 1;

const FEW_NODES: usize = NODE_TABLE - 1;

const FEW_STEPS: usize = STEP_TABLE - 1;

pub(crate) fn code_of(r: Result<usize, SheetRefusal>) -> u32
    ensures { result ≡ reading_code r }
{
    match r {
        Ok(_) => 0,
        Err(r) => 512 + u8::from(r.reason) as u32,
    }
}

// The same of the reader of policies; the detail of an accepted sheet is 1 where it is local.
pub(crate) fn policies_code(r: Result<PolicySheet, SheetRefusal>) -> u32
    ensures { result ≡ policies_code_lem r }
{
    match r {
        Ok(sheet) => if sheet.local { 1 } else { 0 },
        Err(r) => 512 + u8::from(r.reason) as u32,
    }
}

// The readers (40) and the check (41).
fn table_calls(rt: &impl Print) -> u64
    ensures { result ≡ 34 }
{
    let mut edges = [0u8; EDGE_TABLE];
    print::line(
        rt,
        27,
        policies_code(sheet_reader::read_policies(b"policy from action on who to\n", &mut edges)),
    );
    let mut few_edges = [0u8; FEW_EDGES];
    print::line(
        rt,
        28,
        policies_code(sheet_reader::read_policies(b"", &mut few_edges)),
    );
    let mut few_steps = [0u32; FEW_STEPS];
    print::line(
        rt,
        29,
        code_of(sheet_reader::read_trace(b"", &mut few_steps)),
    );
    let mut few_nodes = [0u8; FEW_NODES];
    print::line(
        rt,
        30,
        code_of(sheet_reader::read_outline(b"", &mut few_nodes)),
    );
    print::line(
        rt,
        31,
        api_c::wiforekun_check(&[0u8; EDGE_FIELDS], 0, &[0u8; NODE_FIELDS]),
    );
    print::line(
        rt,
        32,
        api_c::wiforekun_check(&[0u8; 5], 0, &[0u8; NODE_FIELDS]),
    );
    print::line(
        rt,
        33,
        api_c::wiforekun_check(&[0u8; EDGE_FIELDS], 0, &[9u8; NODE_FIELDS]),
    );
    34
}

pub(crate) fn calls(rt: &impl Print) -> u64
    ensures { result ≡ 145 }
{
    judge_calls::step_calls(rt);
    judge_calls::flag_calls(rt);
    table_calls(rt);
    trace_calls::trace_calls(rt);
    trace_calls::long_calls(rt);
    judge_calls::kept_calls(rt);
    order_calls::order_calls(rt);
    local_calls::local_calls(rt);
    retire_calls::calls(rt)
}
