// Calls with the number that tells which past the policies see: of the judge, what an opening resets; of the judge, the check and the check
// with a counterexample, 41 where it is neither 0 nor 1; and the reader of policies, which tells it.
ghost use Rattle.std.specs.Prelude.{◌≡◌};
ghost use Rattle.test_stored.specs.Code.{lent_parts, sandboxing};

use crate::lent::Lent;
use crate::trace_calls::FEW_NUMBERS;
use crate::{borders, lent, print, trace_calls};
use checker_trace::MOST_NUMBERS;
use monitor_sets::{FIRST_CREATED, SETS};
use usage::{EDGE_FIELDS, EDGE_TABLE, MOST_CREATED, MOST_UNCLOSED, NODE_FIELDS, POLICIES};

// One place too few.
const FEW_EDGES: usize = EDGE_TABLE - 1;

// The largest number that a call can tell the past by.
const WIDEST: u32 = 4294967295;

// A state like the start, but that policy 1 is open, and for what policies 0 and 1 may be in; of policy 0 the set of resource 0 and
// that of a place that is not in use are `set`.
fn sandbox(of_0: u8, of_1: u8, set: u8) -> Lent
    ensures { lent_parts result ≡ sandboxing of_0 of_1 set }
{
    let mut sets = [1u8; SETS];
    sets[0] = set;
    sets[FIRST_CREATED] = set;
    let mut possible = [1u8; POLICIES];
    possible[0] = of_0;
    possible[1] = of_1;
    let created = [0u32; MOST_CREATED];
    let mut unclosed = [0u8; POLICIES];
    unclosed[1] = 1;
    let order = [1u8; MOST_UNCLOSED];
    Lent {
        sets,
        possible,
        created,
        unclosed,
        order,
        numbers: [0, 0, 1, 0],
    }
}

// Openings of policy 0, which is not open, and of policy 1, which is; with the whole past and with that of the sandbox.
fn step_calls(rt: &impl Print) -> u64
    ensures { result ≡ 94 }
{
    lent::show(rt, 83, 0, sandbox(64, 1, 2), 1, 0, 0);
    lent::show(rt, 84, 1, sandbox(64, 1, 2), 1, 0, 0);
    lent::show(rt, 85, 1, sandbox(64, 64, 2), 1, 0, 0);
    lent::show(rt, 86, 1, sandbox(64, 1, 2), 1, 1, 0);
    lent::show(rt, 87, 1, sandbox(64, 64, 2), 1, 1, 0);
    lent::show(rt, 88, 1, sandbox(64, 1, 2), 2, 1, 0);
    lent::show(rt, 89, 1, sandbox(64, 1, 2), 0, 1, 5);
    lent::show(rt, 90, 1, sandbox(2, 1, 64), 1, 0, 0);
    lent::show(rt, 91, 2, sandbox(64, 1, 2), 1, 0, 0);
    lent::show(rt, 92, WIDEST, sandbox(64, 1, 2), 0, 1, 5);
    lent::show(rt, 93, 2, sandbox(64, 1, 2), 3, 0, 0);
    94
}

// Action 2 on static 3 offends, inside the sandbox or before it.
const OFFENDING: [u8; 6] = [0, 0, 2, 0, 3, 6];

const INSIDE: [u8; 6] = [8, 0, 1, 1, 2, 3];

const BEFORE: [u8; 12] = [3, 1, 2, 1, 2, 3, 8, 0, 3, 0, 0, 0];

fn check_calls(rt: &impl Print) -> u64
    ensures { result ≡ 99 }
{
    print::line(
        rt,
        94,
        api_c::wiforekun_check(&[0u8; EDGE_FIELDS], 1, &[0u8; NODE_FIELDS]),
    );
    print::line(
        rt,
        95,
        api_c::wiforekun_check(&[0u8; EDGE_FIELDS], 2, &[0u8; NODE_FIELDS]),
    );
    print::line(
        rt,
        96,
        api_c::wiforekun_check(&[0u8; EDGE_FIELDS], WIDEST, &[0u8; NODE_FIELDS]),
    );
    let edges = OFFENDING;
    let nodes = BEFORE;
    print::line(rt, 97, api_c::wiforekun_check(&edges, 0, &nodes));
    print::line(rt, 98, api_c::wiforekun_check(&edges, 1, &nodes));
    99
}

fn explain_calls(rt: &impl Print) -> u64
    ensures { result ≡ 104 }
{
    let edges = OFFENDING;
    let inside = INSIDE;
    let before = BEFORE;
    trace_calls::explain_lent::<MOST_NUMBERS>(rt, 99, 1, &edges, &inside);
    trace_calls::explain_lent::<MOST_NUMBERS>(rt, 100, 2, &edges, &inside);
    trace_calls::explain_lent::<FEW_NUMBERS>(rt, 101, 2, &edges, &inside);
    trace_calls::explain_lent::<MOST_NUMBERS>(rt, 102, 0, &edges, &before);
    trace_calls::explain_lent::<MOST_NUMBERS>(rt, 103, 1, &edges, &before);
    104
}

// The reader of policies: a local sheet, too small a table (40), and names lines that are neither (1).
fn read_calls(rt: &impl Print) -> u64
    ensures { result ≡ 108 }
{
    let mut edges = [0u8; EDGE_TABLE];
    print::line(
        rt,
        104,
        borders::policies_code(sheet_reader::read_policies(
            b"local from action on who to\n",
            &mut edges,
        )),
    );
    let mut few_edges = [0u8; FEW_EDGES];
    print::line(
        rt,
        105,
        borders::policies_code(sheet_reader::read_policies(
            b"local from action on who to\n",
            &mut few_edges,
        )),
    );
    print::line(
        rt,
        106,
        borders::policies_code(sheet_reader::read_policies(
            b"local from action on who to",
            &mut edges,
        )),
    );
    print::line(
        rt,
        107,
        borders::policies_code(sheet_reader::read_policies(
            b"Local from action on who to\n",
            &mut edges,
        )),
    );
    108
}

pub(crate) fn local_calls(rt: &impl Print) -> u64
    ensures { result ≡ 108 }
{
    step_calls(rt);
    check_calls(rt);
    explain_calls(rt);
    read_calls(rt)
}
