// Calls of the check with a counterexample, at the border of the trace table that it is lent (40) and of what it writes there. After the
// answer and its detail each line has the length, how many numbers of the table are written, and how many keep what they held.
ghost use Rattle.std.specs.Prelude.{◌≡◌, ◌≤◌, length};

use crate::print;
use checker_trace::MOST_NUMBERS;
use usage::{EDGE_FIELDS, NODE_FIELDS};

// One too few.
pub(crate) const FEW_NUMBERS: usize = MOST_NUMBERS - 1;

// One more than is needed.
const MORE_NUMBERS: usize = MOST_NUMBERS + 1;

// What a lent trace table holds before the call: no step has such a number.
const MARK: u32 = 4294967295;

// How many numbers of the table come before the first that holds the mark.
fn written(trace: &[u32]) -> usize
    ensures { result ≤ length trace.now }
{
    trace.iter().position(|x| *x == MARK).unwrap_or(trace.len())
}

// How many hold it.
fn kept(trace: &[u32]) -> usize
    ensures { result ≤ length trace.now }
{
    let mut n: usize = 0;
    for x in trace {
        if *x == MARK {
            n += 1;
        }
    }
    n
}

// The line of a call of the check with a counterexample: after the detail the length, how many numbers are written from the first on,
// and how many are kept.
pub(crate) fn explain(
    rt: &impl Print,
    call: u64,
    local: u32,
    edges: &[u8],
    nodes: &[u8],
    trace: &mut [u32],
) -> u64
    ensures { result ≡ call }
{
    let code = api_c::wiforekun_counterexample(edges, local, nodes, trace);
    print::told(rt, call, code % 65536, b" ");
    print::number(rt, code as u64 / 65536, b" ");
    print::number(rt, written(trace) as u64, b" ");
    print::number(rt, kept(trace) as u64, b"\n");
    call
}

// It, lent so many numbers.
pub(crate) fn explain_lent<const N: usize>(
    rt: &impl Print,
    call: u64,
    local: u32,
    edges: &[u8],
    nodes: &[u8],
) -> u64
    requires { N ≤ 65536 }
    ensures { result ≡ call }
{
    let mut trace = [MARK; N];
    explain(rt, call, local, edges, nodes, &mut trace)
}

// The lent trace table: 40 before 41, and what is left in it.
pub(crate) fn trace_calls(rt: &impl Print) -> u64
    ensures { result ≡ 44 }
{
    // action 2 on static 3 breaks policy 0, in its sandbox
    let edges = [0u8, 0, 2, 0, 3, 6];
    let nodes = [8u8, 0, 1, 1, 2, 3];
    explain_lent::<MOST_NUMBERS>(rt, 34, 0, &edges, &nodes);
    explain_lent::<MORE_NUMBERS>(rt, 35, 0, &edges, &nodes);
    explain_lent::<FEW_NUMBERS>(rt, 36, 0, &edges, &nodes);
    let mut none = [MARK; 1];
    explain(rt, 37, 0, &edges, &nodes, &mut none[0..0]);
    explain_lent::<FEW_NUMBERS>(rt, 38, 0, &[0u8; 5], &[0u8; NODE_FIELDS]);
    explain_lent::<MOST_NUMBERS>(rt, 39, 0, &[0u8; 5], &[0u8; NODE_FIELDS]);
    explain_lent::<MOST_NUMBERS>(rt, 40, 0, &[0u8; EDGE_FIELDS], &[9u8; NODE_FIELDS]);
    explain_lent::<FEW_NUMBERS>(rt, 41, 0, &[0u8; EDGE_FIELDS], &[9u8; NODE_FIELDS]);
    explain_lent::<MOST_NUMBERS>(rt, 42, 0, &[0u8; EDGE_FIELDS], &[0u8; NODE_FIELDS]);
    explain_lent::<FEW_NUMBERS>(rt, 43, 0, &[0u8; EDGE_FIELDS], &[0u8; NODE_FIELDS]);
    44
}

// A policy that offends at the sixth action 1 on static 3.
const SIXTH: [u8; 36] = [
    0, 0, 1, 0, 3, 1, 0, 1, 1, 0, 3, 2, 0, 2, 1, 0, 3, 3, 0, 3, 1, 0, 3, 4, 0, 4, 1, 0, 3, 5, 0, 5,
    1, 0, 3, 6,
];

// An opening, a loop in the place of another, the opening of policy 0, and then rounds of 33 steps: sixteen sandboxes, one inside the
// other, and the event.
const ROUNDS: [u8; 75] = [
    8, 1, 1, 5, 2, 0, 8, 0, 3, 5, 4, 0, 3, 5, 22, 8, 1, 6, 8, 1, 7, 8, 1, 8, 8, 1, 9, 8, 1, 10, 8,
    1, 11, 8, 1, 12, 8, 1, 13, 8, 1, 14, 8, 1, 15, 8, 1, 16, 8, 1, 17, 8, 1, 18, 8, 1, 19, 8, 1,
    20, 8, 1, 21, 0, 0, 0, 3, 23, 24, 1, 1, 3, 6, 3, 0,
];

// Traces of 200 and 201 steps: openings, and six rounds of 33 steps. A loop in the place of the second opening takes no step.
pub(crate) fn long_calls(rt: &impl Print) -> u64
    ensures { result ≡ 46 }
{
    let edges = SIXTH;
    let mut nodes = ROUNDS;
    explain_lent::<MOST_NUMBERS>(rt, 44, 0, &edges, &nodes);
    nodes[3] = 8;
    nodes[4] = 1;
    nodes[5] = 2;
    explain_lent::<MOST_NUMBERS>(rt, 45, 0, &edges, &nodes);
    46
}
