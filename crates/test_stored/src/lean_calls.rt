// Calls of the summary and of the lean judge. Of the summary each line has the number of the call, the answer and its detail, and what the
// lent table then holds; of the judge the answer and its detail.
ghost use Rattle.std.specs.Prelude.{◌≡◌, ◌≤◌};

use crate::{lean, print};
use monitor_sets::SETS;
use monitor_state::PAIR_SETS;
use usage::{EDGE_FIELDS, MOST_CREATED, MOST_UNCLOSED, NODE_FIELDS, POLICIES};

// What a lent table holds before the call: no summary has such a number.
const UNMARKED: u64 = 1099511627776;

// Every bit, and that of an opening.
const ALL: u64 = 18446744073709551615;

const OPENING: u64 = 4294967296;

// One place too few, and three more.
const FEW: usize = POLICIES - 1;

const MORE: usize = POLICIES + 3;

// A summary into a lent table.
fn summarized(
    rt: &impl Print,
    call: u64,
    local: u32,
    edges: &[u8],
    nodes: &[u8],
    marks: &mut [u64],
) -> u64
    ensures { result ≡ call }
{
    let code = api_c::lean::wiforekun_summary(edges, local, nodes, marks);
    print::told(rt, call, code, b"");
    lean::numbers(rt, marks);
    call
}

// One of so many places.
fn lent<const N: usize>(rt: &impl Print, call: u64, local: u32, edges: &[u8], nodes: &[u8]) -> u64
    requires { N ≤ 65536 }
    ensures { result ≡ call }
{
    let mut marks = [UNMARKED; N];
    summarized(rt, call, local, edges, nodes, &mut marks)
}

// The lean judge on a state like the start, but that policy 0 has two openings and may be in state 6, as it is kept and by resource 0's
// instance. All policies have these marks.
fn judged(
    rt: &impl Print,
    call: u64,
    marks: u64,
    local: u32,
    flag: u64,
    kind: u32,
    a: u32,
    b: u32,
) -> u64
    ensures { result ≡ call }
{
    let mut edges = [0u8; EDGE_FIELDS];
    edges[5] = 7;
    let mut sets = [1u8; SETS];
    let mut pairs = [1u8; PAIR_SETS];
    sets[0] = 64;
    let mut possible = [1u8; POLICIES];
    possible[0] = 64;
    let mut created = [0u32; MOST_CREATED];
    let mut unclosed = [0u8; POLICIES];
    unclosed[0] = 2;
    let mut order = [0u8; MOST_UNCLOSED];
    let mut numbers = [0u64, flag, 2, 0];
    let all = [marks; POLICIES];
    let code = api_c::lean::wiforekun_judge_lean_parts(
        &all,
        &edges,
        local,
        &mut sets,
        &mut pairs,
        &mut possible,
        &mut created,
        &mut unclosed,
        &mut order,
        &mut numbers,
        kind,
        a,
        b,
    );
    print::line(rt, call, code);
    call
}

// The table, the choice of past, and tables of edges and nodes that are none.
fn summary_calls(rt: &impl Print) -> u64
    ensures { result ≡ 16 }
{
    // action 2 on static 3 breaks policy 0, in its sandbox; and before it
    let edges = [0u8, 0, 2, 0, 3, 6];
    let nodes = [8u8, 0, 1, 1, 2, 3];
    let before = [3u8, 1, 2, 1, 2, 3, 8, 0, 3, 0, 0, 0];
    lent::<POLICIES>(rt, 1, 0, &edges, &nodes);
    lent::<FEW>(rt, 2, 0, &edges, &nodes);
    lent::<MORE>(rt, 3, 0, &edges, &nodes);
    let mut none = [UNMARKED; 1];
    summarized(rt, 4, 0, &edges, &nodes, &mut none[0..0]);
    lent::<POLICIES>(rt, 5, 1, &edges, &nodes);
    lent::<POLICIES>(rt, 6, 2, &edges, &nodes);
    lent::<FEW>(rt, 7, 2, &edges, &nodes);
    lent::<POLICIES>(rt, 8, 4294967295, &edges, &nodes);
    lent::<POLICIES>(rt, 9, 0, &[0u8; 5], &[0u8; NODE_FIELDS]);
    lent::<FEW>(rt, 10, 0, &[0u8; 5], &[0u8; NODE_FIELDS]);
    lent::<POLICIES>(rt, 11, 0, &[0u8; EDGE_FIELDS], &[9u8; NODE_FIELDS]);
    lent::<FEW>(rt, 12, 0, &[0u8; EDGE_FIELDS], &[9u8; NODE_FIELDS]);
    lent::<POLICIES>(rt, 13, 0, &[0u8; EDGE_FIELDS], &[0u8; NODE_FIELDS]);
    lent::<POLICIES>(rt, 14, 0, &edges, &before);
    lent::<POLICIES>(rt, 15, 1, &edges, &before);
    16
}

// What the lean judge looks at; 41, 20, 42 and 21.
pub(crate) fn calls(rt: &impl Print) -> u64
    ensures { result ≡ 28 }
{
    summary_calls(rt);
    judged(rt, 16, 2, 0, 0, 0, 1, 0);
    judged(rt, 17, ALL - 2, 0, 0, 0, 1, 0);
    judged(rt, 18, OPENING, 0, 0, 0, 1, 0);
    judged(rt, 19, OPENING, 0, 0, 1, 0, 0);
    judged(rt, 20, ALL - OPENING, 0, 0, 1, 0, 0);
    judged(rt, 21, ALL, 0, 0, 1, 1, 0);
    judged(rt, 22, ALL, 0, 0, 2, 0, 0);
    judged(rt, 23, ALL, 1, 0, 0, 1, 0);
    judged(rt, 24, ALL, 2, 0, 0, 1, 0);
    judged(rt, 25, ALL, 0, 1, 0, 1, 0);
    judged(rt, 26, ALL, 0, 2, 0, 1, 0);
    judged(rt, 27, ALL, 0, 0, 0, 32, 0);
    28
}
