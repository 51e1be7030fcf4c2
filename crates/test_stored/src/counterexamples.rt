// The stored cases of the check with a counterexample: of case n the sheets c/np and c/no. For each are printed the two numbers of the
// verdict and the length of the trace that was written, or the sheet that is refused and its number. Of a trace, what the judge makes of
// it: how far it comes and what it then answers where no other policy is opened; and 1 where it stops rightly with all policies.
ghost use Rattle.std.specs.Prelude.{◌≡◌, true, not, cond, eqb, ◌≤◌};
ghost use Rattle.usage.specs.Limits.{most_shown};

use crate::{print, stored};
use checker_trace::MOST_NUMBERS;
use monitor_sets::SETS;
use monitor_state::PAIR_SETS;
use std::rt::Files;
use usage::{
    EDGE_FIELDS, EDGE_TABLE, MOST_CREATED, MOST_UNCLOSED, NODE_FIELDS, NODE_TABLE, POLICIES,
    Reason, STEP_FIELDS,
};

// The steps that a table has room for.
const MOST_SHOWN: usize = MOST_NUMBERS / STEP_FIELDS;

// What is answered of a refused sheet of policies, and of an outline.
const POLICIES_REFUSED: u64 = 3;

const OUTLINE_REFUSED: u64 = 5;

// The judge's refusals of a create and of an opening beyond its limits.
const BEYOND_CREATED: u32 = 512 + 30;

const BEYOND_UNCLOSED: u32 = 512 + 32;

// Where the judge stops along a trace: how many steps it is past, and the code of its answer to the next; 0 where it allows all.
#[derive(Clone, Copy)]
pub struct Stop {
    pub past: u64,
    pub code: u32,
}

// Events are judged, and the openings and closings of p, and of every policy where p is not alone.
fn is_judged(kind: u32, a: u32, alone: bool, p: u32) -> bool
    ensures { result ≡ cond (eqb kind 0) true (cond (eqb a p) true (not alone)) }
{
    kind == 0 || a == p || !alone
}

// The judge along the first steps of a trace. Where policy p is to be judged alone, openings and closings of others are passed over.
fn follow(
    edges: &[u8],
    local: u32,
    trace: &[u32; MOST_NUMBERS],
    steps: usize,
    alone: bool,
    p: u32,
) -> Stop
    requires { steps ≤ most_shown }
    ensures { result.past ≤ steps }
{
    let mut sets = [1u8; SETS];
    let mut pairs = [1u8; PAIR_SETS];
    let mut possible = [1u8; POLICIES];
    let mut created = [0u32; MOST_CREATED];
    let mut unclosed = [0u8; POLICIES];
    let mut order = [0u8; MOST_UNCLOSED];
    let mut numbers = [0u64, 0, 0, 0];
    for i in 0..steps {
        let kind = trace[STEP_FIELDS * i];
        let a = trace[STEP_FIELDS * i + 1];
        let b = trace[STEP_FIELDS * i + 2];
        if is_judged(kind, a, alone, p) {
            let code = api_c::wiforekun_judge_parts(
                edges,
                local,
                &mut sets,
                &mut pairs,
                &mut possible,
                &mut created,
                &mut unclosed,
                &mut order,
                &mut numbers,
                kind,
                a,
                b,
            );
            if code != 0 {
                return Stop {
                    past: i as u64,
                    code,
                };
            }
        }
    }
    Stop {
        past: steps as u64,
        code: 0,
    }
}

// 1 where the judge stops where it may, on a shortest counterexample to the lowest policy that any trace breaks, else 0: at the last
// step, for that policy; before, for a higher one; or at a create or an opening beyond its limit.
fn stops_rightly(s: Stop, steps: u64, p: u32) -> u64
    ensures { result ≤ 1 }
{
    if s.code == BEYOND_CREATED || s.code == BEYOND_UNCLOSED {
        return 1;
    }
    if s.code / 256 != 1 {
        return 0;
    }
    let named = s.code % 256;
    if s.past < steps && steps - s.past == 1 {
        return u64::from(named == p);
    }
    u64::from(p < named)
}

// The line of what the judge makes of a trace; its length is handed back.
fn judged(
    rt: &impl Print,
    edges: &[u8],
    local: u32,
    trace: &[u32; MOST_NUMBERS],
    steps: usize,
    p: u32,
) -> usize
    requires { steps ≤ most_shown }
    ensures { result ≡ steps }
{
    let own = follow(edges, local, trace, steps, true, p);
    print::number(rt, own.past, b" ");
    print::number(rt, own.code as u64 / 256, b" ");
    print::number(rt, own.code as u64 % 256, b" ");
    let all = follow(edges, local, trace, steps, false, p);
    print::number(rt, stops_rightly(all, steps as u64, p), b"\n");
    steps
}

// The lines of an outline.
fn explained(rt: &impl Print, n: u64, edges: &[u8], local: u32, nodes: &[u8]) -> u64
    ensures { result ≡ n }
{
    let mut trace = [0u32; MOST_NUMBERS];
    let code = api_c::wiforekun_counterexample(edges, local, nodes, &mut trace);
    let steps = (code / 65536) as usize;
    print::number(rt, code as u64 / 256 % 256, b" ");
    print::number(rt, code as u64 % 256, b" ");
    print::number(rt, steps as u64, b"\n");
    if 0 < steps && steps <= MOST_SHOWN {
        judged(rt, edges, local, &trace, steps, code % 256);
    }
    n
}

// The line of a refused sheet.
fn refused(rt: &impl Print, n: u64, sheet: u64, reason: Reason) -> u64
    ensures { result ≡ n }
{
    print::number(rt, sheet, b" ");
    print::number(rt, u8::from(reason) as u64, b" 0\n");
    n
}

// The lines of a sheet of an outline under these edges.
fn outline(rt: &impl Print, n: u64, edges: &[u8], local: u32, text: &[u8]) -> u64
    ensures { result ≡ n }
{
    let mut nodes = [0u8; NODE_TABLE];
    match sheet_reader::read_outline(text, &mut nodes) {
        Ok(k) => explained(rt, n, edges, local, &nodes[0..k * NODE_FIELDS]),
        Err(r) => refused(rt, n, OUTLINE_REFUSED, r.reason),
    }
}

// The lines of both sheets.
fn sheets(rt: &impl Print, n: u64, policies: &[u8], text: &[u8]) -> u64
    ensures { result ≡ n }
{
    let mut edges = [0u8; EDGE_TABLE];
    match sheet_reader::read_policies(policies, &mut edges) {
        Ok(sheet) => outline(
            rt,
            n,
            &edges[0..sheet.edges * EDGE_FIELDS],
            u32::from(sheet.local),
            text,
        ),
        Err(r) => refused(rt, n, POLICIES_REFUSED, r.reason),
    }
}

fn case(rt: &(impl Files + Print), n: u64) -> u64
    ensures { result ≡ n }
{
    let policies = stored::sheet(rt, b'c', n, b'p');
    let outline = stored::sheet(rt, b'c', n, b'o');
    stored::announced(rt, n);
    sheets(rt, n, policies.text(), outline.text())
}

pub(crate) fn all(rt: &(impl Files + Print), count: u64) -> u64
    ensures { result ≡ count }
{
    stored::each(count, |n| case(rt, n))
}
