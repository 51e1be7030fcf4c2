// The stored cases of the summary and of the lean judge (02, L11). What is printed of the stored outlines is what the program that prints a
// summary prints. Of case n of the lean judge there are the sheets l/np, l/no and l/nt: the eight numbers of the exact summary are printed,
// and what the lean judge answers to each step of the trace with them, with them one bit higher, and with every bit set.
ghost use Rattle.std.specs.Prelude.{◌≡◌, ◌/◌, ◌+◌, length};
ghost use Rattle.usage.specs.Limits.{policies, step_fields};

use crate::{print, stored};
use monitor_sets::SETS;
use monitor_state::PAIR_SETS;
use std::rt::Files;
use usage::{
    EDGE_FIELDS, EDGE_TABLE, MOST_CREATED, MOST_UNCLOSED, NODE_FIELDS, NODE_TABLE, POLICIES,
    STEP_FIELDS, STEP_TABLE,
};

// Every bit.
const ALL: u64 = 18446744073709551615;

// Outline n of a folder, summarized.
fn summary_case(rt: &(impl Files + Print), folder: u8, n: u64) -> u64
    ensures { result ≡ n }
{
    let policies = stored::sheet(rt, folder, n, b'p');
    let outline = stored::sheet(rt, folder, n, b'o');
    let mut out = [0u8; report::SUMMARY_ROOM];
    let k = report::report_summary(policies.text(), outline.text(), &mut out);
    stored::announced(rt, n);
    files::print(rt, &out, k);
    n
}

pub(crate) fn summaries(rt: &(impl Files + Print), folder: u8, count: u64) -> u64
    ensures { result ≡ count }
{
    stored::each(count, |n| summary_case(rt, folder, n))
}

// The lean judge along a trace, a line for each step; how many there are.
fn follow(
    rt: &impl Print,
    edges: &[u8],
    local: u32,
    trace: &[u32],
    marks: &[u64; POLICIES],
) -> usize
    ensures { result ≡ length trace.now / step_fields }
{
    let mut sets = [1u8; SETS];
    let mut pairs = [1u8; PAIR_SETS];
    let mut possible = [1u8; POLICIES];
    let mut created = [0u32; MOST_CREATED];
    let mut unclosed = [0u8; POLICIES];
    let mut order = [0u8; MOST_UNCLOSED];
    let mut numbers = [0u64, 0, 0, 0];
    let steps = trace.len() / STEP_FIELDS;
    for i in 0..steps {
        let code = api_c::lean::wiforekun_judge_lean_parts(
            marks,
            edges,
            local,
            &mut sets,
            &mut pairs,
            &mut possible,
            &mut created,
            &mut unclosed,
            &mut order,
            &mut numbers,
            trace[STEP_FIELDS * i],
            trace[STEP_FIELDS * i + 1],
            trace[STEP_FIELDS * i + 2],
        );
        print::number(rt, code as u64 / 256, b" ");
        print::number(rt, code as u64 % 256, b"\n");
    }
    steps
}

// The numbers of a table, each after a space, and a line feed; how many there are.
pub(crate) fn numbers(rt: &impl Print, marks: &[u64]) -> usize
    ensures { result ≡ length marks.now }
{
    for m in marks {
        let _ = rt.write_all(b" ");
        print::number(rt, *m, b"");
    }
    let _ = rt.write_all(b"\n");
    marks.len()
}

// The same marks, one bit higher.
fn higher(marks: &[u64; POLICIES]) -> [u64; POLICIES]
    ensures { length result ≡ policies }
{
    marks.map(|m| m << 1)
}

// All lines of three tables.
fn judged(rt: &impl Print, n: u64, edges: &[u8], local: u32, nodes: &[u8], trace: &[u32]) -> u64
    ensures { result ≡ n }
{
    let mut marks = [0u64; POLICIES];
    api_c::lean::wiforekun_summary(edges, local, nodes, &mut marks);
    let _ = rt.write_all(b"marks");
    numbers(rt, &marks);
    follow(rt, edges, local, trace, &marks);
    let others = higher(&marks);
    follow(rt, edges, local, trace, &others);
    follow(rt, edges, local, trace, &[ALL; POLICIES]);
    n
}

// No sheet of these cases is refused.
fn outline(rt: &impl Print, n: u64, edges: &[u8], local: u32, text: &[u8], trace: &[u32]) -> u64
    ensures { result ≡ n }
{
    let mut nodes = [0u8; NODE_TABLE];
    match sheet_reader::read_outline(text, &mut nodes) {
        Ok(k) => judged(rt, n, edges, local, &nodes[0..k * NODE_FIELDS], trace),
        Err(_) => n,
    }
}

fn steps(rt: &impl Print, n: u64, edges: &[u8], local: u32, text: &[u8], trace_text: &[u8]) -> u64
    ensures { result ≡ n }
{
    let mut trace = [0u32; STEP_TABLE];
    match sheet_reader::read_trace(trace_text, &mut trace) {
        Ok(k) => outline(rt, n, edges, local, text, &trace[0..k * STEP_FIELDS]),
        Err(_) => n,
    }
}

fn sheets(rt: &impl Print, n: u64, policies: &[u8], text: &[u8], trace_text: &[u8]) -> u64
    ensures { result ≡ n }
{
    let mut edges = [0u8; EDGE_TABLE];
    match sheet_reader::read_policies(policies, &mut edges) {
        Ok(sheet) => steps(
            rt,
            n,
            &edges[0..sheet.edges * EDGE_FIELDS],
            u32::from(sheet.local),
            text,
            trace_text,
        ),
        Err(_) => n,
    }
}

fn case(rt: &(impl Files + Print), n: u64) -> u64
    ensures { result ≡ n }
{
    let policies = stored::sheet(rt, b'l', n, b'p');
    let outline = stored::sheet(rt, b'l', n, b'o');
    let trace = stored::sheet(rt, b'l', n, b't');
    stored::announced(rt, n);
    sheets(rt, n, policies.text(), outline.text(), trace.text())
}

pub(crate) fn all(rt: &(impl Files + Print), count: u64) -> u64
    ensures { result ≡ count }
{
    stored::each(count, |n| case(rt, n))
}
