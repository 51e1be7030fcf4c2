// Calls of the judge at the borders of 21, 41 and 42, and on states whose kept sets disagree with those of their instances. Each line has
// the number of the call, the answer and its detail; at a border also the count and the flag that the call leaves.
ghost use Rattle.std.specs.Prelude.{◌≡◌, get_or};
ghost use Rattle.usage.specs.declared.RawStep.{RawStep};
ghost use Rattle.api_c.specs.Codes.{code_of};
ghost use Rattle.api_c.specs.Parts.{judge_parts};
ghost use Rattle.test_stored.specs.Code.{edge_to, bordering, disagreeing};

use crate::print;
use monitor_sets::SETS;
use monitor_state::PAIR_SETS;
use usage::{EDGE_FIELDS, MOST_CREATED, MOST_UNCLOSED, POLICIES};

// What a call of the judge answers, and the numbers that it leaves.
#[derive(Clone, Copy)]
struct Left {
    pub code: u32,
    pub count: u64,
    pub flag: u64,
}

// The line of a call of the judge.
fn show_left(rt: &impl Print, call: u64, left: Left) -> u32
    ensures { result ≡ left.code }
{
    print::told(rt, call, left.code, b" ");
    print::number(rt, left.count, b" ");
    print::number(rt, left.flag, b"\n");
    left.code
}

// A step from a state like the start, but for the count, the flag and the first two created numbers, the second of them the highest. The
// one edge leads to `to`.
fn judged(to: u8, count: u64, flag: u64, first: u32, second: u32, kind: u32, a: u32, b: u32) -> Left
    ensures code_value { result.code ≡ code_of
        (judge_parts (edge_to to) 0 (bordering count flag first second) (record { kind = kind; a = a; b = b })).verdict }
    ensures count_value { result.count
        ≡ get_or (judge_parts (edge_to to) 0 (bordering count flag first second) (record { kind = kind; a = a; b = b })).parts.numbers 0 0 }
    ensures flag_value { result.flag
        ≡ get_or (judge_parts (edge_to to) 0 (bordering count flag first second) (record { kind = kind; a = a; b = b })).parts.numbers 1 0 }
{
    let mut edges = [0u8; EDGE_FIELDS];
    edges[5] = to;
    let mut sets = [1u8; SETS];
    let mut pairs = [1u8; PAIR_SETS];
    let mut possible = [1u8; POLICIES];
    let mut created = [0u32; MOST_CREATED];
    created[0] = first;
    created[1] = second;
    let mut unclosed = [0u8; POLICIES];
    let mut order = [0u8; MOST_UNCLOSED];
    let highest = second as u64;
    let mut numbers = [count, flag, 0, highest];
    let code = api_c::wiforekun_judge_parts(
        &edges,
        0,
        &mut sets,
        &mut pairs,
        &mut possible,
        &mut created,
        &mut unclosed,
        &mut order,
        &mut numbers,
        kind,
        a,
        b,
    );
    let count_left = numbers[0];
    let flag_left = numbers[1];
    Left {
        code,
        count: count_left,
        flag: flag_left,
    }
}

// A step from a state that was never reached: like the start, but that policy 0 has two openings that are not closed, may be in the states
// `kept`, and its instance of resource 0 in the states `set`. The edge matches no event that is taken.
fn judged_kept(kept: u8, set: u8, kind: u32, a: u32, b: u32) -> u32
    ensures { result ≡ code_of (judge_parts (edge_to 7) 0 (disagreeing kept set) (record { kind = kind; a = a; b = b })).verdict }
{
    let mut edges = [0u8; EDGE_FIELDS];
    edges[5] = 7;
    let mut sets = [1u8; SETS];
    let mut pairs = [1u8; PAIR_SETS];
    sets[0] = set;
    let mut possible = [1u8; POLICIES];
    possible[0] = kept;
    let mut created = [0u32; MOST_CREATED];
    let mut unclosed = [0u8; POLICIES];
    unclosed[0] = 2;
    let mut order = [0u8; MOST_UNCLOSED];
    let mut numbers = [0u64, 0, 2, 0];
    api_c::wiforekun_judge_parts(
        &edges,
        0,
        &mut sets,
        &mut pairs,
        &mut possible,
        &mut created,
        &mut unclosed,
        &mut order,
        &mut numbers,
        kind,
        a,
        b,
    )
}

// The judge: the step (21), the edge (41), the created resources (42). The number of the next call is handed back.
pub(crate) fn step_calls(rt: &impl Print) -> u64
    ensures { result ≡ 17 }
{
    show_left(rt, 1, judged(7, 0, 0, 0, 0, 0, 31, 15));
    show_left(rt, 2, judged(7, 0, 0, 0, 0, 0, 32, 15));
    show_left(rt, 3, judged(7, 0, 0, 0, 0, 0, 1, 65536));
    show_left(rt, 4, judged(7, 0, 0, 0, 0, 4, 0, 0));
    show_left(rt, 5, judged(7, 0, 0, 0, 0, 1, 7, 0));
    show_left(rt, 6, judged(7, 0, 0, 0, 0, 1, 8, 0));
    show_left(rt, 7, judged(7, 0, 0, 0, 0, 1, 7, 1));
    show_left(rt, 8, judged(7, 0, 0, 0, 0, 2, 7, 1));
    show_left(rt, 9, judged(8, 0, 0, 0, 0, 0, 31, 15));
    show_left(rt, 10, judged(7, 2, 0, 16, 65535, 0, 31, 15));
    show_left(rt, 11, judged(7, 2, 0, 15, 65535, 0, 31, 15));
    show_left(rt, 12, judged(7, 2, 0, 16, 65536, 0, 31, 15));
    show_left(rt, 13, judged(7, 2, 0, 16, 16, 0, 31, 15));
    show_left(rt, 14, judged(7, 65, 0, 16, 17, 0, 31, 15));
    show_left(rt, 15, judged(8, 65, 0, 16, 16, 4, 0, 0));
    show_left(rt, 16, judged(7, 0, 0, 0, 0, 0, 0, 16));
    17
}

// The judge: the flag, of a halted state (20) and of none (42), which it leaves as it was.
pub(crate) fn flag_calls(rt: &impl Print) -> u64
    ensures { result ≡ 27 }
{
    show_left(rt, 17, judged(7, 0, 1, 0, 0, 0, 31, 15));
    show_left(rt, 18, judged(7, 0, 1, 0, 0, 4, 0, 0));
    show_left(rt, 19, judged(7, 65, 1, 16, 17, 0, 31, 15));
    show_left(rt, 20, judged(7, 0, 2, 0, 0, 0, 31, 15));
    show_left(rt, 21, judged(7, 0, 7, 0, 0, 0, 31, 15));
    show_left(rt, 22, judged(7, 0, 7, 0, 0, 4, 0, 0));
    show_left(rt, 23, judged(8, 0, 7, 0, 0, 0, 31, 15));
    show_left(rt, 24, judged(7, 0, 256, 0, 0, 0, 31, 15));
    show_left(rt, 25, judged(7, 0, 4294967296, 0, 0, 0, 31, 15));
    show_left(rt, 26, judged(7, 0, 18446744073709551615, 0, 0, 0, 0, 16));
    27
}

// What is kept of a policy against what its instances may be in, either way: an opening, a closing and an event of each.
pub(crate) fn kept_calls(rt: &impl Print) -> u64
    ensures { result ≡ 52 }
{
    print::line(rt, 46, judged_kept(64, 1, 1, 0, 0));
    print::line(rt, 47, judged_kept(64, 1, 2, 0, 0));
    print::line(rt, 48, judged_kept(64, 1, 0, 1, 0));
    print::line(rt, 49, judged_kept(1, 64, 1, 0, 0));
    print::line(rt, 50, judged_kept(1, 64, 2, 0, 0));
    print::line(rt, 51, judged_kept(1, 64, 0, 1, 0));
    52
}
