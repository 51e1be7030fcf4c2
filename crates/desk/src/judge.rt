// The judge's state in the bytes, and one step of the judge that is asked.
ghost use Rattle.std.specs.Prelude.{ℕ, ◌+◌, ◌*◌, ◌<◌, ◌≤◌, ◌≡◌, cond, eqb, length};
ghost use Rattle.std.proofs.Math.Option.{some};
ghost use Rattle.usage.specs.Limits.{policies, most_created, most_unclosed, most_edges};
ghost use Rattle.usage.specs.Past.{Step};
ghost use Rattle.usage.specs.Judge.{step_of};
ghost use Rattle.automaton.specs.Mask.{has};
ghost use Rattle.monitor_sets.specs.Instances.{set_places};
ghost use Rattle.monitor_state.specs.Judge.{state_ok_lem, pair_sets};
ghost use Rattle.monitor_lean.specs.Lean.{judge_by};
ghost use Rattle.desk.specs.Layout.{desk_bytes, edges_at, created_at, possible_at, unclosed_at, order_at, sets_at, pairs_at, byte_at, word_at, head_in_lem, Put, Within};
ghost use Rattle.desk.specs.JudgeBytes.{held_in_lem, judge_in, sizes_in_lem, head_for, SmallSizes, Small, Copied, Arrays, JudgedIn, Stored};
ghost use Rattle.desk.specs.State.{edges_in, local_in, summary_in, looks_of};

use crate::{Head, Held};
use monitor_sets::SETS;
use monitor_state::{PAIR_SETS, Sizes, State, Told};
use usage::{EDGE_FIELDS, EDGE_TABLE, MOST_CREATED, MOST_UNCLOSED, POLICIES, RawStep, Reason};

// Where each part stands, as specs/Layout has it.
const CREATED_AT: usize = 1824;

const POSSIBLE_AT: usize = 2080;

const UNCLOSED_AT: usize = 2088;

const ORDER_AT: usize = 2096;

const SETS_AT: usize = 2160;

// The sets of the policies about two resources; none can be written yet.
const PAIRS_AT: usize = 2816;

fn held_in(b: &[u8]) -> Held
    requires { desk_bytes ≤ length b.now }
    ensures { result ≡ held_in_lem b.now }
{
    Held {
        sets: crate::bytes::bytes_at(b, SETS_AT),
        possible: crate::bytes::bytes_at(b, POSSIBLE_AT),
        numbers: crate::bytes::words_at(b, CREATED_AT),
        counts: crate::bytes::bytes_at(b, UNCLOSED_AT),
        order: crate::bytes::bytes_at(b, ORDER_AT),
    }
}

fn sizes_in(h: Head) -> Sizes
    ensures { result ≡ sizes_in_lem h }
{
    Sizes {
        count: h.count as usize,
        highest: h.highest,
        depth: h.depth as usize,
        halted: h.halted == 1,
    }
}

// What the judge's own 42 asks.
pub(crate) fn state_ok(b: &[u8], h: Head) -> bool
    requires { desk_bytes ≤ length b.now }
    ensures { result ≡ state_ok_lem (judge_in b.now h) }
{
    let k = held_in(b);
    let z = sizes_in(h);
    if !monitor_sets::created::live_ok(&k.numbers, z.count, z.highest) {
        return false;
    }
    monitor_sets::order::order_ok(&k.order, z.depth, &k.counts)
}

fn held_out(b: &mut [u8], k: &Held)
    requires { desk_bytes ≤ length b.old }
    ensures { Copied b.old k.now b.new }
{
    crate::bytes::bytes_out(b, SETS_AT, &k.sets);
    crate::bytes::bytes_out(b, POSSIBLE_AT, &k.possible);
    crate::bytes::words_out(b, CREATED_AT, &k.numbers);
    crate::bytes::bytes_out(b, UNCLOSED_AT, &k.counts);
    crate::bytes::bytes_out(b, ORDER_AT, &k.order);
}

fn arrays_out(b: &mut [u8], s: State)
    requires { desk_bytes ≤ length b.old }
    ensures { Arrays b.old s b.new }
{
    crate::bytes::bytes_out(b, PAIRS_AT, &s.tracked.pairs);
    let k = Held {
        sets: s.tracked.sets,
        possible: s.tracked.possible,
        numbers: s.created.numbers,
        counts: s.unclosed.counts,
        order: s.unclosed.order,
    };
    held_out(b, &k);
}

// The head is written, with these numbers of the judge.
pub(crate) fn sizes_out(b: &mut [u8], h: Head, z: Sizes, positions: u32)
    requires desk_bytes_in_bounds { desk_bytes ≤ length b.old }
    requires small_sizes { SmallSizes z }
    ensures b_after { head_in_lem b.new ≡ head_for h z positions }
    ensures within { Within b.old 0 edges_at b.new }
{
    let g = Head {
        positions,
        halted: u32::from(z.halted),
        count: z.count as u32,
        highest: z.highest,
        depth: z.depth as u32,
        ..h
    };
    crate::heading::head_out(b, g);
}

// The head and the judge's part of the bytes are written.
pub(crate) fn judge_out(b: &mut [u8], h: Head, s: State, positions: u32)
    requires desk_bytes_in_bounds { desk_bytes ≤ length b.old }
    requires small { Small s }
    ensures { Stored b.old h s positions b.new }
{
    let z = Sizes {
        count: s.created.count,
        highest: s.created.highest,
        depth: s.unclosed.depth,
        halted: s.halted,
    };
    arrays_out(b, s);
    sizes_out(b, h, z, positions);
}

// The policies that a step is judged by: those that the summary in the bytes marks at it, or all.
fn looked_at(b: &[u8], lean: bool, step: RawStep) -> u8
    requires { desk_bytes ≤ length b.now }
    ensures { (read : Step) → step_of step ≡ some read → (p : ℕ) → p < policies
        → has result p ≡ looks_of lean (summary_in b.now) read p }
{
    if lean {
        let marks: [u64; POLICIES] = crate::bytes::longs_at(b, crate::SUMMARY_AT);
        return monitor_lean::looked_at(&marks, step);
    }
    monitor::ALL_POLICIES
}

// One step, judged from the bytes: by the lean judge with the summary that they hold, or by the full one. The sets of pairs are lent where
// they stand.
pub(crate) fn judged(b: &mut [u8], h: Head, lean: bool, step: RawStep) -> Told<Reason>
    requires desk_bytes_in_bounds { desk_bytes ≤ length b.old }
    requires edges_le_most_edges { h.edges ≤ most_edges }
    ensures judged_in { JudgedIn (judge_by (looks_of lean (summary_in b.old)) (edges_in b.old h) (local_in h) (judge_in b.old h) step)
        b.old result b.new }
    ensures b_len_unchanged { length b.new ≡ length b.old }
{
    let looked = looked_at(b, lean, step);
    let e = EDGE_FIELDS * h.edges as usize;
    let edges: [u8; EDGE_TABLE] = crate::bytes::bytes_at(b, crate::EDGES_AT);
    let mut k = held_in(b);
    let t = monitor::judge_looked(
        looked,
        &edges[0..e],
        h.policies == crate::LOCAL,
        &mut k.sets,
        &mut b[PAIRS_AT..crate::ROWS_AT],
        &mut k.possible,
        &mut k.numbers,
        &mut k.counts,
        &mut k.order,
        sizes_in(h),
        step,
    );
    if crate::steps::is_refusal(t.answer) {
        return t;
    }
    held_out(b, &k);
    t
}
