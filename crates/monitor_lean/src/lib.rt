// The lean judge (02, L11): the judge that looks, at each step, only at the policies that a summary marks there. With the exact summary of an
// outline (`checker::summary`) it answers as the full judge on the traces of that outline.
#![tactic(auto)]

ghost use Rattle.std.specs.Prelude.{ℕ, ◌<◌, ◌≤◌, ◌^◌, ◌≡◌, cond, length};
ghost use Rattle.std.proofs.Math.Option.{some};
ghost use Rattle.usage.specs.Limits.{policies};
ghost use Rattle.usage.specs.Past.{Step as Read};
ghost use Rattle.usage.specs.Judge.{step_of};
ghost use Rattle.automaton.specs.Mask.{has, union};
ghost use Rattle.monitor_state.specs.Lent.{lent_of, state_of, judgement_of};
ghost use Rattle.monitor_lean.specs.Lean.{opening_bit, mark_at, marked, lean_sized};
ghost use Rattle.monitor_lean.specs.Promise.{LeanPromise};

use monitor_sets::SETS;
use monitor_state::{Sizes, Step, Told};
use usage::{MOST_CREATED, MOST_UNCLOSED, POLICIES, RawStep, Reason};

// The bit of a policy's opening; those below it are its actions'.
const OPENING: u32 = 32;

// Policy p as a set, where its marks m have bit i, or no policy.
fn mark_bit(m: u64, i: u32, p: usize) -> u8
    requires i_le_opening_bit { i ≤ opening_bit }
    requires p_lt_policies { p < policies }
    ensures { result ≡ cond (has m i) (2 ^ p) 0 }
{
    let marked = (m >> i) & 1;
    let bit = marked as u8;
    bit << (p as u32)
}

// The policies whose marks have bit i.
fn marked_at(marks: &[u64; POLICIES], i: u32) -> u8
    requires { i ≤ opening_bit }
    ensures { result ≡ union policies (λ p. cond (mark_at marks.now p i) (2 ^ p) 0) }
{
    let mut s: u8 = 0;
    for p in 0..POLICIES {
        s |= mark_bit(marks[p], i, p);
    }
    s
}

// The policies that a step is judged by.
pub fn looked_at(marks: &[u64; POLICIES], step: RawStep) -> u8
    ensures { (read : Read) → step_of step ≡ some read → (p : ℕ) → p < policies → has result p ≡ marked marks.now read p }
{
    let Some(read) = monitor_state::read_step(step) else {
        return 0;
    };
    match read {
        Step::Event {
            action,
            resource: _r,
        } => marked_at(marks, action),
        Step::Opening { policy } => mark_bit(marks[policy], OPENING, policy),
        Step::Closing { policy: _p } => 0,
        Step::Retiring { resource: _r } => 0,
    }
}

// One step of the lean judge, over a state whose arrays are lent, with any marks at all. A slice of another length than that of the sets of
// pairs is 42.
// Kept: the arrays stand one by one: the C interface needs it.
pub fn judge_lean(
    marks: &[u64; POLICIES],
    edges: &[u8],
    local: bool,
    sets: &mut [u8; SETS],
    pairs: &mut [u8],
    possible: &mut [u8; POLICIES],
    created: &mut [u32; MOST_CREATED],
    unclosed: &mut [u8; POLICIES],
    order: &mut [u8; MOST_UNCLOSED],
    sizes: Sizes,
    step: RawStep,
) -> Told<Reason>
    ensures order_after { judgement_of result
        (lent_of sets.new pairs.new possible.new created.new
        unclosed.new order.new)
        ≡ lean_sized marks.now edges.now local
        (state_of (lent_of sets.old pairs.old possible.old created.old
        unclosed.old order.old) sizes)
        step }
    ensures pairs_len_unchanged { length pairs.new ≡ length pairs.old }
    ensures lean_promise { LeanPromise edges.now local marks.now }
{
    let looked = looked_at(marks, step);
    monitor::judge_looked(
        looked, edges, local, sets, pairs, possible, created, unclosed, order, sizes, step,
    )
}
