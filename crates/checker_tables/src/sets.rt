// Eight sets at once, one for each state of a start: loops without a branch, which the processor takes eight numbers at a time.
// Kept: a loop for each operation and no closure that says it, so that each is known to be taken so.
ghost use Rattle.std.specs.Prelude.{◌≡◌, cond, ℕ, ◌+◌, ◌<◌, ◌≤◌, ◌/◌, length, get_or};
ghost use Rattle.std.specs.Int.Bits.{bit_or};
ghost use Rattle.usage.specs.Limits.{states};
ghost use Rattle.automaton.specs.Mask.{has};
ghost use Rattle.checker_account.specs.Tables.{over, kept, kept_in};
ghost use Rattle.checker_tables.specs.ByState.{ByState};

use usage::STATES;

pub(crate) type PerState = [u16; STATES];

// The eight entries from place i on.
pub(crate) fn entries(t: &[u16], i: usize) -> PerState
    requires { i + states ≤ length t.now }
    ensures { ByState states (λ q. get_or t.now (i + q) 0) result }
{
    let mut r = [0u16; STATES];
    for q in 0..STATES {
        r[q] = t[i + q];
    }
    r
}

// The states v as ends, with the resource as it was.
fn keep(m: usize, v: u16) -> u16
    ensures { result ≡ kept m v }
{
    let w = v % 256;
    if m == 0 { w } else { w * 256 }
}

// Each of eight sets as ends.
fn keep_each(m: usize, mut v: PerState) -> PerState
    ensures { ByState states (λ q. kept m (get_or v q 0)) result }
{
    for q in 0..STATES {
        v[q] = keep(m, v[q]);
    }
    v
}

// The same with entry e: where the second dynamic resource is created by the end, there are none.
pub(crate) fn keep_in(e: usize, v: PerState) -> PerState
    ensures { ByState states (λ q. kept_in e (get_or v q 0)) result }
{
    if crate::numbers::is_late(e) {
        return [0u16; STATES];
    }
    keep_each(crate::numbers::meaning(e), v)
}

// Their upper halves.
pub(crate) fn upper_each(mut v: PerState) -> PerState
    ensures { ByState states (λ q. get_or v q 0 / 256) result }
{
    for q in 0..STATES {
        v[q] /= 256;
    }
    v
}

// Eight sets, each joined to one of eight others.
pub(crate) fn join_each(mut v: PerState, w: PerState) -> PerState
    ensures { ByState states (λ q. bit_or (get_or v q 0) (get_or w q 0)) result }
{
    for q in 0..STATES {
        v[q] |= w[q];
    }
    v
}

// The set e joined to each of the eight sets w whose set in v has the state s.
fn join_where(mut w: PerState, v: PerState, s: u32, e: u16) -> PerState
    requires { s < states }
    ensures { ByState states (λ q. bit_or (get_or w q 0) (cond (has (get_or v q 0) s) e 0)) result }
{
    for q in 0..STATES {
        let more = if (v[q] >> s) & 1 == 1 { e } else { 0 };
        w[q] |= more;
    }
    w
}

// The union of the eight entries from place i on, over the states of each of the sets v.
pub(crate) fn union_each(t: &[u16], i: usize, v: PerState) -> PerState
    requires { i + states ≤ length t.now }
    ensures { ByState states (λ q. over (λ j. get_or t.now (i + j) 0) (get_or v q 0)) result }
{
    let mut r = [0u16; STATES];
    for s in 0..STATES {
        let e = t[i + s];
        let next = join_where(r, v, s as u32, e);
        r = next;
    }
    r
}
