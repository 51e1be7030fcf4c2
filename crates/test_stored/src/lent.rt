// The arrays that the judge is lent, and how many of their places a call changes.
ghost use Rattle.std.specs.Prelude.{◌≡◌, ◌≤◌, ◌*◌};
ghost use Rattle.usage.specs.declared.RawStep.{RawStep};
ghost use Rattle.usage.specs.Limits.{policies, most_created, most_unclosed};
ghost use Rattle.monitor_sets.specs.Instances.{set_places};
ghost use Rattle.api_c.specs.Codes.{code_of};
ghost use Rattle.api_c.specs.Parts.{judge_parts};
ghost use Rattle.test_stored.specs.Code.{edge_to, lent_parts};

use crate::print;
use monitor_sets::SETS;
use monitor_state::PAIR_SETS;
use usage::{EDGE_FIELDS, MOST_CREATED, MOST_UNCLOSED, POLICIES};

#[derive(Clone, Copy)]
pub struct Lent {
    pub sets: [u8; SETS],
    pub possible: [u8; POLICIES],
    pub created: [u32; MOST_CREATED],
    pub unclosed: [u8; POLICIES],
    pub order: [u8; MOST_UNCLOSED],
    pub numbers: [u64; 4],
}

// How many places of two tables are not the same.
pub(crate) fn differing<T: Copy + PartialEq, const N: usize>(a: &[T; N], b: &[T; N]) -> u64
    ensures { result ≤ N }
{
    let mut n: u64 = 0;
    for i in 0..N {
        if a[i] != b[i] {
            n += 1;
        }
    }
    n
}

// How many places of all arrays are not the same.
fn changed(a: &Lent, b: &Lent) -> u64
    ensures { result ≤ 1000 }
{
    differing(&a.sets, &b.sets)
        + differing(&a.possible, &b.possible)
        + differing(&a.created, &b.created)
        + differing(&a.unclosed, &b.unclosed)
        + differing(&a.order, &b.order)
        + differing(&a.numbers, &b.numbers)
}

// What a call answers, and how many places of the arrays are then not as they were lent.
#[derive(Clone, Copy)]
struct Left {
    pub code: u32,
    pub changed: u64,
}

// A step, under the past that `local` tells. The one edge matches no event that is taken.
fn judged(local: u32, s: Lent, kind: u32, a: u32, b: u32) -> Left
    ensures { result.code ≡ code_of (judge_parts (edge_to 7) local (lent_parts s) (record { kind = kind; a = a; b = b })).verdict }
{
    let mut edges = [0u8; EDGE_FIELDS];
    edges[5] = 7;
    let mut sets = s.sets;
    let mut pairs = [1u8; PAIR_SETS];
    let mut possible = s.possible;
    let mut created = s.created;
    let mut unclosed = s.unclosed;
    let mut order = s.order;
    let mut numbers = s.numbers;
    let code = api_c::wiforekun_judge_parts(
        &edges,
        local,
        &mut sets,
        &mut pairs,
        &mut possible,
        &mut created,
        &mut unclosed,
        &mut order,
        &mut numbers,
        kind,
        a,
        b,
    );
    let after = Lent {
        sets,
        possible,
        created,
        unclosed,
        order,
        numbers,
    };
    Left {
        code,
        changed: changed(&s, &after),
    }
}

// The line of such a call: its number, the answer and its detail, and how many places are changed.
pub(crate) fn show(
    rt: &impl Print,
    call: u64,
    local: u32,
    s: Lent,
    kind: u32,
    a: u32,
    b: u32,
) -> u64
    ensures { result ≡ call }
{
    let left = judged(local, s, kind, a, b);
    print::told(rt, call, left.code, b" ");
    print::number(rt, left.changed, b"\n");
    call
}
