// Calls of the judge on orders of unclosed openings, right and damaged: 25, 26 and 32 at their borders, the order in 42, and a step that is
// violated. After the answer and its detail each line has how many places of the lent arrays are not as they were.
ghost use Rattle.std.specs.Prelude.{◌≡◌};
ghost use Rattle.test_stored.specs.Code.{lent_parts, ordering, halting, breaking};

use crate::lent;
use crate::lent::Lent;
use monitor_sets::SETS;
use usage::{MOST_CREATED, MOST_UNCLOSED, POLICIES};

// A state like the start, but for the order of unclosed openings: its first entry, all others, its length and the counts of policies 1
// and 6.
fn in_order(first: u8, rest: u8, depth: u64, of_1: u8, of_6: u8) -> Lent
    ensures { lent_parts result ≡ ordering first rest depth of_1 of_6 }
{
    let sets = [1u8; SETS];
    let possible = [1u8; POLICIES];
    let created = [0u32; MOST_CREATED];
    let mut unclosed = [0u8; POLICIES];
    unclosed[1] = of_1;
    unclosed[6] = of_6;
    let mut order = [rest; MOST_UNCLOSED];
    order[0] = first;
    Lent {
        sets,
        possible,
        created,
        unclosed,
        order,
        numbers: [0, 0, depth, 0],
    }
}

// Openings at the limit: 63 and 64 are unclosed.
fn opening_calls(rt: &impl Print) -> u64
    ensures { result ≡ 60 }
{
    lent::show(rt, 52, 0, in_order(1, 6, 63, 1, 62), 1, 1, 0);
    lent::show(rt, 53, 0, in_order(1, 6, 63, 1, 62), 1, 6, 0);
    lent::show(rt, 54, 0, in_order(1, 6, 64, 1, 63), 1, 1, 0);
    lent::show(rt, 55, 0, in_order(1, 6, 64, 1, 63), 1, 2, 0);
    lent::show(rt, 56, 0, in_order(1, 6, 64, 1, 63), 2, 6, 0);
    lent::show(rt, 57, 0, in_order(1, 6, 64, 1, 63), 2, 1, 0);
    lent::show(rt, 58, 0, in_order(1, 6, 64, 1, 63), 2, 2, 0);
    lent::show(rt, 59, 0, in_order(1, 6, 64, 1, 63), 0, 1, 0);
    60
}

// Closings of what was opened last, of what was opened before it, and of what is not open.
fn closing_calls(rt: &impl Print) -> u64
    ensures { result ≡ 65 }
{
    lent::show(rt, 60, 0, in_order(1, 255, 1, 1, 0), 1, 6, 0);
    lent::show(rt, 61, 0, in_order(1, 255, 1, 1, 0), 2, 1, 0);
    lent::show(rt, 62, 0, in_order(1, 255, 1, 1, 0), 2, 6, 0);
    lent::show(rt, 63, 0, in_order(1, 6, 2, 1, 1), 2, 1, 0);
    lent::show(rt, 64, 0, in_order(1, 6, 2, 1, 1), 2, 6, 0);
    65
}

// The same state halted (20), or with a policy that what is kept of it breaks.
pub(crate) fn halted(mut s: Lent) -> Lent
    ensures { lent_parts result ≡ halting (lent_parts s) }
{
    s.numbers[1] = 1;
    s
}

pub(crate) fn broken(mut s: Lent) -> Lent
    ensures { lent_parts result ≡ breaking (lent_parts s) }
{
    s.possible[1] = 64;
    s
}

fn stopped_calls(rt: &impl Print) -> u64
    ensures { result ≡ 70 }
{
    lent::show(rt, 65, 0, halted(in_order(1, 6, 64, 1, 63)), 1, 6, 0);
    lent::show(rt, 66, 0, halted(in_order(1, 6, 64, 1, 63)), 2, 1, 0);
    lent::show(rt, 67, 0, broken(in_order(1, 6, 2, 1, 1)), 1, 6, 0);
    lent::show(rt, 68, 0, broken(in_order(1, 6, 2, 1, 1)), 2, 6, 0);
    lent::show(rt, 69, 0, broken(in_order(1, 6, 2, 1, 1)), 2, 1, 0);
    70
}

// Orders that are too long, that hold what is no policy, and that disagree with the counts; and one of which nothing counts.
fn damaged_calls(rt: &impl Print) -> u64
    ensures { result ≡ 83 }
{
    lent::show(rt, 70, 0, in_order(1, 6, 65, 1, 64), 0, 1, 0);
    lent::show(
        rt,
        71,
        0,
        in_order(1, 6, 18446744073709551615, 1, 64),
        0,
        1,
        0,
    );
    lent::show(rt, 72, 0, in_order(1, 6, 4294967298, 1, 1), 0, 1, 0);
    lent::show(rt, 73, 0, in_order(8, 6, 64, 0, 63), 0, 1, 0);
    lent::show(rt, 74, 0, in_order(9, 6, 64, 1, 63), 0, 1, 0);
    lent::show(rt, 75, 0, in_order(1, 255, 2, 1, 0), 0, 1, 0);
    lent::show(rt, 76, 0, in_order(1, 6, 64, 1, 62), 0, 1, 0);
    lent::show(rt, 77, 0, in_order(1, 6, 64, 1, 64), 0, 1, 0);
    lent::show(rt, 78, 0, in_order(6, 6, 64, 1, 63), 0, 1, 0);
    lent::show(rt, 79, 0, in_order(1, 6, 2, 0, 2), 0, 1, 0);
    lent::show(rt, 80, 0, in_order(1, 6, 0, 1, 0), 0, 1, 0);
    lent::show(rt, 81, 0, in_order(1, 6, 0, 0, 0), 0, 1, 0);
    lent::show(rt, 82, 0, halted(in_order(1, 6, 65, 1, 64)), 3, 0, 0);
    83
}

pub(crate) fn order_calls(rt: &impl Print) -> u64
    ensures { result ≡ 83 }
{
    opening_calls(rt);
    closing_calls(rt);
    stopped_calls(rt);
    damaged_calls(rt)
}
