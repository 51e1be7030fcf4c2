// Calls of the judge about the highest number and retirings: 27 and 42 at their borders; what a retiring joins and closes up; 20, 21, 24,
// 28 and 42 about it; and what an opening of a local policy resets. Each line has what the calls on orders have.
ghost use Rattle.std.specs.Prelude.{◌≡◌};
ghost use Rattle.test_stored.specs.Code.{lent_parts, living, apart, opening};

use crate::lent::Lent;
use crate::{lent, order_calls};
use monitor_sets::{FIRST_CREATED, RETIREES, SETS};
use usage::{MOST_CREATED, MOST_UNCLOSED, POLICIES};

// A state like the start, but that so many of these two numbers are live, and for the highest.
fn living(count: u64, first: u32, second: u32, highest: u64) -> Lent
    ensures { lent_parts result ≡ living count first second highest }
{
    let sets = [1u8; SETS];
    let possible = [1u8; POLICIES];
    let mut created = [0u32; MOST_CREATED];
    created[0] = first;
    created[1] = second;
    let unclosed = [0u8; POLICIES];
    let order = [0u8; MOST_UNCLOSED];
    Lent {
        sets,
        possible,
        created,
        unclosed,
        order,
        numbers: [count, 0, 0, highest],
    }
}

// The same state, but that of policy 0 the first live resource's instance may be in state 2 alone, and those of the retired in state 1.
fn apart(mut s: Lent) -> Lent
    ensures { lent_parts result ≡ apart (lent_parts s) }
{
    s.sets[FIRST_CREATED] = 4;
    s.sets[RETIREES] = 2;
    s
}

// The same state, but that policy 1 is open.
fn opened(mut s: Lent) -> Lent
    ensures { lent_parts result ≡ opening (lent_parts s) }
{
    s.unclosed[1] = 1;
    s.order[0] = 1;
    s.numbers[2] = 1;
    s
}

// A highest number below, at and above a live one, in order and in none; with none live; and above 32 bits.
fn highest_calls(rt: &impl Print) -> u64
    ensures { result ≡ 119 }
{
    lent::show(rt, 108, 0, living(2, 16, 40, 40), 0, 1, 5);
    lent::show(rt, 109, 0, living(2, 16, 40, 39), 0, 1, 5);
    lent::show(rt, 110, 0, living(2, 16, 40, 41), 0, 1, 5);
    lent::show(rt, 111, 0, living(2, 40, 16, 40), 0, 1, 5);
    lent::show(rt, 112, 0, living(2, 40, 16, 39), 0, 1, 5);
    lent::show(rt, 113, 0, living(0, 40, 16, 0), 0, 1, 5);
    lent::show(rt, 114, 0, living(0, 40, 16, 4294967295), 0, 1, 5);
    lent::show(rt, 115, 0, living(0, 40, 16, 4294967296), 0, 1, 5);
    lent::show(rt, 116, 0, living(2, 16, 40, 4294967336), 0, 1, 5);
    lent::show(rt, 117, 0, living(2, 16, 40, 18446744073709551615), 0, 1, 5);
    lent::show(
        rt,
        118,
        0,
        order_calls::halted(living(0, 40, 16, 4294967296)),
        4,
        0,
        0,
    );
    119
}

// Creates above the highest number, equal to it and below it.
fn create_calls(rt: &impl Print) -> u64
    ensures { result ≡ 128 }
{
    lent::show(rt, 119, 0, living(2, 16, 40, 40), 0, 0, 41);
    lent::show(rt, 120, 0, living(2, 16, 40, 40), 0, 0, 40);
    lent::show(rt, 121, 0, living(2, 16, 40, 40), 0, 0, 39);
    lent::show(rt, 122, 0, living(2, 16, 40, 40), 0, 0, 16);
    lent::show(rt, 123, 0, living(2, 16, 40, 41), 0, 0, 41);
    lent::show(rt, 124, 0, living(0, 40, 16, 20), 0, 0, 20);
    lent::show(rt, 125, 0, living(0, 40, 16, 20), 0, 0, 21);
    lent::show(rt, 126, 0, living(0, 40, 16, 65535), 0, 0, 65535);
    lent::show(rt, 127, 0, living(0, 40, 16, 4294967295), 0, 0, 65535);
    128
}

// What a retiring joins and closes up, and what is refused.
fn retire_calls(rt: &impl Print) -> u64
    ensures { result ≡ 141 }
{
    lent::show(rt, 128, 0, apart(living(2, 16, 40, 40)), 3, 16, 0);
    lent::show(rt, 129, 0, apart(living(2, 16, 40, 40)), 3, 40, 0);
    lent::show(rt, 130, 1, apart(living(2, 16, 40, 40)), 3, 16, 0);
    lent::show(rt, 131, 0, living(2, 16, 40, 40), 3, 3, 0);
    lent::show(rt, 132, 0, living(2, 16, 40, 40), 3, 17, 0);
    lent::show(rt, 133, 0, living(1, 16, 40, 40), 3, 40, 0);
    lent::show(rt, 134, 0, living(2, 16, 40, 40), 3, 65535, 0);
    lent::show(rt, 135, 0, living(2, 16, 40, 40), 3, 65536, 0);
    lent::show(rt, 136, 0, living(2, 16, 40, 40), 3, 16, 1);
    lent::show(rt, 137, 0, living(2, 16, 40, 40), 4, 16, 0);
    lent::show(
        rt,
        138,
        0,
        order_calls::halted(living(2, 16, 40, 40)),
        3,
        16,
        0,
    );
    lent::show(
        rt,
        139,
        0,
        order_calls::halted(living(2, 16, 40, 39)),
        3,
        16,
        0,
    );
    lent::show(rt, 140, 0, living(1, 16, 40, 40), 0, 1, 40);
    141
}

// It is judged by what is kept, of a policy that is open; and an opening resets the set of the retired.
fn kept_calls(rt: &impl Print) -> u64
    ensures { result ≡ 145 }
{
    lent::show(
        rt,
        141,
        0,
        order_calls::broken(opened(living(2, 16, 40, 40))),
        3,
        16,
        0,
    );
    lent::show(
        rt,
        142,
        0,
        order_calls::broken(living(2, 16, 40, 40)),
        3,
        16,
        0,
    );
    lent::show(rt, 143, 0, apart(living(2, 16, 40, 40)), 1, 0, 0);
    lent::show(rt, 144, 1, apart(living(2, 16, 40, 40)), 1, 0, 0);
    145
}

pub(crate) fn calls(rt: &impl Print) -> u64
    ensures { result ≡ 145 }
{
    highest_calls(rt);
    create_calls(rt);
    retire_calls(rt);
    kept_calls(rt)
}
