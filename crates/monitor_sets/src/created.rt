// The created resources: the live ones are the first `count` numbers of an array.
// Kept: the public functions take the array and the count: the C interface lends them so, and a count that is too large is refused here.
ghost use Rattle.std.specs.Prelude.{◌-◌, ◌≤◌, ◌≡◌, true, ◌&&◌, length, take};
ghost use Rattle.usage.specs.Limits.{most_created};
ghost use Rattle.usage.specs.Tests.{every};
ghost use Rattle.monitor_sets.specs.Instances.{first_created_lem};
ghost use Rattle.monitor_sets.specs.Created.{listed, distinct, dynamic, place_from, place_in, created_ok, highest_ok};
ghost use Rattle.monitor_sets.specs.Code.{rises};

use crate::{FIRST_CREATED, UNSEEN};
use usage::{LAST_RESOURCE, MOST_CREATED, STATICS};

// How many endings of numbers are told apart where numbers are compared.
const ENDINGS: usize = 1024;

// The place of x's instance among those of the live resources; that of the unseen ones where x is none of them.
fn place(live: &[u32], x: u32) -> usize
    requires { length live.now ≤ most_created }
    ensures { result ≡ place_from x first_created_lem live.now }
{
    for i in 0..live.len() {
        if live[i] == x {
            return FIRST_CREATED + i;
        }
    }
    UNSEEN
}

// Is x one of these resources? No early exit, so that several are compared at once.
fn listed_in(live: &[u32], x: u32) -> bool
    ensures { result ≡ listed x live.now }
{
    let mut found = false;
    for y in live {
        if *y == x {
            found = true;
        }
    }
    found
}

// Is each number above the one before it? No early exit, so that several are compared at once.
fn rising(live: &[u32]) -> bool
    ensures { result ≡ rises live.now (length live.now - 1) }
{
    let mut falls = false;
    for i in 1..live.len() {
        if live[i] <= live[i - 1] {
            falls = true;
        }
    }
    !falls
}

// Of rising numbers only the first and the last can be out of range, and none is listed twice.
fn rising_sound(live: &[u32]) -> bool
    requires { rises live.now (length live.now - 1) ≡ true }
    ensures { result ≡ (every dynamic live.now && distinct live.now) }
{
    match live {
        [] => true,
        [first, ..] if *first < STATICS => false,
        [.., last] => *last <= LAST_RESOURCE,
    }
}

// Is every number that of a dynamic resource, and none of them listed twice? From the last to the first. Numbers with different last bits
// are different, so a number is compared with later ones only where one of them has its last bits.
fn all_sound(live: &[u32]) -> bool
    ensures { result ≡ (every dynamic live.now && distinct live.now) }
{
    let mut seen = [false; ENDINGS];
    for i in (0..live.len()).rev() {
        let x = live[i];
        if x < STATICS || LAST_RESOURCE < x {
            return false;
        }
        let e = x as usize % ENDINGS;
        if seen[e] && listed_in(&live[i + 1..], x) {
            return false;
        }
        seen[e] = true;
    }
    true
}

// The place of x's instance: its own number if x is static; that of the unseen ones where x is neither static nor created.
pub fn place_of(created: &[u32; MOST_CREATED], count: usize, x: u32) -> usize
    ensures { result ≡ place_in x (take count created.now) }
{
    if x < STATICS {
        return x as usize;
    }
    place(&created[..count.min(MOST_CREATED)], x)
}

// Is no live resource's number above the highest one? No early exit, so that several are compared at once.
fn none_above(live: &[u32], highest: u32) -> bool
    ensures { result ≡ highest_ok highest (length live.now) live.now }
{
    let mut above = false;
    for y in live {
        if highest < *y {
            above = true;
        }
    }
    !above
}

// Of rising numbers only the last can be above the highest one.
fn last_not_above(live: &[u32], highest: u32) -> bool
    requires { rises live.now (length live.now - 1) ≡ true }
    ensures { result ≡ highest_ok highest (length live.now) live.now }
{
    match live {
        [] => true,
        [.., last] => *last <= highest,
    }
}

// "42 a state with more than 64 resources, one listed twice or outside 16 to" 4,294,967,295 (02, L9), "42 also refuses a highest number below
// a live one". It also tells the length of the array.
pub fn live_ok(created: &[u32; MOST_CREATED], count: usize, highest: u32) -> bool
    ensures value { result ≡ (created_ok count created.now && highest_ok highest count created.now) }
    ensures created_len { length created.now ≡ most_created }
{
    if MOST_CREATED < count {
        return false;
    }
    let live = &created[..count];
    if rising(live) {
        return rising_sound(live) && last_not_above(live, highest);
    }
    all_sound(live) && none_above(live, highest)
}
