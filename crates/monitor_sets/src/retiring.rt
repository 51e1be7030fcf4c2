// A retiring: the place of the resource is closed up among the live ones, and so is that of its instance in each policy, after its states
// have joined those of the retired ones.
ghost use Rattle.std.specs.Prelude.{◌+◌, ◌<◌, ◌≤◌, ◌≡◌, ◌&&◌, cond, leb, ltb};
ghost use Rattle.usage.specs.Limits.{most_created};
ghost use Rattle.monitor_sets.specs.Instances.{first_created_lem, instances, set_places};
ghost use Rattle.monitor_sets.specs.Created.{closed_up};
ghost use Rattle.monitor_sets.specs.Sets.{retired_sets};
ghost use Rattle.monitor_sets.specs.Code.{row_closed};

use crate::{FIRST_CREATED, INSTANCES, RETIREES, SETS};
use usage::{MOST_CREATED, POLICIES};

// The sets behind place `at` of the n sets from place k on move up by one.
fn close_row(sets: &mut [u8; SETS], k: usize, at: usize, n: usize)
    requires at_lt_n { at < n }
    requires n_bound { k + n ≤ set_places }
    ensures { sets.new ≡ row_closed k at n sets.old }
{
    for j in k + at..k + n - 1 {
        sets[j] = sets[j + 1];
    }
}

// Closes place i of the first `count` live resources up. Where there are not so many, or none at i, nothing happens.
pub fn close_up(created: &mut [u32; MOST_CREATED], count: usize, i: usize)
    ensures { created.new
        ≡ cond (leb count most_created && ltb i count) (closed_up i count created.old) created.old }
{
    if MOST_CREATED < count || count <= i {
        return;
    }
    for k in i..count - 1 {
        created[k] = created[k + 1];
    }
}

// Instance `at` of the first n is retired in each policy. Where there are not so many, or it is not that of a live resource, nothing
// happens.
pub fn retire(sets: &mut [u8; SETS], n: usize, at: usize)
    ensures { sets.new
        ≡ cond (leb n instances && (ltb at n && leb first_created_lem at)) (retired_sets at n sets.old) sets.old }
{
    if INSTANCES < n || n <= at || at < FIRST_CREATED {
        return;
    }
    for p in 0..POLICIES {
        let k = p * INSTANCES;
        sets[k + RETIREES] |= sets[k + at];
        close_row(sets, k, at, n);
    }
}
