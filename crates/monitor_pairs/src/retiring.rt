// A retiring: what stood at the place joins what stands at that of the retired ones, as first place and as second, and the places behind
// it move up by one.
ghost use Rattle.std.specs.Prelude.{◌+◌, ◌<◌, ◌≤◌, ◌≡◌, length};
ghost use Rattle.monitor_sets.specs.Instances.{first_created_lem, instances};
ghost use Rattle.monitor_pairs.specs.Pairs.{pair_places, retire_pairs};
ghost use Rattle.monitor_pairs.specs.Code.{moved_up, line_retired, columns_retired};

use crate::{PAIRS, events, gathering, places};
use monitor_sets::{FIRST_CREATED, INSTANCES, RETIREES, UNSEEN};

// Each of the n sets from place s on becomes the one that is so far behind it.
fn move_up(sets: &mut [u8; PAIRS], s: usize, n: usize, by: usize)
    requires by_bound { s + n + by ≤ pair_places }
    requires by_nonzero { 0 < by }
    ensures { sets.new ≡ moved_up s n by sets.old }
{
    for i in 0..n {
        sets[s + i] = sets[s + i + by];
    }
}

// In the row that starts at place k, the second place `at` is retired.
fn retire_line(sets: &mut [u8; PAIRS], k: usize, at: usize)
    requires instances_bound { k + instances ≤ pair_places }
    requires first_created_le_at { first_created_lem ≤ at }
    requires at_lt_instances { at < instances }
    ensures { sets.new ≡ line_retired k at sets.old }
{
    let unused = sets[k + UNSEEN];
    sets[k + RETIREES] |= sets[k + at];
    move_up(sets, k + at, INSTANCES - 1 - at, 1);
    sets[k + (INSTANCES - 1)] = unused;
}

// In the first n rows, the second place `at` is retired.
fn retire_columns(sets: &mut [u8; PAIRS], n: usize, at: usize)
    requires n_le_instances { n ≤ instances }
    requires first_created_le_at { first_created_lem ≤ at }
    requires at_lt_instances { at < instances }
    ensures { sets.new ≡ columns_retired at n sets.old }
{
    for i in 0..n {
        retire_line(sets, i * INSTANCES, at);
    }
}

// Place `at` of the first n is retired, as second place and then as first.
pub(crate) fn retire(sets: &mut [u8; PAIRS], n: usize, at: usize)
    requires n_le_instances { n ≤ instances }
    requires first_created_le_at { first_created_lem ≤ at }
    requires at_lt_n { at < n }
    ensures { sets.new ≡ retire_pairs at n sets.old }
{
    retire_columns(sets, n, at);
    let mut row = events::row_of(sets, RETIREES * INSTANCES);
    gathering::join_row(&mut row, sets, at * INSTANCES);
    events::put_row(sets, RETIREES * INSTANCES, &row);
    move_up(sets, at * INSTANCES, (n - 1 - at) * INSTANCES, INSTANCES);
    places::copy_row(sets, UNSEEN, n - 1);
}
