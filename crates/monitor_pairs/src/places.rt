// What a creation and an opening that resets make of the sets of a pair policy.
ghost use Rattle.std.specs.Prelude.{◌*◌, ◌<◌, ◌≤◌, ◌≡◌, length};
ghost use Rattle.monitor_sets.specs.Instances.{instances};
ghost use Rattle.monitor_pairs.specs.Pairs.{pair_places, row_copied, create_pairs, reset_pairs};

use crate::{PAIRS, events};
use monitor_sets::{INSTANCES, START_SET, UNSEEN};

// Row `to` becomes row `from`.
pub(crate) fn copy_row(sets: &mut [u8; PAIRS], from: usize, to: usize)
    requires from_lt_instances { from < instances }
    requires to_lt_instances { to < instances }
    ensures { sets.new ≡ row_copied from to sets.old }
{
    let row = events::row_of(sets, from * INSTANCES);
    events::put_row(sets, to * INSTANCES, &row);
}

// Place n is taken in use, for a resource that never occurred.
pub(crate) fn create(sets: &mut [u8; PAIRS], n: usize)
    requires n_lt_instances { n < instances }
    ensures { sets.new ≡ create_pairs n sets.old }
{
    copy_row(sets, UNSEEN, n);
}

// The first n rows are in state 0.
pub(crate) fn reset(sets: &mut [u8; PAIRS], n: usize)
    requires n_le_instances { n ≤ instances }
    ensures { sets.new ≡ reset_pairs n sets.old }
{
    for k in 0..n * INSTANCES {
        sets[k] = START_SET;
    }
}
