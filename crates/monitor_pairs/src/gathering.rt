// Which states some pair of places in use may be in, and which after an event. Moving a union of sets is the union of the moved ones, so
// what an event leads to is told before any set is moved: where a policy would be broken, nothing has to be put back.
ghost use Rattle.std.specs.Prelude.{ℕ, ◌+◌, ◌<◌, ◌≤◌, ◌≡◌, length, get_or};
ghost use Rattle.std.specs.Int.Bits.{bit_or};
ghost use Rattle.automaton.specs.Mask.{union};
ghost use Rattle.monitor_sets.specs.Instances.{instances};
ghost use Rattle.monitor_sets.specs.Code.{lanes};
ghost use Rattle.monitor_pairs.specs.Pairs.{pair_places, event_pairs, gather_pairs};
ghost use Rattle.monitor_pairs.specs.Code.{stays_all, row_joined, beside_columns};

use crate::{PAIRS, Ways, events};
use monitor_sets::{INSTANCES, unions};

// The row that starts at place k, joined to a line.
pub(crate) fn join_row(line: &mut [u8; INSTANCES], sets: &[u8; PAIRS], k: usize)
    requires instances_bound { k + instances ≤ pair_places }
    ensures { line.new ≡ row_joined k sets.now line.old }
{
    for j in 0..INSTANCES {
        line[j] = line[j] | sets[k + j];
    }
}

// The union of each column in the first n rows, without row `at`.
fn columns_beside(sets: &[u8; PAIRS], n: usize, at: usize) -> [u8; INSTANCES]
    requires n_le_instances { n ≤ instances }
    ensures { result ≡ beside_columns n at sets.now }
{
    let mut line = [0u8; INSTANCES];
    for i in 0..n {
        if i != at {
            join_row(&mut line, sets, i * INSTANCES);
        }
    }
    line
}

// What the event leads to: the sets that see it alike are joined first, and each of the four unions is moved.
fn after_rows(sets: &[u8; PAIRS], n: usize, at: usize, ways: Ways) -> u8
    requires n_le_instances { n ≤ instances }
    requires at_lt_n { at < n }
    ensures { result ≡ gather_pairs n (event_pairs ways at n sets.now) }
{
    let mut others = columns_beside(sets, n, at);
    let mut row = events::row_of(sets, at * INSTANCES);
    let column = others[at];
    let own = row[at];
    others[at] = 0;
    row[at] = 0;
    automaton::move_by_rows(unions::union_all(&others), ways.neither)
        | automaton::move_by_rows(unions::union_all(&row), ways.first)
        | automaton::move_by_rows(column, ways.second)
        | automaton::move_by_rows(own, ways.both)
}

// Do all four ways leave every state where it is?
pub(crate) fn all_stay(ways: Ways) -> bool
    ensures { result ≡ stays_all ways }
{
    automaton::stays(ways.neither)
        && automaton::stays(ways.first)
        && automaton::stays(ways.second)
        && automaton::stays(ways.both)
}

// Which states some two of the first n places may be in after an event on the resource at place `at`.
pub(crate) fn after_event(sets: &[u8; PAIRS], n: usize, at: usize, ways: Ways) -> u8
    requires n_le_instances { n ≤ instances }
    requires at_lt_n { at < n }
    ensures { result ≡ gather_pairs n (event_pairs ways at n sets.now) }
{
    if all_stay(ways) {
        return unions::union_all(&sets[..n * INSTANCES]);
    }
    after_rows(sets, n, at, ways)
}
