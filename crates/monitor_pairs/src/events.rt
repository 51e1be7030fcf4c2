// What an event makes of the sets of a pair policy. The sets of one first place are a row, those of one second place a column. The row
// and the column of the event's place are moved by themselves; all others see the event alike and are moved in one run, without gaps.
ghost use Rattle.std.specs.Prelude.{ℕ, ◌+◌, ◌*◌, ◌<◌, ◌≤◌, ◌≡◌, length, get_or};
ghost use Rattle.monitor_sets.specs.Instances.{instances};
ghost use Rattle.monitor_pairs.specs.Pairs.{pair_places, event_pairs};
ghost use Rattle.monitor_pairs.specs.Code.{line_moved, pair_row, column_of_lem, row_put, column_put};

use crate::{PAIRS, Ways, gathering, runs};
use monitor_sets::INSTANCES;
use usage::STATES;

// A row or a column, moved by eight rows.
fn move_line(line: [u8; INSTANCES], rows: [u8; STATES]) -> [u8; INSTANCES]
    ensures { result ≡ line_moved rows line }
{
    let mut moved = [0u8; INSTANCES];
    for i in 0..INSTANCES {
        moved[i] = automaton::move_by_rows(line[i], rows);
    }
    moved
}

// The sets of the row that starts at place k.
pub(crate) fn row_of(sets: &[u8; PAIRS], k: usize) -> [u8; INSTANCES]
    requires instances_bound { k + instances ≤ pair_places }
    ensures { result ≡ pair_row k sets.now }
{
    let mut row = [0u8; INSTANCES];
    row.copy_from_slice(&sets[k..k + INSTANCES]);
    row
}

// The sets of column `at` in the first n rows.
fn column_of(sets: &[u8; PAIRS], n: usize, at: usize) -> [u8; INSTANCES]
    requires n_le_instances { n ≤ instances }
    requires at_lt_instances { at < instances }
    ensures { result ≡ column_of_lem n at sets.now }
{
    let mut column = [0u8; INSTANCES];
    for i in 0..n {
        column[i] = sets[i * INSTANCES + at];
    }
    column
}

// The row that starts at place k becomes this one.
// Kept: as a loop: of a copy into a part a law would have to say what stands before, in and behind it.
pub(crate) fn put_row(sets: &mut [u8; PAIRS], k: usize, row: &[u8; INSTANCES])
    requires instances_bound { k + instances ≤ pair_places }
    ensures { sets.new ≡ row_put k row.now instances sets.old }
{
    for j in 0..INSTANCES {
        sets[k + j] = row[j];
    }
}

// Column `at` of the first n rows becomes this one.
fn put_column(sets: &mut [u8; PAIRS], n: usize, at: usize, column: &[u8; INSTANCES])
    requires n_le_instances { n ≤ instances }
    requires at_lt_instances { at < instances }
    ensures { sets.new ≡ column_put at column.now n sets.old }
{
    for i in 0..n {
        sets[i * INSTANCES + at] = column[i];
    }
}

// The first n rows move, each set in the way in which its two places see an event on the resource at place `at`.
fn move_rows(sets: &mut [u8; PAIRS], n: usize, at: usize, ways: Ways)
    requires n_le_instances { n ≤ instances }
    requires at_lt_n { at < n }
    ensures { sets.new ≡ event_pairs ways at n sets.old }
{
    let k = at * INSTANCES;
    let own = automaton::move_by_rows(sets[k + at], ways.both);
    let row = move_line(row_of(sets, k), ways.first);
    let mut column = move_line(column_of(sets, n, at), ways.second);
    column[at] = own;
    runs::move_run(sets, n * INSTANCES, ways.neither);
    put_row(sets, k, &row);
    put_column(sets, n, at, &column);
}

// The same, where an event that moves nothing costs little.
pub(crate) fn take_event(sets: &mut [u8; PAIRS], n: usize, at: usize, ways: Ways)
    requires n_le_instances { n ≤ instances }
    requires at_lt_n { at < n }
    ensures { sets.new ≡ event_pairs ways at n sets.old }
{
    if !gathering::all_stay(ways) {
        move_rows(sets, n, at, ways);
    }
}
