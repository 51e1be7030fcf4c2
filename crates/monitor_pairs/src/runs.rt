// Moving a run of sets. Most events move one state or two, and then a set is moved in a third of the instructions that eight rows take:
// what stays is kept as it is. That the short way is the right one is not worked out from the rows but tried at each state: moving a
// union is the union of the moved, so two ways that agree at each state agree at each set.
ghost use Rattle.std.specs.Prelude.{ℕ, ◌<◌, ◌≤◌, ◌^◌, ◌≡◌, true, length, get_or};
ghost use Rattle.usage.specs.Limits.{states};
ghost use Rattle.monitor_pairs.specs.Pairs.{pair_places};
ghost use Rattle.monitor_pairs.specs.Code.{run_moved, row_where, two_moved, run_by_two};

use crate::PAIRS;
use usage::STATES;

// The states that are kept, and two more, as bits, with where they go.
#[derive(Clone, Copy)]
pub struct Two {
    pub keep: u8,
    pub low: u8,
    pub lows: u8,
    pub high: u8,
    pub highs: u8,
}

// The lowest state that does not stay; the last one where there is none.
fn first_change(rows: [u8; STATES]) -> usize
    ensures { result < states }
{
    for q in 0..STATES - 1 {
        if rows[q] != 1u8 << (q as u32) {
            return q;
        }
    }
    STATES - 1
}

// The highest state that does not stay; the first one where there is none.
fn last_change(rows: [u8; STATES]) -> usize
    ensures { result < states }
{
    for q in (1..STATES).rev() {
        if rows[q] != 1u8 << (q as u32) {
            return q;
        }
    }
    0
}

// The row of the states m, where one of them is in the set x.
fn pick_any(x: u8, m: u8, row: u8) -> u8
    ensures { result ≡ row_where x m row }
{
    if x & m == 0 { 0 } else { row }
}

// The set x, moved by two states.
fn move_by_two(x: u8, two: Two) -> u8
    ensures { result ≡ two_moved two.keep two.low two.lows two.high two.highs x }
{
    (x & two.keep) | pick_any(x, two.low, two.lows) | pick_any(x, two.high, two.highs)
}

// Do the two states move each state as the eight rows do?
fn agrees(two: Two, rows: [u8; STATES]) -> bool
    ensures { result ≡ true → (q : ℕ) → q < states
        → two_moved two.keep two.low two.lows two.high two.highs (2 ^ q) ≡ get_or rows q 0 }
{
    for q in 0..STATES {
        if move_by_two(1u8 << (q as u32), two) != rows[q] {
            return false;
        }
    }
    true
}

// Moves the first n sets by two states.
fn move_two(sets: &mut [u8; PAIRS], n: usize, two: Two)
    requires n_le_pair_places { n ≤ pair_places }
    ensures { sets.new ≡ run_by_two two.keep two.low two.lows two.high two.highs n sets.old }
{
    for k in 0..n {
        sets[k] = move_by_two(sets[k], two);
    }
}

// Moves the first n sets by eight rows.
fn move_eight(sets: &mut [u8; PAIRS], n: usize, rows: [u8; STATES])
    requires n_le_pair_places { n ≤ pair_places }
    ensures { sets.new ≡ run_moved rows n sets.old }
{
    for k in 0..n {
        sets[k] = automaton::move_by_rows(sets[k], rows);
    }
}

// The same, in the short way where there is one.
pub(crate) fn move_run(sets: &mut [u8; PAIRS], n: usize, rows: [u8; STATES])
    requires n_le_pair_places { n ≤ pair_places }
    ensures { sets.new ≡ run_moved rows n sets.old }
{
    if automaton::stays(rows) {
        return;
    }
    let s = first_change(rows);
    let t = last_change(rows);
    let low = 1u8 << (s as u32);
    let high = 1u8 << (t as u32);
    let two = Two {
        keep: 255 ^ (low | high),
        low,
        lows: rows[s],
        high,
        highs: rows[t],
    };
    if agrees(two, rows) {
        move_two(sets, n, two);
        return;
    }
    move_eight(sets, n, rows);
}
