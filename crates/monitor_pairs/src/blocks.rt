// The sets of the two pair policies, which lie in one slice, the lower policy's first. A policy of POLICIES is none: its block stays.
ghost use Rattle.std.specs.Prelude.{ℕ, ◌<◌, ◌≤◌, ◌≡◌, ◌&&◌, cond, eqb, ltb, leb, length, get_or, set};
ghost use Rattle.monitor_sets.specs.Instances.{first_created_lem, instances};
ghost use Rattle.monitor_pairs.specs.Pairs.{pair_places, gather_pairs, reset_pairs, retire_pairs};
ghost use Rattle.monitor_pairs.specs.Blocks.{pair_sets, of_policy, each_block};
ghost use Rattle.monitor_pairs.specs.Code.{turned, turned_blocks, led_blocks, takes_turn};

use crate::which::Blocks;
use crate::{PAIR_SETS, PAIRS, Ways, events, gathering, places, retiring};
use monitor_sets::{FIRST_CREATED, INSTANCES, Turn};
use usage::POLICIES;

// ── What an event leads to ──

// In one block; the sets stay as they were. The place of a created resource is taken in use for it, and then given back.
fn lead(sets: &mut [u8; PAIRS], turn: Turn, ways: Ways) -> u8
    requires n_le_instances { turn.n ≤ instances }
    requires at_lt_n { turn.at < turn.n }
    ensures sets_unchanged { sets.new ≡ sets.old }
    ensures value { result ≡ gather_pairs turn.n (turned turn ways sets.old) }
{
    let at = turn.at;
    if turn.action == 0 {
        let k = at * INSTANCES;
        let row = events::row_of(sets, k);
        places::create(sets, at);
        let m = gathering::after_event(sets, turn.n, at, ways);
        events::put_row(sets, k, &row);
        return m;
    }
    gathering::after_event(sets, turn.n, at, ways)
}

// In the block of policy p, put among what all policies are led to.
fn lead_policy(
    sets: &mut [u8; PAIRS],
    p: u32,
    turn: Turn,
    ways: Ways,
    after: [u8; POLICIES],
) -> [u8; POLICIES]
    requires n_le_instances { turn.n ≤ instances }
    requires at_lt_n { turn.at < turn.n }
    ensures sets_unchanged { sets.new ≡ sets.old }
    ensures value { result ≡ set after p (gather_pairs turn.n (turned turn ways sets.old)) }
{
    let i = p as usize;
    let mut led = after;
    if i < POLICIES {
        led[i] = lead(sets, turn, ways);
        return led;
    }
    led
}

// What the event leads to in either block, in its ways, put among what all policies are led to; the sets stay as they were. Where there are
// not n places, or n is not above `at`, or there are not two blocks, nothing happens.
pub fn lead_event(
    pairs: &mut [u8],
    which: Blocks,
    turn: Turn,
    lower: Ways,
    upper: Ways,
    after: [u8; POLICIES],
) -> [u8; POLICIES]
    ensures pairs_unchanged { pairs.new ≡ pairs.old }
    ensures value { result ≡ cond (takes_turn turn pairs.old) (led_blocks which turn lower upper pairs.old after) after }
{
    if INSTANCES < turn.n || turn.n <= turn.at {
        return after;
    }
    let Some((one, rest)) = pairs.split_first_chunk_mut::<PAIRS>() else {
        return after;
    };
    let Some(two) = rest.as_mut_array::<PAIRS>() else {
        return after;
    };
    let led = lead_policy(one, which.first, turn, lower, after);
    lead_policy(two, which.second, turn, upper, led)
}

// ── The event ──

fn take(sets: &mut [u8; PAIRS], p: u32, turn: Turn, ways: Ways)
    requires n_le_instances { turn.n ≤ instances }
    requires at_lt_n { turn.at < turn.n }
    ensures { sets.new ≡ of_policy p (λ p. turned turn ways) sets.old }
{
    if 8 <= p {
        return;
    }
    if turn.action == 0 {
        places::create(sets, turn.at);
    }
    events::take_event(sets, turn.n, turn.at, ways);
}

// The sets of either block after the event; where there are not n places, or n is not above `at`, or there are not two blocks, nothing
// happens.
pub fn take_event(pairs: &mut [u8], which: Blocks, turn: Turn, lower: Ways, upper: Ways)
    ensures { pairs.new
        ≡ cond (takes_turn turn pairs.old) (turned_blocks which turn lower upper pairs.old) pairs.old }
{
    if INSTANCES < turn.n || turn.n <= turn.at {
        return;
    }
    let Some((one, rest)) = pairs.split_first_chunk_mut::<PAIRS>() else {
        return;
    };
    let Some(two) = rest.as_mut_array::<PAIRS>() else {
        return;
    };
    take(one, which.first, turn, lower);
    take(two, which.second, turn, upper);
}

// ── Openings and retirings ──

fn reset_policy(sets: &mut [u8; PAIRS], p: u32, n: usize, s: u32)
    requires n_le_instances { n ≤ instances }
    ensures { sets.new ≡ of_policy p (λ p sets. cond (eqb p s) (reset_pairs n sets) sets) sets.old }
{
    if p < 8 && p == s {
        places::reset(sets, n);
    }
}

// The first n places of policy s are in state 0; where there are not so many, or not two blocks, nothing happens.
pub fn reset(pairs: &mut [u8], which: Blocks, n: usize, s: u32)
    ensures { pairs.new
        ≡ cond (eqb (length pairs.old) pair_sets && leb n instances)
        (each_block which (λ p sets. cond (eqb p s) (reset_pairs n sets) sets) pairs.old) pairs.old }
{
    if INSTANCES < n {
        return;
    }
    let Some((one, rest)) = pairs.split_first_chunk_mut::<PAIRS>() else {
        return;
    };
    let Some(two) = rest.as_mut_array::<PAIRS>() else {
        return;
    };
    reset_policy(one, which.first, n, s);
    reset_policy(two, which.second, n, s);
}

fn retire_policy(sets: &mut [u8; PAIRS], p: u32, n: usize, at: usize)
    requires n_le_instances { n ≤ instances }
    requires first_created_le_at { first_created_lem ≤ at }
    requires at_lt_n { at < n }
    ensures { sets.new ≡ of_policy p (λ p. retire_pairs at n) sets.old }
{
    if p < 8 {
        retiring::retire(sets, n, at);
    }
}

// Place `at` of the first n is retired; where there are not so many, or it is not that of a live resource, or there are not two blocks,
// nothing happens.
pub fn retire(pairs: &mut [u8], which: Blocks, n: usize, at: usize)
    ensures { pairs.new
        ≡ cond (eqb (length pairs.old) pair_sets && (leb n instances && (ltb at n && leb first_created_lem at)))
        (each_block which (λ p. retire_pairs at n) pairs.old) pairs.old }
{
    if INSTANCES < n || n <= at || at < FIRST_CREATED {
        return;
    }
    let Some((one, rest)) = pairs.split_first_chunk_mut::<PAIRS>() else {
        return;
    };
    let Some(two) = rest.as_mut_array::<PAIRS>() else {
        return;
    };
    retire_policy(one, which.first, n, at);
    retire_policy(two, which.second, n, at);
}
