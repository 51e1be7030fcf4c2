// What an event makes of the sets: of those of the policies about one resource, and where a sheet has policies about two, of theirs.
ghost use Rattle.std.specs.Prelude.{◌<◌, ◌≤◌, ◌≡◌, true, false, cond, eqb, length};
ghost use Rattle.usage.specs.Tables.{edges_of};
ghost use Rattle.automaton.specs.Move.{rows_at};
ghost use Rattle.monitor_sets.specs.Instances.{instances};
ghost use Rattle.monitor_sets.specs.Code.{broken_in, event_sets};
ghost use Rattle.monitor_pairs.specs.Blocks.{pair_sets, pairs_of};
ghost use Rattle.monitor_pairs.specs.Code.{ways_in};
ghost use Rattle.monitor_state.specs.Code.{event_blocks, event_possible};

use crate::lent::Rules;
use automaton::ROWS;
use monitor_pairs::Ways;
use monitor_sets::{SETS, Turn};
use usage::POLICIES;

// The ways of an event for the two pair policies.
#[derive(Clone, Copy)]
struct BothWays {
    lower: Ways,
    upper: Ways,
}

fn ways_of(by: &Rules, action: u32, r: u32) -> BothWays
    ensures lower_value { result.lower ≡ ways_in (rows_at (edges_of by.now.edges.now) action r false false)
        (rows_at (edges_of by.now.edges.now) action r true false) (rows_at (edges_of by.now.edges.now) action r false true)
        (rows_at (edges_of by.now.edges.now) action r true true) by.now.which.first }
    ensures upper_value { result.upper ≡ ways_in (rows_at (edges_of by.now.edges.now) action r false false)
        (rows_at (edges_of by.now.edges.now) action r true false) (rows_at (edges_of by.now.edges.now) action r false true)
        (rows_at (edges_of by.now.edges.now) action r true true) by.now.which.second }
{
    let mut neither = [0u8; ROWS];
    let mut first = [0u8; ROWS];
    let mut second = [0u8; ROWS];
    let mut both = [0u8; ROWS];
    automaton::moves::rows(by.edges, action, r, &mut first, &mut neither);
    automaton::moves::rows_second(by.edges, action, r, &mut both, &mut second);
    let p = by.which.first as usize;
    let q = by.which.second as usize;
    let lower = monitor_pairs::rows::ways_of(&neither, &first, &second, &both, p);
    let upper = monitor_pairs::rows::ways_of(&neither, &first, &second, &both, q);
    BothWays { lower, upper }
}

// Where there is a pair policy: what the event leads to is known before any of their sets is moved, so nothing of them is put back.
fn take_pairs(
    by: &Rules,
    sets: &mut [u8; SETS],
    pairs: &mut [u8],
    possible: &mut [u8; POLICIES],
    unclosed: &[u8; POLICIES],
    turn: Turn,
) -> u8
    requires pairs_len { length pairs.old ≡ pair_sets }
    requires n_le_instances { turn.n ≤ instances }
    requires at_lt_n { turn.at < turn.n }
    ensures value { result ≡ broken_in by.now.looked (event_possible (edges_of by.now.edges.now) turn.action turn.resource turn.at turn.n sets.old
        pairs.old) unclosed.now }
    ensures sets_after { sets.new ≡ cond (eqb result 0) (event_sets (edges_of by.now.edges.now) turn.action turn.resource turn.at turn.n
        sets.old) sets.old }
    ensures pairs_after { pairs.new ≡ cond (eqb result 0) (event_blocks (edges_of by.now.edges.now) turn.action turn.resource turn.at turn.n
        pairs.old) pairs.old }
    ensures possible_after { possible.new ≡ cond (eqb result 0) (event_possible (edges_of by.now.edges.now) turn.action turn.resource turn.at turn.n
        sets.old pairs.old) possible.old }
{
    let ways = ways_of(by, turn.action, turn.resource);
    let lower = ways.lower;
    let upper = ways.upper;
    let old = *sets;
    let moved = monitor_sets::instances::move_event(by.edges, sets, turn);
    let after = monitor_pairs::blocks::lead_event(pairs, by.which, turn, lower, upper, moved);
    let bad = monitor_sets::instances::broken_set(by.looked, &after, unclosed);
    if bad != 0 {
        *sets = old;
        return bad;
    }
    *possible = after;
    monitor_pairs::blocks::take_event(pairs, by.which, turn, lower, upper);
    bad
}

// Moves the sets on an event on the resource at place `at` of the first n, gathers what each policy may then be in, and says which open
// policies, of those that are looked at, are then not respected. Where one is not, all stays as it was.
// Kept: the arrays stand one by one, and not as what is lent: so the types say which of them an event leaves alone.
pub(crate) fn take_event(
    by: &Rules,
    sets: &mut [u8; SETS],
    pairs: &mut [u8],
    possible: &mut [u8; POLICIES],
    unclosed: &[u8; POLICIES],
    turn: Turn,
) -> u8
    requires pairs_len { length pairs.old ≡ pair_sets }
    requires n_le_instances { turn.n ≤ instances }
    requires at_lt_n { turn.at < turn.n }
    ensures value { result ≡ broken_in by.now.looked (event_possible (edges_of by.now.edges.now) turn.action turn.resource turn.at turn.n sets.old
        pairs.old) unclosed.now }
    ensures sets_after { sets.new ≡ cond (eqb result 0) (event_sets (edges_of by.now.edges.now) turn.action turn.resource turn.at turn.n sets.old)
        sets.old }
    ensures pairs_after { pairs.new ≡ cond (eqb result 0) (event_blocks (edges_of by.now.edges.now) turn.action turn.resource turn.at turn.n pairs.old)
        pairs.old }
    ensures possible_after { possible.new ≡ cond (eqb result 0) (event_possible (edges_of by.now.edges.now) turn.action turn.resource turn.at turn.n
        sets.old pairs.old) possible.old }
{
    if 8 <= by.which.first {
        return monitor_sets::instances::take_event(
            by.looked, by.edges, sets, possible, unclosed, turn,
        );
    }
    take_pairs(by, sets, pairs, possible, unclosed, turn)
}
