// The sets of states of the instances, and for each policy what any of its instances may be in. Instance i of policy p has its set at
// place p * INSTANCES + i: first the static resources' instances, then at UNSEEN that of every resource that never occurred, then at
// FIRST_CREATED + k that of the k-th created one.
ghost use Rattle.std.specs.Prelude.{ℕ, ◌+◌, ◌<◌, ◌≤◌, ◌≡◌, ◌&&◌, cond, eqb, ltb, leb, length, get_or, replicate};
ghost use Rattle.usage.specs.Limits.{policies};
ghost use Rattle.usage.specs.Tables.{edges_of};
ghost use Rattle.automaton.specs.Mask.{union};
ghost use Rattle.automaton.specs.Move.{move_by};
ghost use Rattle.monitor_sets.specs.Instances.{instances, set_places};
ghost use Rattle.monitor_sets.specs.Sets.{copied, reset_sets, gathered_at, gathered};
ghost use Rattle.monitor_sets.specs.Code.{broken_bit_lem, broken_in, row_moved, policy_moved, all_moved, event_sets};

use crate::{INSTANCES, SETS, START_SET, Turn, UNSEEN, unions};
use automaton::ROWS;
use usage::{POLICIES, STATES};

// The bit of policy p, if it is looked at, is open, and an offending state is among its possible ones.
fn broken_bit(looked: u8, possible: u8, openings: u8, p: usize) -> u8
    requires { p < policies }
    ensures { result ≡ broken_bit_lem looked possible openings p }
{
    if openings == 0 {
        return 0;
    }
    if possible < 64 {
        return 0;
    }
    looked & (1u8 << (p as u32))
}

// The open policies that are not respected, of those that are looked at, as a bit set: those with an offending state among their possible
// ones.
pub fn broken_set(looked: u8, possible: &[u8; POLICIES], unclosed: &[u8; POLICIES]) -> u8
    ensures { result ≡ broken_in looked possible.now unclosed.now }
{
    if looked == 0 {
        return 0;
    }
    let mut bad: u8 = 0;
    for p in 0..POLICIES {
        bad |= broken_bit(looked, possible[p], unclosed[p], p);
    }
    bad
}

// In each policy, instance i becomes what the instance of a resource that never occurred is.
fn copy_unseen(sets: &mut [u8; SETS], i: usize)
    requires i_lt_instances { i < instances }
    ensures { sets.new ≡ copied sets.old i }
{
    for p in 0..POLICIES {
        let k = p * INSTANCES;
        sets[k + i] = sets[k + UNSEEN];
    }
}

// Moves the n sets from place k on by eight rows. The union of the moved sets is handed back.
fn move_row(sets: &mut [u8; SETS], k: usize, n: usize, rows: [u8; STATES]) -> u8
    requires n_bound { k + n ≤ set_places }
    ensures sets_after { sets.new ≡ row_moved rows k n sets.old }
    ensures value { result ≡ union n (λ i. move_by rows 0 (get_or sets.old (k + i) 0)) }
{
    if automaton::stays(rows) {
        return unions::union_all(&sets[k..k + n]);
    }
    let mut all: u8 = 0;
    for i in 0..n {
        let moved = automaton::move_by_rows(sets[k + i], rows);
        sets[k + i] = moved;
        all |= moved;
    }
    all
}

// Moves the first n instances of policy p, instance `at` by the rows `own` and the others by the rows `other`. The union of their sets is
// handed back; while the others move, the set of `at` is empty, and so adds nothing to it.
fn move_policy(
    sets: &mut [u8; SETS],
    p: usize,
    n: usize,
    at: usize,
    own: &[u8; ROWS],
    other: &[u8; ROWS],
) -> u8
    requires p_lt_policies { p < policies }
    requires n_le_instances { n ≤ instances }
    requires at_lt_n { at < n }
    ensures sets_after { sets.new ≡ policy_moved own.now other.now n at p sets.old }
    ensures value { result ≡ gathered_at n (policy_moved own.now other.now n at p sets.old) p }
{
    let k = p * INSTANCES;
    let moved = automaton::move_set(own, p, sets[k + at]);
    sets[k + at] = 0;
    let others = move_row(sets, k, n, automaton::policy_rows(other, p));
    sets[k + at] = moved;
    others | moved
}

// The same of all policies. The union of each one's sets is handed back.
fn move_all(
    sets: &mut [u8; SETS],
    n: usize,
    at: usize,
    own: &[u8; ROWS],
    other: &[u8; ROWS],
) -> [u8; POLICIES]
    requires n_le_instances { n ≤ instances }
    requires at_lt_n { at < n }
    ensures sets_after { sets.new ≡ all_moved own.now other.now n at policies sets.old }
    ensures value { result ≡ gathered n (all_moved own.now other.now n at policies sets.old) }
{
    let mut possible = [0u8; POLICIES];
    for p in 0..POLICIES {
        possible[p] = move_policy(sets, p, n, at, own, other);
    }
    possible
}

// The sets after the event: the first n instances of each policy move, instance `at` by the rows of its own events. A created
// resource's instance is first what that of a resource that never occurred is. What each policy may then be in is handed back.
fn move_sets(edges: &[u8], sets: &mut [u8; SETS], turn: Turn) -> [u8; POLICIES]
    requires n_le_instances { turn.n ≤ instances }
    requires at_lt_n { turn.at < turn.n }
    ensures sets_after { sets.new ≡ event_sets (edges_of edges.now) turn.action turn.resource turn.at turn.n sets.old }
    ensures value { result ≡ gathered turn.n (event_sets (edges_of edges.now) turn.action turn.resource turn.at turn.n sets.old) }
{
    if turn.action == 0 {
        copy_unseen(sets, turn.at);
    }
    let mut own = [0u8; ROWS];
    let mut other = [0u8; ROWS];
    automaton::moves::rows(edges, turn.action, turn.resource, &mut own, &mut other);
    move_all(sets, turn.n, turn.at, &own, &other)
}

// The first n instances of policy p are in state 0; where there is no such policy, or not so many instances, nothing happens.
pub fn reset(sets: &mut [u8; SETS], n: usize, p: usize)
    ensures { sets.new ≡ cond (leb n instances && ltb p policies) (reset_sets n p sets.old) sets.old }
{
    if INSTANCES < n || POLICIES <= p {
        return;
    }
    let k = p * INSTANCES;
    for i in 0..n {
        sets[k + i] = START_SET;
    }
}

// Moves the sets of the first n instances on an event, instance `at` as that of its resource, gathers what each policy may then be in, and
// says which open policies, of those that are looked at, are then not respected. Where one is not, both stay as they were; so they do where
// there are not n instances, or n is not above `at`.
pub fn take_event(
    looked: u8,
    edges: &[u8],
    sets: &mut [u8; SETS],
    possible: &mut [u8; POLICIES],
    unclosed: &[u8; POLICIES],
    turn: Turn,
) -> u8
    ensures value { result ≡ cond (leb turn.n instances && ltb turn.at turn.n)
        (broken_in looked (gathered turn.n (event_sets (edges_of edges.now) turn.action turn.resource turn.at turn.n sets.old))
        unclosed.now) 0 }
    ensures sets_after { sets.new
        ≡ cond ((leb turn.n instances && ltb turn.at turn.n) && eqb result 0)
        (event_sets (edges_of edges.now) turn.action turn.resource turn.at turn.n sets.old) sets.old }
    ensures possible_after { possible.new
        ≡ cond ((leb turn.n instances && ltb turn.at turn.n) && eqb result 0)
        (gathered turn.n (event_sets (edges_of edges.now) turn.action turn.resource turn.at turn.n sets.old)) possible.old }
{
    if INSTANCES < turn.n || turn.n <= turn.at {
        return 0;
    }
    let old = *sets;
    let after = move_sets(edges, sets, turn);
    let bad = broken_set(looked, &after, unclosed);
    if bad != 0 {
        *sets = old;
        return bad;
    }
    *possible = after;
    bad
}

// Moves the sets of the first n instances on an event, instance `at` as that of its resource, and hands back what each policy may then be
// in. Where there are not n instances, or n is not above `at`, nothing happens, and nothing is possible.
pub fn move_event(edges: &[u8], sets: &mut [u8; SETS], turn: Turn) -> [u8; POLICIES]
    ensures sets_after { sets.new
        ≡ cond (leb turn.n instances && ltb turn.at turn.n)
        (event_sets (edges_of edges.now) turn.action turn.resource turn.at turn.n sets.old) sets.old }
    ensures value { result ≡ cond (leb turn.n instances && ltb turn.at turn.n)
        (gathered turn.n (event_sets (edges_of edges.now) turn.action turn.resource turn.at turn.n sets.old)) (replicate policies 0) }
{
    if INSTANCES < turn.n || turn.n <= turn.at {
        return [0u8; POLICIES];
    }
    move_sets(edges, sets, turn)
}
