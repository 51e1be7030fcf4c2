// The rows of an event: where each state of each policy goes by it (document 01: "On an event, each state the instance may be in moves
// along every matching edge, to all their ends; with no matching edge from that state it stays").
ghost use Rattle.std.specs.Prelude.{◌/◌, ◌*◌, ◌+◌, ◌<◌, ◌≤◌, ◌≡◌, Bool, true, false, cond, eqb, length, replicate};
ghost use Rattle.usage.specs.Limits.{states, edge_fields};
ghost use Rattle.usage.specs.Tables.{from, edge_at, edges_of};
ghost use Rattle.automaton.specs.Mask.{single};
ghost use Rattle.automaton.specs.Move.{row_places, labelled_at, rows_of, rows_at};
ghost use Rattle.automaton.specs.Code.{end_of, joined, followed, edge_ends, stayed};

use crate::ROWS;
use usage::{EDGE_FIELDS, STATES};

// What an edge's label is about, as its `on` says: a static resource, the policy's own (the first of two), any but it (neither of two),
// or the second of two.
const ON_STATIC: u8 = 0;

const ON_FIRST: u8 = 1;

const ON_OTHER: u8 = 2;

pub(crate) const ON_SECOND: u8 = 3;

// The resource of an event, and whether it is the second one of the instances that look at it. Of a policy about one resource it never is.
#[derive(Clone, Copy)]
pub struct Seen {
    pub resource: u32,
    pub second: bool,
}

// The end of an edge, joined to what stands at its state of its policy. One test for the three numbers: each is below 8 exactly where
// their union as bits is; where one is not, the edge has no place or no end.
fn join(table: &mut [u8; ROWS], policy: u8, from: u8, to: u8)
    ensures { table.new ≡ joined table.old policy from (single to) }
{
    if (policy | from | to) < 8 {
        let k = policy as usize * STATES + from as usize;
        table[k] |= 1u8 << (to as u32);
    }
}

// Is an edge's label, which is about no first resource, about the event's resource?
fn matches_both(on: u8, who: u8, seen: Seen) -> bool
    requires not_first { on ≡ 1 → ⊥ }
    requires not_other { on ≡ 2 → ⊥ }
    ensures { (first : Bool) → result ≡ labelled_at on who first seen.second seen.resource }
{
    if on == ON_STATIC {
        return seen.resource == who as u32;
    }
    if on == ON_SECOND {
        return seen.second;
    }
    false
}

// Kept: tried: one match over the kinds, with the edge in one value, takes 3 to 13 instructions more for each edge.
// The end of an edge that an event on the resource may match, joined to the two tables: `own` is that of the instances whose first
// resource the event is on, `other` that of the other instances.
fn follow(
    own: &mut [u8; ROWS],
    other: &mut [u8; ROWS],
    policy: u8,
    from: u8,
    on: u8,
    who: u8,
    to: u8,
    seen: Seen,
)
    ensures own_after { own.new ≡ joined own.old policy from (end_of on who to true seen.second seen.resource) }
    ensures other_after { other.new ≡ joined other.old policy from (end_of on who to false seen.second seen.resource) }
{
    if on == ON_FIRST {
        join(own, policy, from, to);
        return;
    }
    if on == ON_OTHER {
        if seen.second {
            return;
        }
        join(other, policy, from, to);
        return;
    }
    if matches_both(on, who, seen) {
        join(own, policy, from, to);
        join(other, policy, from, to);
    }
}

// The end of edge i, joined to the two tables where its action is a.
// Kept: the two tables side by side: a struct of both would be taken apart and lent again at each call.
fn follow_edge(
    edges: &[u8],
    i: usize,
    a: u8,
    seen: Seen,
    own: &mut [u8; ROWS],
    other: &mut [u8; ROWS],
)
    requires { edge_fields * i + edge_fields ≤ length edges.now }
    ensures own_after { own.new ≡ followed own.old (edge_at edges.now i) a seen.resource true seen.second }
    ensures other_after { other.new ≡ followed other.old (edge_at edges.now i) a seen.resource false seen.second }
{
    let k = EDGE_FIELDS * i;
    if edges[k + 2] == a {
        follow(
            own,
            other,
            edges[k],
            edges[k + 1],
            edges[k + 3],
            edges[k + 4],
            edges[k + 5],
            seen,
        );
    }
}

// Those of n edges from edge i on, four at a turn: few edges have the action, and so the turns are what costs.
fn follow_fours(
    edges: &[u8],
    n: usize,
    a: u8,
    seen: Seen,
    own: &mut [u8; ROWS],
    other: &mut [u8; ROWS],
)
    requires n_in_bounds { edge_fields * (4 * n) ≤ length edges.now }
    requires own_value { own.old ≡ replicate row_places 0 }
    requires other_value { other.old ≡ replicate row_places 0 }
    ensures own_after { own.new ≡ edge_ends (from (edge_at edges.now) 0 (4 * n)) a seen.resource true seen.second }
    ensures other_after { other.new ≡ edge_ends (from (edge_at edges.now) 0 (4 * n)) a seen.resource false seen.second }
{
    for i in 0..n {
        follow_edge(edges, 4 * i, a, seen, own, other);
        follow_edge(edges, 4 * i + 1, a, seen, own, other);
        follow_edge(edges, 4 * i + 2, a, seen, own, other);
        follow_edge(edges, 4 * i + 3, a, seen, own, other);
    }
}

// The ends of the matching edges, joined to two empty tables. An action is compared as a byte, and no edge has a greater one.
fn collect_ends(edges: &[u8], action: u32, seen: Seen, own: &mut [u8; ROWS], other: &mut [u8; ROWS])
    requires own_value { own.old ≡ replicate row_places 0 }
    requires other_value { other.old ≡ replicate row_places 0 }
    ensures own_after { own.new ≡ edge_ends (edges_of edges.now) action seen.resource true seen.second }
    ensures other_after { other.new ≡ edge_ends (edges_of edges.now) action seen.resource false seen.second }
{
    if 255 < action {
        return;
    }
    let a = action as u8;
    let n = edges.len() / EDGE_FIELDS;
    let fours = n / 4;
    follow_fours(edges, fours, a, seen, own, other);
    for i in 4 * fours..n {
        follow_edge(edges, i, a, seen, own, other);
    }
}

// The set, or the state q alone where it is empty.
fn or_state(v: u8, q: u32) -> u8
    requires { q < states }
    ensures { result ≡ cond (eqb v 0) (single q) v }
{
    if v == 0 { 1u8 << q } else { v }
}

// Where no edge leads out of a state, the state stays. A value is stored at every place, so that several are at once.
fn stay(table: &mut [u8; ROWS])
    ensures { table.new ≡ stayed table.old }
{
    for k in 0..ROWS {
        table[k] = or_state(table[k], (k % STATES) as u32);
    }
}

// The rows of an event for the instances whose first resource it is on, and for the others. What the tables held does not matter.
fn fill(edges: &[u8], action: u32, seen: Seen, own: &mut [u8; ROWS], other: &mut [u8; ROWS])
    ensures own_after { own.new ≡ rows_at (edges_of edges.now) action seen.resource true seen.second }
    ensures other_after { other.new ≡ rows_at (edges_of edges.now) action seen.resource false seen.second }
{
    *own = [0; ROWS];
    *other = [0; ROWS];
    collect_ends(edges, action, seen, own, other);
    stay(own);
    stay(other);
}

// The rows of an event for its own resource's instance, and for every other instance; of two resources, where it is not the second.
pub fn rows(edges: &[u8], action: u32, resource: u32, own: &mut [u8; ROWS], other: &mut [u8; ROWS])
    ensures own_after { own.new ≡ rows_of (edges_of edges.now) action resource true }
    ensures other_after { other.new ≡ rows_of (edges_of edges.now) action resource false }
{
    let seen = Seen {
        resource,
        second: false,
    };
    fill(edges, action, seen, own, other);
}

// The rows of an event for the instances of two resources whose second it is on: for those of which it is the first too, and for the others.
pub fn rows_second(
    edges: &[u8],
    action: u32,
    resource: u32,
    both: &mut [u8; ROWS],
    second: &mut [u8; ROWS],
)
    ensures both_after { both.new ≡ rows_at (edges_of edges.now) action resource true true }
    ensures second_after { second.new ≡ rows_at (edges_of edges.now) action resource false true }
{
    let seen = Seen {
        resource,
        second: true,
    };
    fill(edges, action, seen, both, second);
}
