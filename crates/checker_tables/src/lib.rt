// Is a policy broken, with one or two resources watched? The tables of the account are filled (`ends`, `arrivals`) by the policy's moves, of
// which the crate `checker_rows` has made a table (`rows`), and a violation is looked for in them (`hits`). Here stand the search, and
// what the modules share: single entries of a table, single nodes, and whether the tables have room for them.
#![tactic(auto)]

ghost use Rattle.std.specs.Prelude.{◌≡◌, Bool, true, false, not, ◌&&◌, ℕ, ◌+◌, ◌/◌, ◌<◌, ◌≤◌, ltb, length, get_or, replicate};
ghost use Rattle.usage.specs.Limits.{states, most_nodes, node_fields};
ghost use Rattle.outline_nodes.specs.Said.{said_by};
ghost use Rattle.checker_account.specs.Account.{watched_too};
ghost use Rattle.checker_account.specs.Tables.{over, joined_at, one_resource, places, places_of, restarted};
ghost use Rattle.checker_account.specs.Filling.{grown, by_open, forms_in, Wide};
ghost use Rattle.checker_tables.specs.Marks.{MarkedIf};
ghost use Rattle.checker_tables.specs.Search.{lost, is_on_lem, touched, small, NodesFit, has_room, pair_places, ArrivesBy, ArrivesIf};
ghost use Rattle.checker_tables.specs.Search.{SearchedIf};

use arrivals::Ends;
use checker_account::{
    NAMES, NOTHING, PAIR_PLACES, PLACES, PairTable, Resources, Table, UNNAMED, WATCHED,
    WATCHED_TOO, Watch,
};
use outline_nodes::NodeForm;
use usage::{ACTIONS, MOST_NODES, NODE_FIELDS, STATES};

pub mod arrivals;
mod ends;
mod hits;
pub mod numbers;
mod rows;
mod sets;
pub mod work;

// The union of the eight sets from place i on, over the states in v.
fn union_over(t: &[u16], i: usize, v: u16) -> u16
    requires { i + states ≤ length t.now }
    ensures { result ≡ over (λ q. get_or t.now (i + q) 0) v }
{
    let mut r: u16 = 0;
    for q in 0..STATES {
        let e = t[i + q];
        let more = if (v >> (q as u32)) & 1 == 1 { e } else { 0 };
        r |= more;
    }
    r
}

// A set joined to the one at place i. Did that change?
fn join(t: &mut [u16], i: usize, v: u16) -> bool
    requires { i < length t.old }
    ensures t_after { t.new ≡ joined_at t.old i v }
    ensures value { result ≡ grown t.old t.new }
    ensures wide { Wide t.old → Wide t.new }
{
    let old = t[i];
    let new = old | v;
    t[i] = new;
    new != old
}

// The states v after an opening. Where it resets, state 0 alone, if there is any.
fn restarted(reset: bool, v: u16) -> u16
    ensures { result ≡ restarted reset v }
{
    if !reset {
        return v;
    }
    if v % 256 == 0 { 0 } else { 1 }
}

// Meaning m once meaning n no longer occurs: 1 + a name that is given to another resource, or 0 once the resource was created.
pub fn lose(m: usize, n: usize) -> usize
    ensures { result ≡ lost m n }
{
    if m == n { UNNAMED } else { m }
}

// Is this node an event on the static resource x?
fn is_on(f: NodeForm, x: usize) -> bool
    ensures { result ≡ is_on_lem x (said_by f) }
{
    match f {
        NodeForm::OnStatic { resource, .. } => resource as usize == x,
        _ => false,
    }
}

// Is an event on the resource x? One may be on the dynamic resource. A static resource that none is on need not be watched: its instance
// moves as that of a dynamic resource that never occurs.
pub fn touched(nodes: &[u8], x: usize) -> bool
    ensures { result ≡ touched nodes.now x }
{
    if WATCHED <= x {
        return true;
    }
    let n = nodes.len() / NODE_FIELDS;
    for k in 0..n {
        if let Some(f) = outline_nodes::form(nodes, k) {
            if is_on(f, x) {
                return true;
            }
        }
    }
    false
}

// Is there room for a node of this number?
fn in_room(k: u8) -> bool
    ensures { result ≡ ltb k most_nodes }
{
    (k as usize) < MOST_NODES
}

// Are a node's numbers small enough for the tables?
fn small(f: NodeForm) -> bool
    ensures { result ≡ small (said_by f) }
{
    match f {
        NodeForm::OnStatic { action, .. } => (action as u32) < ACTIONS,
        NodeForm::OnName { action, .. } => (action as u32) < ACTIONS,
        NodeForm::Sequence { first, second } => in_room(first) & in_room(second),
        NodeForm::Choice { one, other } => in_room(one) & in_room(other),
        NodeForm::Loop { body } => in_room(body),
        NodeForm::Back { to } => in_room(to),
        NodeForm::Fresh { name, body } => ((name as usize) < NAMES) & in_room(body),
        NodeForm::Sandbox { body, .. } => in_room(body),
        _ => true,
    }
}

// Do the tables have room for these nodes?
pub fn fits(nodes: &[u8]) -> bool
    ensures { result ≡ has_room nodes.now }
{
    let n = nodes.len() / NODE_FIELDS;
    if MOST_NODES < n {
        return false;
    }
    for k in 0..n {
        if let Some(f) = outline_nodes::form(nodes, k) {
            if !small(f) {
                return false;
            }
        }
    }
    true
}

// Is the policy broken, by the tables of ends where it is open and where it is not? u becomes the table of what is come to.
fn found(nodes: &[u8], rows: &Table, ends: Ends, w: Watch, u: &mut [u16]) -> bool
    requires nodes_fit { NodesFit nodes.now }
    requires ends_len { length ends.opened.now ≡ places_of w.resources }
    requires u_value { u.old ≡ replicate (places_of w.resources) 0 }
    ensures { ArrivesBy nodes.now w.local rows.now
        (by_open ends.entry.opened.now ends.entry.shut.now) w.policy w.resources u.new result }
{
    arrivals::fill(nodes, rows, ends, w, u);
    hits::any(nodes, rows, u, w)
}

// The same by the nodes, with N places in each table; u is empty at first. Where the policy is open, no opening resets anything; where the
// whole past counts, none does at all, and one table of ends serves.
fn search<const N: usize>(nodes: &[u8], rows: &Table, w: Watch, u: &mut [u16; N]) -> bool
    requires places_value { N ≡ places_of w.resources }
    requires u_value { u.old ≡ replicate N 0 }
    ensures { ArrivesIf (has_room nodes.now) nodes.now w.local rows.now
        w.policy w.resources u.new result }
{
    if !fits(nodes) {
        return false;
    }
    let mut opened = [0u16; N];
    let open = Watch { local: false, ..w };
    ends::fill(nodes, rows, rows, open, &mut opened);
    if w.local {
        let mut shut = [0u16; N];
        ends::fill(nodes, rows, &opened, w, &mut shut);
        let ends = Ends {
            opened: &opened,
            shut: &shut,
        };
        return found(nodes, rows, ends, w, u);
    }
    let ends = Ends {
        opened: &opened,
        shut: &opened,
    };
    found(nodes, rows, ends, w, u)
}

// Is the policy, whose moves the table of rows has, broken with the first resource watched alone? u becomes the table of what is come to.
// Where the tables have no room for the nodes, it is not, and u is empty.
pub fn arrive(nodes: &[u8], rows: &Table, w: Watch, u: &mut Table) -> bool
    ensures { ArrivesIf (has_room nodes.now) nodes.now w.local rows.now
        w.policy (one_resource w.resources.first) u.new result }
{
    *u = [0u16; PLACES];
    let one = Resources {
        first: w.resources.first,
        second: NOTHING,
    };
    search(
        nodes,
        rows,
        Watch {
            resources: one,
            ..w
        },
        u,
    )
}

// The answer alone, with the resources watched.
pub fn breaks(nodes: &[u8], rows: &Table, w: Watch) -> bool
    ensures { SearchedIf (has_room nodes.now) nodes.now w.local rows.now
        w.policy w.resources result }
{
    if w.resources.second == WATCHED_TOO {
        let mut u = [0u16; PAIR_PLACES];
        return search(nodes, rows, w, &mut u);
    }
    let mut u = [0u16; PLACES];
    search(nodes, rows, w, &mut u)
}

// The marks of the policy, with N places in each table: the search, and where it finds something, gone through to the end.
fn marks_in<const N: usize>(nodes: &[u8], rows: &Table, w: Watch) -> u64
    requires { N ≡ places_of w.resources }
    ensures { MarkedIf (has_room nodes.now) nodes.now w.local rows.now
        w.policy w.resources result }
{
    let mut u = [0u16; N];
    if search(nodes, rows, w, &mut u) {
        return hits::marks(nodes, rows, &u, w);
    }
    0
}

// With the resources watched. Where the tables have no room for the nodes, there are none.
pub fn marks_of(nodes: &[u8], rows: &Table, w: Watch) -> u64
    ensures { MarkedIf (has_room nodes.now) nodes.now w.local rows.now
        w.policy w.resources result }
{
    if w.resources.second == WATCHED_TOO {
        marks_in::<PAIR_PLACES>(nodes, rows, w)
    } else {
        marks_in::<PLACES>(nodes, rows, w)
    }
}
