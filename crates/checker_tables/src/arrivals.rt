// The table of what is come to: in which states each node can be come to, for each code, the policy being open or not. It is
// filled in rounds over all nodes, from the lowest to the highest, until one brings nothing new.
ghost use Rattle.std.specs.Prelude.{◌≡◌, Bool, true, false, not, ◌&&◌, ◌||◌, List, [], ◌∷◌, ℕ, ◌<◌, ◌≤◌, length, get_or, replicate};
ghost use Rattle.usage.specs.Limits.{most_nodes};
ghost use Rattle.outline_nodes.specs.Said.{said_by};
ghost use Rattle.checker_account.specs.Single.{no_name};
ghost use Rattle.checker_account.specs.Tables.{late_group, group_in, waits, in_group_lem, places_of, begun, rows_in, restarted, place, ◌by◌by◌with◌};
ghost use Rattle.checker_account.specs.Tables.{halves, second_arrivals, fresh_arrivals};
ghost use Rattle.checker_account.specs.Filling.{grown, by_open, arrivals_of, pass_node_lem, begins, Wide, Filled};
ghost use Rattle.checker_tables.specs.Search.{group_end, first_arrivals, Small, NodesFit, Enters, come_to_lem, comes_round, ComesBy};

use crate::rows::Site;
use checker_account::{Arrival, LATE, LAYER, MEANINGS, OTHERS, Table, WATCHED_TOO, Watch};
use outline_nodes::NodeForm;
use usage::{MOST_NODES, NODE_FIELDS, STATES};

// The place of a node in the table of what is come to.
fn place(k: usize, o: bool, c: usize) -> usize
    requires k_lt_most_nodes { k < most_nodes }
    requires c_bound { group_in c ≤ late_group }
    ensures { result ≡ place k o c }
{
    if o {
        LAYER * c + STATES * k + 1
    } else {
        LAYER * c + STATES * k
    }
}

// The states in which node k is come to, by the table.
pub(crate) fn states_at(u: &[u16], k: usize, o: bool, c: usize) -> u16
    requires k_lt_most_nodes { k < most_nodes }
    requires c_bound { group_in (c) ≤ late_group }
    requires c_in_bounds { group_end (group_in (c)) ≤ length u.now }
    ensures { result ≡ get_or u.now (place k o c) 0 }
{
    u[place(k, o, c)]
}

// The same for other crates, with one dynamic resource watched at most: none where the table has no such place.
pub fn come_to(u: &Table, k: usize, o: bool, m: usize) -> u16
    ensures { result ≡ come_to_lem u.now k o m }
{
    if MOST_NODES <= k {
        return 0;
    }
    if MEANINGS <= m {
        return 0;
    }
    states_at(u, k, o, m)
}

// The same arrival at another node.
fn onto(from: Arrival, to: usize) -> Arrival
    ensures { result ≡ (to by from.opened by from.meaning with from.states) }
{
    Arrival {
        to,
        opened: from.opened,
        meaning: from.meaning,
        states: from.states,
    }
}

// A node is come to. Is that new?
fn enter(u: &mut [u16], g: Arrival) -> bool
    requires to_lt_most_nodes { g.to < most_nodes }
    requires meaning_bound { group_in g.meaning ≤ late_group }
    requires meaning_in_bounds { group_end (group_in g.meaning) ≤ length u.old }
    ensures { Enters
        (g ∷ [])
        u.old u.new result }
{
    let i = place(g.to, g.opened, g.meaning);
    crate::join(u, i, g.states)
}

// Two nodes are, in the same states.
fn enter_two(u: &mut [u16], a: usize, b: usize, from: Arrival) -> bool
    requires a_lt_most_nodes { a < most_nodes }
    requires b_lt_most_nodes { b < most_nodes }
    requires meaning_bound { group_in from.meaning ≤ late_group }
    requires meaning_in_bounds { group_end (group_in from.meaning) ≤ length u.old }
    ensures { Enters
        ((a by from.opened by from.meaning with from.states) ∷ (b by from.opened by from.meaning with from.states) ∷ [])
        u.old u.new result }
{
    let first = enter(u, onto(from, a));
    let second = enter(u, onto(from, b));
    first | second
}

// One is after a node that ended in g.states: in those of the lower half, the first resource being as it was, and of the upper half, that
// resource being made.
fn enter_halves(u: &mut [u16], g: Arrival) -> bool
    requires to_lt_most_nodes { g.to < most_nodes }
    requires meaning_bound { group_in g.meaning ≤ late_group }
    requires meaning_in_bounds { group_end (group_in g.meaning) ≤ length u.old }
    ensures { Enters
        (halves g.to g.opened g.meaning g.states [])
        u.old u.new result }
{
    let same = Arrival {
        to: g.to,
        opened: g.opened,
        meaning: g.meaning,
        states: g.states % 256,
    };
    let made = Arrival {
        to: g.to,
        opened: g.opened,
        meaning: crate::numbers::after(g.meaning),
        states: g.states / 256,
    };
    let low = enter(u, same);
    let high = enter(u, made);
    low | high
}

// The second node of a sequence after its first, where that creates the second resource.
fn enter_late(u: &mut [u16], t: &[u16], a: usize, b: usize, from: Arrival) -> bool
    requires a_lt_most_nodes { a < most_nodes }
    requires b_lt_most_nodes { b < most_nodes }
    requires meaning_bound { group_in from.meaning ≤ late_group }
    requires meaning_in_bounds { group_end (group_in from.meaning) ≤ length u.old }
    requires late_group_in_bounds { group_end late_group ≤ length t.now }
    ensures { Enters
        (halves b from.opened (in_group_lem 0 from.meaning) (begun t.now a (in_group_lem late_group from.meaning) from.states)
        [])
        u.old u.new result }
{
    let late = crate::numbers::in_group(LATE, from.meaning);
    let after = Arrival {
        to: b,
        opened: from.opened,
        meaning: crate::numbers::in_group(0, from.meaning),
        states: crate::ends::begun(t, a, late, from.states),
    };
    enter_halves(u, after)
}

// The second node of a sequence, in what the first ends in.
fn enter_second(u: &mut [u16], t: &[u16], a: usize, b: usize, from: Arrival) -> bool
    requires a_lt_most_nodes { a < most_nodes }
    requires b_lt_most_nodes { b < most_nodes }
    requires meaning_bound { group_in from.meaning ≤ late_group }
    requires meaning_in_bounds { group_end (group_in from.meaning) ≤ length u.old }
    requires meaning_in_t { group_end (group_in from.meaning) ≤ length t.now }
    requires late_group_in_bounds { waits from.meaning ≡ true → group_end late_group ≤ length t.now }
    ensures { Enters
        (second_arrivals t.now a b from.opened from.meaning from.states)
        u.old u.new result }
{
    let after = Arrival {
        to: b,
        opened: from.opened,
        meaning: from.meaning,
        states: crate::ends::begun(t, a, from.meaning, from.states),
    };
    let new = enter_halves(u, after);
    if crate::numbers::waits(from.meaning) {
        let late = enter_late(u, t, a, b, from);
        return new | late;
    }
    new
}

// A sequence leads to its first node, and to its second.
fn pass_sequence(u: &mut [u16], t: &[u16], a: usize, b: usize, from: Arrival) -> bool
    requires a_lt_most_nodes { a < most_nodes }
    requires b_lt_most_nodes { b < most_nodes }
    requires meaning_bound { group_in from.meaning ≤ late_group }
    requires meaning_in_bounds { group_end (group_in from.meaning) ≤ length u.old }
    requires meaning_in_t { group_end (group_in from.meaning) ≤ length t.now }
    requires late_group_in_bounds { waits from.meaning ≡ true → group_end late_group ≤ length t.now }
    ensures { Enters
        ((a by from.opened by from.meaning with from.states)
        ∷ second_arrivals t.now a b from.opened from.meaning from.states)
        u.old u.new result }
{
    let first = enter(u, onto(from, a));
    let second = enter_second(u, t, a, b, from);
    first | second
}

// A fresh node leads to its body, another resource or the first one being created.
fn enter_fresh(u: &mut [u16], s: Site, n: usize, b: usize, from: Arrival) -> bool
    requires n_lt_no_name { n < no_name }
    requires b_lt_most_nodes { b < most_nodes }
    requires meaning_bound { group_in from.meaning ≤ late_group }
    requires meaning_in_bounds { group_end (group_in from.meaning) ≤ length u.old }
    ensures { Enters
        (first_arrivals (rows_in s.entry.rows.now) s.entry.resources s.entry.node n b from.opened from.meaning from.states)
        u.old u.new result }
{
    let other = Arrival {
        to: b,
        opened: from.opened,
        meaning: crate::numbers::forgotten(from.meaning, n),
        states: s.moved_set(OTHERS as usize, from.states),
    };
    let own = Arrival {
        to: b,
        opened: from.opened,
        meaning: crate::numbers::first_named(from.meaning, n),
        states: s.first_created(from.meaning, from.states),
    };
    let one = enter(u, other);
    let two = enter(u, own);
    one | two
}

// Or the second one, where it can still be created.
fn pass_fresh(u: &mut [u16], s: Site, n: usize, b: usize, from: Arrival) -> bool
    requires n_lt_no_name { n < no_name }
    requires b_lt_most_nodes { b < most_nodes }
    requires meaning_bound { group_in from.meaning ≤ late_group }
    requires meaning_in_bounds { group_end (group_in from.meaning) ≤ length u.old }
    ensures { Enters
        (fresh_arrivals (rows_in s.entry.rows.now) s.entry.resources s.entry.node n b from.opened from.meaning from.states)
        u.old u.new result }
{
    let new = enter_fresh(u, s, n, b, from);
    if crate::numbers::waits(from.meaning) {
        let second = Arrival {
            to: b,
            opened: from.opened,
            meaning: crate::numbers::second_named(from.meaning, n),
            states: s.moved_set(WATCHED_TOO, from.states),
        };
        let more = enter(u, second);
        return new | more;
    }
    new
}

// A sandbox leads to its body. `same`: it is one of the policy, which is open in it; where it was not, its opening resets under the local
// meaning.
fn pass_sandbox(u: &mut [u16], local: bool, same: bool, b: usize, from: Arrival) -> bool
    requires b_lt_most_nodes { b < most_nodes }
    requires meaning_bound { group_in from.meaning ≤ late_group }
    requires meaning_in_bounds { group_end (group_in from.meaning) ≤ length u.old }
    ensures { Enters
        ((b by (from.opened || same) by from.meaning with restarted (local && (same && not from.opened)) from.states) ∷ [])
        u.old u.new result }
{
    let o = from.opened;
    let inside = Arrival {
        to: b,
        opened: o | same,
        meaning: from.meaning,
        states: crate::restarted(local & (same & !o), from.states),
    };
    enter(u, inside)
}

// What a node that is come to leads to; t is the table of ends where the policy is open or not, as it is there. Is anything of it new?
fn pass_by(u: &mut [u16], t: &[u16], s: Site, w: Watch, from: Arrival) -> bool
    requires meaning_bound { group_in from.meaning ≤ late_group }
    requires meaning_in_bounds { group_end (group_in from.meaning) ≤ length u.old }
    requires meaning_in_t { group_end (group_in from.meaning) ≤ length t.now }
    requires late_group_in_bounds { waits from.meaning ≡ true → group_end late_group ≤ length t.now }
    ensures { Enters
        (arrivals_of w.local (rows_in s.entry.rows.now) w.policy s.entry.resources t.now
        s.entry.node from.opened from.meaning from.states (said_by s.entry.form))
        u.old u.new result }
{
    match s.form {
        NodeForm::Sequence { first, second } => {
            pass_sequence(u, t, first as usize, second as usize, from)
        }
        NodeForm::Choice { one, other } => enter_two(u, one as usize, other as usize, from),
        NodeForm::Loop { body } => enter(u, onto(from, body as usize)),
        NodeForm::Back { to } => enter(u, onto(from, to as usize)),
        NodeForm::Fresh { name, body } => { pass_fresh(u, s, name as usize, body as usize, from) }
        NodeForm::Sandbox { policy, body } => {
            pass_sandbox(u, w.local, policy as usize == w.policy, body as usize, from)
        }
        _ => false,
    }
}

// The tables of ends: where the policy is open, and where it is not.
#[derive(Clone, Copy)]
pub(crate) struct Ends<'a> {
    pub(crate) opened: &'a [u16],
    pub(crate) shut: &'a [u16],
    ghost alike: { length shut.now ≡ length opened.now },
}

impl<'a> Ends<'a> {
    // The one where the policy is open or not.
    fn where_open(self, o: bool) -> &'a [u16]
        ensures { result.now ≡ by_open self.entry.opened.now self.entry.shut.now o }
    {
        if o { self.opened } else { self.shut }
    }
}

// The same by the tables of ends. A node that is not come to leads to nothing: most of the table is empty and passed over by one test. Is
// anything of it new?
fn pass(u: &mut [u16], ends: Ends, s: Site, w: Watch, from: Arrival) -> bool
    requires meaning_bound { group_in from.meaning ≤ late_group }
    requires meaning_in_bounds { group_end (group_in from.meaning) ≤ length u.old }
    requires ends_len { length ends.opened.now ≡ length u.old }
    requires late_group_in_bounds { waits from.meaning ≡ true → group_end late_group ≤ length u.old }
    ensures { Enters
        (arrivals_of w.local (rows_in s.entry.rows.now) w.policy s.entry.resources
        (by_open ends.entry.opened.now ends.entry.shut.now from.opened)
        s.entry.node from.opened from.meaning from.states (said_by s.entry.form))
        u.old u.new result }
{
    if from.states == 0 {
        return false;
    }
    let t = ends.where_open(from.opened);
    pass_by(u, t, s, w, from)
}

// Node k with every code that occurs, the policy being open or not. Is anything new?
fn pass_node(u: &mut [u16], ends: Ends, s: Site, w: Watch) -> bool
    requires u_len { length u.old ≡ places_of s.resources }
    requires ends_len { length ends.opened.now ≡ places_of s.resources }
    ensures u_after { u.new
        ≡ pass_node_lem w.local (rows_in s.entry.rows.now) w.policy s.entry.resources
        (by_open ends.entry.opened.now ends.entry.shut.now) s.entry.node (said_by s.entry.form) u.old }
    ensures value { result ≡ grown u.old u.new }
    ensures wide { Wide u.old → Wide u.new }
{
    let l = crate::numbers::least(s.resources);
    let n = 2 * (crate::numbers::codes_of(s.resources) - l);
    let mut changed = false;
    for i in 0..n {
        let c = l + i / 2;
        let o = i % 2 == 1;
        let from = Arrival {
            to: s.node,
            opened: o,
            meaning: c,
            states: states_at(u, s.node, o, c),
        };
        if pass(u, ends, s, w, from) {
            changed = true;
        }
    }
    changed
}

// Every node, from the lowest to the highest. Is anything new?
fn pass_round(u: &mut [u16], ends: Ends, nodes: &[u8], rows: &Table, w: Watch) -> bool
    requires u_len { length u.old ≡ places_of w.resources }
    requires ends_len { length ends.opened.now ≡ places_of w.resources }
    requires nodes_fit { NodesFit nodes.now }
    ensures u_after { u.new
        ≡ comes_round nodes.now w.local rows.now (by_open ends.entry.opened.now ends.entry.shut.now)
        w.policy w.resources u.old }
    ensures value { result ≡ grown u.old u.new }
    ensures wide { Wide u.old → Wide u.new }
{
    let n = nodes.len() / NODE_FIELDS;
    let mut changed = false;
    for k in 0..n {
        if let Some(f) = outline_nodes::form(nodes, k) {
            let s = Site {
                rows,
                resources: w.resources,
                node: k,
                form: f,
            };
            changed |= pass_node(u, ends, s, w);
        }
    }
    changed
}

// The table, by the tables of ends where the policy is open and where it is not; u is empty at first.
pub(crate) fn fill(nodes: &[u8], rows: &Table, ends: Ends, w: Watch, u: &mut [u16])
    requires nodes_fit { NodesFit nodes.now }
    requires ends_len { length ends.opened.now ≡ places_of w.resources }
    requires u_value { u.old ≡ replicate (places_of w.resources) 0 }
    ensures { Filled
        (ComesBy nodes.now w.local rows.now (by_open ends.entry.opened.now ends.entry.shut.now)
        w.policy w.resources)
        (begins w.resources) u.new }
{
    let c = crate::numbers::first_code(w.resources);
    let i = place(0, false, c);
    crate::join(u, i, 1);
    loop {
        if !pass_round(u, ends, nodes, rows, w) {
            return;
        }
    }
}
