// The table of ends: what each node can end in, for each start. The eight starts of a node with the same entry are settled together
// (`sets`), and a node is settled again only where the ends that its rule reads have changed (`work`).
ghost use Rattle.std.specs.Prelude.{◌≡◌, Bool, true, cond, ℕ, ◌+◌, ◌*◌, ◌<◌, ◌≤◌, ◌/◌, length, get_or, replicate};
ghost use Rattle.std.specs.Int.Bits.{bit_or};
ghost use Rattle.usage.specs.Limits.{states, most_nodes};
ghost use Rattle.outline_nodes.specs.Said.{said_by};
ghost use Rattle.automaton.specs.Mask.{has};
ghost use Rattle.checker_account.specs.Single.{no_name};
ghost use Rattle.checker_account.specs.Tables.{late_group, group_in, places_of, over, base, kept_in, begun, row_on, rows_in, in_turn};
ghost use Rattle.checker_account.specs.Tables.{sequence_ends_lem, fresh_ends_lem};
ghost use Rattle.checker_account.specs.Filling.{grown, ends_of_lem, joined_each, settle_node_lem, Filled, Wide};
ghost use Rattle.checker_tables.specs.Search.{group_end, first_ends_lem, Small, NodesFit, resets_if, EndsBy};
ghost use Rattle.checker_tables.specs.ByState.{ByState};

use crate::rows::Site;
use crate::sets::PerState;
use checker_account::{LAYER, OTHERS, Table, UNNAMED, WAITING, WATCHED, WATCHED_TOO, Watch};
use outline_nodes::NodeForm;
use usage::{MOST_NODES, NODE_FIELDS, STATES};

// ── The rules ── of a table that has all entries up to the group of e.

// What the table holds of all starts of node k with entry e and a state in v.
pub(crate) fn begun(t: &[u16], k: usize, e: usize, v: u16) -> u16
    requires k_lt_most_nodes { k < most_nodes }
    requires e_bound { group_in e ≤ late_group }
    requires e_in_bounds { group_end (group_in e) ≤ length t.now }
    ensures { result ≡ begun t.now k e v }
{
    crate::union_over(t, LAYER * e + STATES * k, v)
}

// The same of each start of node k with entry e.
fn held(t: &[u16], k: usize, e: usize) -> PerState
    requires k_lt_most_nodes { k < most_nodes }
    requires e_bound { group_in e ≤ late_group }
    requires e_in_bounds { group_end (group_in e) ≤ length t.now }
    ensures { ByState states (λ q. get_or t.now (base k e + q) 0) result }
{
    crate::sets::entries(t, LAYER * e + STATES * k)
}

// By node b with entry e after node a with entry f. With a first resource that was made, both halves of what a ends in begin b alike.
fn in_turn(t: &[u16], a: usize, b: usize, f: usize, e: usize) -> PerState
    requires a_lt_most_nodes { a < most_nodes }
    requires b_lt_most_nodes { b < most_nodes }
    requires f_bound { group_in f ≤ late_group }
    requires f_in_bounds { group_end (group_in f) ≤ length t.now }
    requires e_bound { group_in e ≤ late_group }
    requires e_in_bounds { group_end (group_in e) ≤ length t.now }
    ensures { ByState states (in_turn t.now a b f e) result }
{
    let v = held(t, a, f);
    let high = crate::sets::upper_each(v);
    if crate::numbers::meaning(e) == 0 {
        let same = crate::sets::union_each(t, LAYER * e + STATES * b, v);
        let made = crate::sets::union_each(t, LAYER * (e + UNNAMED) + STATES * b, high);
        return crate::sets::join_each(same, made);
    }
    let both = crate::sets::join_each(v, high);
    crate::sets::union_each(t, LAYER * e + STATES * b, both)
}

// By a sequence. Where the second resource is created by the end, its second node creates it, or its first does.
fn sequence_ends(t: &[u16], a: usize, b: usize, e: usize) -> PerState
    requires a_lt_most_nodes { a < most_nodes }
    requires b_lt_most_nodes { b < most_nodes }
    requires e_bound { group_in e ≤ late_group }
    requires e_in_bounds { group_end (group_in e) ≤ length t.now }
    ensures { ByState states (sequence_ends_lem t.now a b e) result }
{
    if crate::numbers::is_late(e) {
        let waiting = crate::numbers::in_group(WAITING, e);
        let created = crate::numbers::in_group(0, e);
        let later = in_turn(t, a, b, waiting, e);
        let earlier = in_turn(t, a, b, e, created);
        return crate::sets::join_each(later, earlier);
    }
    in_turn(t, a, b, e, e)
}

// By creating r, and then node b with entry e.
fn created_ends(t: &[u16], s: Site, r: usize, b: usize, e: usize) -> PerState
    requires b_lt_most_nodes { b < most_nodes }
    requires e_bound { group_in e ≤ late_group }
    requires e_in_bounds { group_end (group_in e) ≤ length t.now }
    ensures { ByState states (λ q. begun t.now b e
        (row_on (rows_in s.entry.rows.now) s.entry.resources s.entry.node r q)) result }
{
    let v = s.moved_each(r);
    crate::sets::union_each(t, LAYER * e + STATES * b, v)
}

// By creating another resource or the first one, and then node b.
fn first_ends(t: &[u16], s: Site, n: usize, b: usize, e: usize) -> PerState
    requires n_lt_no_name { n < no_name }
    requires b_lt_most_nodes { b < most_nodes }
    requires e_bound { group_in e ≤ late_group }
    requires e_in_bounds { group_end (group_in e) ≤ length t.now }
    ensures { ByState states
        (first_ends_lem (rows_in s.entry.rows.now) s.entry.resources t.now s.entry.node n b e) result }
{
    let f = crate::numbers::forgotten(e, n);
    let other = created_ends(t, s, OTHERS as usize, b, f);
    let meaning = crate::numbers::meaning(e);
    if meaning == 0 {
        let g = crate::numbers::first_named(e, n);
        let first = created_ends(t, s, WATCHED, b, g);
        return crate::sets::join_each(other, first);
    }
    other
}

// Or the second one, where it is created by the end.
fn fresh_ends(t: &[u16], s: Site, n: usize, b: usize, e: usize) -> PerState
    requires n_lt_no_name { n < no_name }
    requires b_lt_most_nodes { b < most_nodes }
    requires e_bound { group_in e ≤ late_group }
    requires e_in_bounds { group_end (group_in e) ≤ length t.now }
    ensures { ByState states
        (fresh_ends_lem (rows_in s.entry.rows.now) s.entry.resources t.now s.entry.node n b e) result }
{
    let first = first_ends(t, s, n, b, e);
    if crate::numbers::is_late(e) {
        let g = crate::numbers::second_named(e, n);
        let second = created_ends(t, s, WATCHED_TOO, b, g);
        return crate::sets::join_each(first, second);
    }
    first
}

// By one of two nodes.
fn either_ends(t: &[u16], a: usize, b: usize, e: usize) -> PerState
    requires a_lt_most_nodes { a < most_nodes }
    requires b_lt_most_nodes { b < most_nodes }
    requires e_bound { group_in e ≤ late_group }
    requires e_in_bounds { group_end (group_in e) ≤ length t.now }
    ensures { ByState states (λ q. bit_or (get_or t.now (base a e + q) 0) (get_or t.now (base b e + q) 0)) result }
{
    let v = held(t, a, e);
    let w = held(t, b, e);
    crate::sets::join_each(v, w)
}

// By an event on r.
fn event_ends(s: Site, r: usize, e: usize) -> PerState
    ensures { ByState states (λ q. kept_in e
        (row_on (rows_in s.entry.rows.now) s.entry.resources s.entry.node r q)) result }
{
    let v = s.moved_each(r);
    crate::sets::keep_in(e, v)
}

// By the body b of a sandbox. Where its opening resets, the body is begun in state 0, and the policy is open there.
fn inside_ends(t: &[u16], opened: &[u16], reset: bool, b: usize, e: usize) -> PerState
    requires b_lt_most_nodes { b < most_nodes }
    requires e_bound { group_in e ≤ late_group }
    requires e_in_bounds { group_end (group_in e) ≤ length t.now }
    requires opened_len { reset ≡ true → length opened.now ≡ length t.now }
    ensures { ByState states
        (λ q. cond reset (get_or opened.now (base b e + 0) 0) (get_or t.now (base b e + q) 0)) result }
{
    if reset {
        let v = opened[LAYER * e + STATES * b];
        return [v; STATES];
    }
    held(t, b, e)
}

// By one rule: what node k ends in from the starts with entry e. `w.local`: an opening of the policy resets, since it is not open; then
// `opened` is the table of ends where it is.
fn ends_by(t: &[u16], s: Site, opened: &[u16], w: Watch, e: usize) -> PerState
    requires e_bound { group_in e ≤ late_group }
    requires e_in_bounds { group_end (group_in e) ≤ length t.now }
    requires opened_len { w.local ≡ true → length opened.now ≡ length t.now }
    ensures { ByState states
        (λ q. ends_of_lem (rows_in s.entry.rows.now) s.entry.resources
        (resets_if w.local w.policy opened.now) t.now s.entry.node e q (said_by s.entry.form)) result }
{
    match s.form {
        NodeForm::End => crate::sets::keep_in(e, [1u16, 2, 4, 8, 16, 32, 64, 128]),
        NodeForm::OnStatic { resource, .. } => event_ends(s, resource as usize, e),
        NodeForm::OnName { name, .. } => {
            let r = crate::numbers::meant(e, name as usize);
            event_ends(s, r, e)
        }
        NodeForm::Sequence { first, second } => {
            sequence_ends(t, first as usize, second as usize, e)
        }
        NodeForm::Choice { one, other } => either_ends(t, one as usize, other as usize, e),
        NodeForm::Loop { body } => held(t, body as usize, e),
        NodeForm::Back { to } => held(t, to as usize, e),
        NodeForm::Fresh { name, body } => { fresh_ends(t, s, name as usize, body as usize, e) }
        NodeForm::Sandbox { policy, body } => {
            inside_ends(
                t,
                opened,
                w.local & (policy as usize == w.policy),
                body as usize,
                e,
            )
        }
    }
}

// ── Filling ──

// Eight sets joined to those from place i on. Did that change the table?
fn join_sets(t: &mut [u16], i: usize, v: PerState) -> bool
    requires { i + states ≤ length t.old }
    ensures t_after { t.new ≡ joined_each t.old i (λ q. get_or v q 0) }
    ensures value { result ≡ grown t.old t.new }
{
    let mut changed = false;
    for q in 0..STATES {
        changed |= crate::join(t, i + q, v[q]);
    }
    changed
}

// Every start of node k with an entry that occurs. Did that change the table?
fn settle_node(t: &mut [u16], s: Site, opened: &[u16], w: Watch) -> bool
    requires t_len { length t.old ≡ places_of s.resources }
    requires opened_len { w.local ≡ true → length opened.now ≡ places_of s.resources }
    ensures t_after { t.new
        ≡ settle_node_lem (rows_in s.entry.rows.now) s.entry.resources
        (resets_if w.local w.policy opened.now) s.entry.node (said_by s.entry.form) t.old }
    ensures value { result ≡ grown t.old t.new }
{
    let l = crate::numbers::least(s.resources);
    let n = crate::numbers::entries_of(s.resources) - l;
    let mut changed = false;
    for i in 0..n {
        let e = l + i;
        let v = ends_by(t, s, opened, w, e);
        changed |= join_sets(t, LAYER * e + STATES * s.node, v);
    }
    changed
}

// The table; t is empty at first. The highest node that is left is settled first, since a child has a greater number than its parent and
// ends come from the children; where that changes something, the nodes that read it are left again. `w.local`: the table is one where the
// policy is not open, so that its opening resets; `opened` is the one where it is, and is not looked at but then.
pub(crate) fn fill(nodes: &[u8], rows: &Table, opened: &[u16], w: Watch, t: &mut [u16])
    requires nodes_fit { NodesFit nodes.now }
    requires opened_wide { w.local ≡ true → Wide opened.now }
    requires opened_len { w.local ≡ true → length opened.now ≡ places_of w.resources }
    requires t_value { t.old ≡ replicate (places_of w.resources) 0 }
    ensures filled { Filled
        (EndsBy nodes.now rows.now w.resources (resets_if w.local w.policy opened.now))
        (replicate (places_of w.resources) 0) t.new }
    ensures wide { Wide t.new }
{
    let n = nodes.len() / NODE_FIELDS;
    let mut readers = [0u64; MOST_NODES];
    crate::work::note_all(nodes, &mut readers);
    let mut left = crate::work::all(n);
    while left != 0 {
        let k = crate::work::highest(left);
        left -= 1u64 << (k as u32);
        if let Some(f) = outline_nodes::form(nodes, k) {
            let s = Site {
                rows,
                resources: w.resources,
                node: k,
                form: f,
            };
            if settle_node(t, s, opened, w) {
                left |= readers[k];
            }
        }
    }
}
