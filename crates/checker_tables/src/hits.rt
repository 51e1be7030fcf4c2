// The search for a violation: a node whose step leaves the policy open with an offending state, by the table of what is come to.
ghost use Rattle.std.specs.Prelude.{◌≡◌, Bool, true, false, cond, ℕ, ◌<◌, ◌≤◌, length, get_or};
ghost use Rattle.std.specs.Int.Bits.{bit_or};
ghost use Rattle.usage.specs.Limits.{most_nodes};
ghost use Rattle.outline_nodes.specs.Said.{said_by};
ghost use Rattle.checker_account.specs.Tables.{late_group, group_in, places_of, rows_in, restarted, place};
ghost use Rattle.checker_account.specs.Filling.{leaves_of, hit_node_lem};
ghost use Rattle.checker_tables.specs.Search.{group_end, Small, NodesFit, hit_in};
ghost use Rattle.checker_tables.specs.Marks.{last_in, mark_bit_lem, marks_in};

use crate::rows::Site;
use checker_account::{Table, Watch};
use outline_nodes::NodeForm;
use usage::NODE_FIELDS;

// The states after the opening of the policy. Where it was not open, the opening resets under the local meaning.
fn opened(u: &[u16], local: bool, k: usize, c: usize, same: bool) -> u16
    requires k_lt_most_nodes { k < most_nodes }
    requires c_bound { group_in (c) ≤ late_group }
    requires c_in_bounds { group_end (group_in (c)) ≤ length u.now }
    ensures { result ≡ cond same
        (bit_or (restarted local (get_or u.now (place k false c) 0)) (get_or u.now (place k true c) 0)) 0 }
{
    if same {
        crate::restarted(local, crate::arrivals::states_at(u, k, false, c))
            | crate::arrivals::states_at(u, k, true, c)
    } else {
        0
    }
}

// The states that the step of node k leaves, the policy being open.
fn leaves_by(u: &[u16], s: Site, w: Watch, c: usize) -> u16
    requires c_bound { group_in (c) ≤ late_group }
    requires c_in_bounds { group_end (group_in (c)) ≤ length u.now }
    ensures { result ≡ leaves_of w.local (rows_in s.entry.rows.now) w.policy s.entry.resources
        u.now s.entry.node c (said_by s.entry.form) }
{
    let v = crate::arrivals::states_at(u, s.node, true, c);
    match s.form {
        NodeForm::OnStatic { resource, .. } => { s.moved_set(resource as usize, v) }
        NodeForm::OnName { name, .. } => {
            let r = crate::numbers::meant(c, name as usize);
            s.moved_set(r, v)
        }
        NodeForm::Fresh { .. } => { s.created(c, v) }
        NodeForm::Sandbox { policy, .. } => opened(
            u,
            w.local,
            s.node,
            c,
            policy as usize == w.policy,
        ),
        _ => 0,
    }
}

// Does the step of node k leave an offending state, with some code that occurs?
fn hit_node(u: &[u16], s: Site, w: Watch) -> bool
    requires { length u.now ≡ places_of s.resources }
    ensures { result ≡ hit_node_lem w.local (rows_in s.entry.rows.now) w.policy s.entry.resources
        u.now s.entry.node (said_by s.entry.form) }
{
    let l = crate::numbers::least(s.resources);
    let n = crate::numbers::codes_of(s.resources) - l;
    for i in 0..n {
        let v = leaves_by(u, s, w, l + i);
        if 64 <= v % 256 {
            return true;
        }
    }
    false
}

// Does that of some node? u is the table of what is come to.
pub(crate) fn any(nodes: &[u8], rows: &Table, u: &[u16], w: Watch) -> bool
    requires nodes_fit { NodesFit nodes.now }
    requires u_len { length u.now ≡ places_of w.resources }
    ensures { result ≡ hit_in nodes.now w.local rows.now u.now w.policy w.resources }
{
    let n = nodes.len() / NODE_FIELDS;
    for k in 0..n {
        if let Some(f) = outline_nodes::form(nodes, k) {
            let s = Site {
                rows,
                resources: w.resources,
                node: k,
                form: f,
            };
            if hit_node(u, s, w) {
                return true;
            }
        }
    }
    false
}

// ── The marks (02, L11) ──

// The bit of an opening; those below it are the actions'.
const OPENING_BIT: u64 = 4294967296;

// The step of a node as a bit: an event by its action, a create by action 0.
fn mark_bit(s: Site) -> u64
    ensures { result ≡ mark_bit_lem (last_in (said_by s.entry.form)) }
{
    match s.form {
        NodeForm::OnStatic { action, .. } => 1u64 << (action as u32),
        NodeForm::OnName { action, .. } => 1u64 << (action as u32),
        NodeForm::Fresh { .. } => 1,
        NodeForm::Sandbox { .. } => OPENING_BIT,
        _ => 0,
    }
}

// It, or none.
fn mark_if(b: bool, s: Site) -> u64
    ensures { result ≡ cond b (mark_bit_lem (last_in (said_by s.entry.form))) 0 }
{
    if b { mark_bit(s) } else { 0 }
}

// The steps of all nodes that leave an offending state.
pub(crate) fn marks(nodes: &[u8], rows: &Table, u: &[u16], w: Watch) -> u64
    requires nodes_fit { NodesFit nodes.now }
    requires u_len { length u.now ≡ places_of w.resources }
    ensures { result ≡ marks_in nodes.now w.local rows.now u.now w.policy w.resources }
{
    let n = nodes.len() / NODE_FIELDS;
    let mut m: u64 = 0;
    for k in 0..n {
        if let Some(f) = outline_nodes::form(nodes, k) {
            let s = Site {
                rows,
                resources: w.resources,
                node: k,
                form: f,
            };
            m |= mark_if(hit_node(u, s, w), s);
        }
    }
    m
}
