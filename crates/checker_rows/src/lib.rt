// The table of rows: of each node with an event, the states that each state of policy p moves to by it, which is on the first watched resource
// or not, and for a pair policy on the second or not.
#![tactic(auto)]

ghost use Rattle.std.specs.Prelude.{◌≡◌, ◌<◌, length};
ghost use Rattle.usage.specs.Limits.{policies, most_nodes};
ghost use Rattle.outline_nodes.specs.Said.{said_by};
ghost use Rattle.usage.specs.Tables.{edges_of};
ghost use Rattle.automaton.specs.Move.{rows_at};
ghost use Rattle.checker_account.specs.Tables.{places};
ghost use Rattle.checker_account.specs.RowTable.{rows_stored, event_rows_lem, node_rows};
ghost use Rattle.checker_rows.specs.Rows.{row_table};

use checker_account::{LAYER, OTHERS, PLACES, Table};
use outline_nodes::NodeForm;
use usage::{MOST_NODES, NODE_FIELDS, POLICIES, STATES};

// The action of a creation.
const CREATE: u32 = 0;

// The places of an event's table: each state of each policy.
const EVENT_TABLE: usize = POLICIES * STATES;

// The way of an event on the second watched resource and not on the first: the rows before it are those of a policy about one.
const SECOND: usize = 2;

// Whose rows are made: a node's event, for a policy, a pair policy or not.
#[derive(Clone, Copy)]
struct Slot {
    node: usize,
    policy: usize,
    pair: bool,
    ghost node_in: { node < most_nodes },
    ghost policy_in: { policy < policies },
}

// The rows of the slot's policy out of two tables of an event, stored for its node, from this way on.
fn store(rows: &mut Table, s: Slot, way: usize, own: &[u8; EVENT_TABLE], other: &[u8; EVENT_TABLE])
    requires { way < 3 }
    ensures { rows.new ≡ rows_stored s.node way s.policy own.now other.now rows.old }
{
    let Slot { node, policy, .. } = s;
    for q in 0..STATES {
        rows[LAYER * way + STATES * node + q] = other[policy * STATES + q] as u16;
        rows[LAYER * (way + 1) + STATES * node + q] = own[policy * STATES + q] as u16;
    }
}

// Those of the node's event: where it is not on the second watched resource, and, for a pair policy, where it is.
fn event_rows(rows: &mut Table, edges: &[u8], s: Slot, action: u32, resource: u32)
    ensures { rows.new
        ≡ event_rows_lem (rows_at (edges_of edges.now)) s.pair s.policy s.node action resource rows.old }
{
    let mut own = [0u8; EVENT_TABLE];
    let mut other = [0u8; EVENT_TABLE];
    automaton::moves::rows(edges, action, resource, &mut own, &mut other);
    store(rows, s, 0, &own, &other);
    if s.pair {
        automaton::moves::rows_second(edges, action, resource, &mut own, &mut other);
        store(rows, s, SECOND, &own, &other);
    }
}

// Those of the node, if it has an event. A name and a creation are on a resource that no edge names.
fn of_node(rows: &mut Table, edges: &[u8], s: Slot, f: NodeForm)
    ensures { rows.new
        ≡ node_rows (rows_at (edges_of edges.now)) s.pair s.policy s.node (said_by f) rows.old }
{
    match f {
        NodeForm::OnStatic { action, resource } => event_rows(
            rows,
            edges,
            s,
            action as u32,
            resource as u32,
        ),
        NodeForm::OnName { action, .. } => event_rows(rows, edges, s, action as u32, OTHERS),
        NodeForm::Fresh { .. } => event_rows(rows, edges, s, CREATE, OTHERS),
        _ => {}
    }
}

// The table of a policy, a pair policy or not. Where there is no such policy, or no room for the nodes, all is 0.
pub fn fill(edges: &[u8], nodes: &[u8], p: usize, pair: bool, rows: &mut Table)
    ensures { rows.new ≡ row_table (rows_at (edges_of edges.now)) pair p nodes.now }
{
    *rows = [0u16; PLACES];
    let n = nodes.len() / NODE_FIELDS;
    if POLICIES <= p {
        return;
    }
    if MOST_NODES < n {
        return;
    }
    for k in 0..n {
        if let Some(f) = outline_nodes::form(nodes, k) {
            let s = Slot {
                node: k,
                policy: p,
                pair,
            };
            of_node(rows, edges, s, f);
        }
    }
}
