// The static check of outlines: document 01's check. For each policy and choice of watched resources the crate `checker_tables` fills the tables of
// the account and looks for a violation in them.
#![tactic(auto)]

ghost use Rattle.std.specs.Prelude.{◌≡◌, ℕ};
ghost use Rattle.checker.specs.Promise.{outcome_verdict, CheckPromise};
ghost use Rattle.checker.specs.Code.{is_opening_lem, opens, has_edge_lem, pair_in};
ghost use Rattle.outline_nodes.specs.Said.{said_by};

use outline_nodes::NodeForm;
use usage::{EDGE_FIELDS, NODE_FIELDS, Reason};

mod choices;
mod search;
pub mod summary;

// The answer of the check: accepted; or refused with the lowest policy that some trace leaves open and not respected.
#[derive(Clone, Copy, PartialEq, Eq, Debug)]
pub enum Outcome {
    Accepted,
    Named(u8),
}

// Is this node a sandbox of policy p?
fn is_opening(f: NodeForm, p: usize) -> bool
    ensures { result ≡ is_opening_lem p (said_by f) }
{
    match f {
        NodeForm::Sandbox { policy, .. } => policy as usize == p,
        _ => false,
    }
}

// Does a sandbox open policy p?
fn opens(nodes: &[u8], p: usize) -> bool
    ensures { result ≡ opens nodes.now p }
{
    for k in 0..nodes.len() / NODE_FIELDS {
        if let Some(f) = outline_nodes::form(nodes, k) {
            if is_opening(f, p) {
                return true;
            }
        }
    }
    false
}

// Does policy p have an edge? Kept beside `is_pair`: one loop over a test that is handed in would be no plainer, since that the test reads
// within the table would have to be asked of who hands it in.
fn has_edge(edges: &[u8], p: usize) -> bool
    ensures { result ≡ has_edge_lem edges.now p }
{
    for i in 0..edges.len() / EDGE_FIELDS {
        if edges[EDGE_FIELDS * i] as usize == p {
            return true;
        }
    }
    false
}

// The place of an edge's kind of resource, and the kind that is the second resource. Kept: bytes of the flat table, as `pair_in`
// (specs/Code) and `edge_at` read it.
const ON_FIELD: usize = 3;

const ON_SECOND: u8 = 3;

// Is policy p a pair policy: does it have an edge on the second resource?
fn is_pair(edges: &[u8], p: usize) -> bool
    ensures { result ≡ pair_in edges.now p }
{
    for i in 0..edges.len() / EDGE_FIELDS {
        let k = EDGE_FIELDS * i;
        if edges[k] as usize == p && edges[k + ON_FIELD] == ON_SECOND {
            return true;
        }
    }
    false
}

// The check of an outline, as a flat table of nodes, under a flat table of edges and a choice of past.
pub fn check(edges: &[u8], local: bool, nodes: &[u8]) -> Result<Outcome, Reason>
    ensures { CheckPromise local edges.now nodes.now (outcome_verdict result) }
{
    search::checked(edges, local, nodes)
}
