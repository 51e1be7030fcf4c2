// The search: which policy is broken, with which resources watched.
ghost use Rattle.std.specs.Prelude.{◌≡◌, ℕ, ◌/◌, ◌<◌, length};
ghost use Rattle.usage.specs.Limits.{policies, node_fields};
ghost use Rattle.usage.specs.Policy.{EdgesOk};
ghost use Rattle.usage.specs.Valid.{OutlineOk};
ghost use Rattle.usage.specs.Tables.{edges_of, nodes_of};
ghost use Rattle.usage.specs.Check.{Leaves, Checked};
ghost use Rattle.usage.specs.Tests.{Decides};
ghost use Rattle.checker_account.specs.Tables.{rows_in};
ghost use Rattle.checker_account.specs.Filling.{forms_in, SearchedAll};
ghost use Rattle.checker.specs.Promise.{outcome_verdict, RightVerdict};
ghost use Rattle.checker.specs.Code.{policy_verdict, SoughtOf};

use crate::Outcome;
use checker_account::{PLACES, Table, Watch};
use usage::{POLICIES, Reason};

// Is policy p, a pair policy or not, whose moves the table of rows has, broken with some resources watched? `local` is the choice of past,
// here and below.
fn broken(nodes: &[u8], rows: &Table, local: bool, p: usize, pair: bool) -> bool
    requires { OutlineOk (nodes_of nodes.now) }
    ensures { SearchedAll local (rows_in rows.now) p pair
        (length nodes.now / node_fields) (forms_in nodes.now) result }
{
    for i in 0..crate::choices::count(pair) {
        let w = Watch {
            local,
            policy: p,
            resources: crate::choices::at(pair, i),
        };
        if crate::choices::worth(nodes, w.resources) && checker_tables::breaks(nodes, rows, w) {
            return true;
        }
    }
    false
}

// Whether policy p is a pair policy; none where no sandbox opens it or it has no edge, so that no trace breaks it. Asked before there is a
// table for its moves, since to clear one takes longer.
pub(crate) fn sought(edges: &[u8], nodes: &[u8], p: usize) -> Option<bool>
    ensures { SoughtOf edges.now nodes.now p result }
{
    if !crate::opens(nodes, p) || !crate::has_edge(edges, p) {
        return None;
    }
    Some(crate::is_pair(edges, p))
}

// Does some trace leave policy p open and not respected?
fn leaves(edges: &[u8], local: bool, nodes: &[u8], p: usize) -> bool
    requires edges_ok { EdgesOk (edges_of edges.now) }
    requires outline_ok { OutlineOk (nodes_of nodes.now) }
    requires p_lt_policies { p < policies }
    ensures { Decides result (Leaves local (edges_of edges.now) (nodes_of nodes.now) p) }
{
    match sought(edges, nodes, p) {
        Some(pair) => {
            let mut rows = [0u16; PLACES];
            checker_rows::fill(edges, nodes, p, pair, &mut rows);
            broken(nodes, &rows, local, p, pair)
        }
        None => false,
    }
}

// The lowest policy that some trace leaves open and not respected.
fn lowest(edges: &[u8], local: bool, nodes: &[u8]) -> Option<u8>
    requires edges_ok { EdgesOk (edges_of edges.now) }
    requires outline_ok { OutlineOk (nodes_of nodes.now) }
    ensures { Checked local (edges_of edges.now) (nodes_of nodes.now) (policy_verdict result) }
{
    for p in 0..POLICIES {
        if leaves(edges, local, nodes, p) {
            return Some(p as u8);
        }
    }
    None
}

// The check of two lent tables.
pub(crate) fn checked(edges: &[u8], local: bool, nodes: &[u8]) -> Result<Outcome, Reason>
    ensures { RightVerdict local edges.now nodes.now (outcome_verdict result) }
{
    if !sheet_fields::edges::edge_table_ok(edges) {
        return Err(Reason::Table);
    }
    if !sheet_rules::node_table_ok(nodes) {
        return Err(Reason::Table);
    }
    match lowest(edges, local, nodes) {
        Some(p) => Ok(Outcome::Named(p)),
        None => Ok(Outcome::Accepted),
    }
}
