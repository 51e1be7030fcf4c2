// The exact summary of an outline (02, L11), from the tables that the check fills: for each policy the marks of all choices of resources
// that are watched in turn.
ghost use Rattle.std.specs.Prelude.{ℕ, ◌/◌, ◌<◌, ◌≤◌, ◌≡◌, length};
ghost use Rattle.usage.specs.Limits.{policies, node_fields};
ghost use Rattle.usage.specs.Policy.{EdgesOk};
ghost use Rattle.usage.specs.Valid.{OutlineOk};
ghost use Rattle.usage.specs.Tables.{edges_of, nodes_of};
ghost use Rattle.checker_account.specs.Tables.{rows_in};
ghost use Rattle.checker_account.specs.Filling.{forms_in};
ghost use Rattle.checker_tables.specs.Marks.{MarkedAll};
ghost use Rattle.checker.specs.Summary.{MarksExact, Summarized, summary_number};
ghost use Rattle.checker.specs.Code.{MarkedIn, MarksWritten};

use crate::search;
use checker_account::{PLACES, Table, Watch};
use usage::{POLICIES, Reason};

// The marks with some resources watched: none where no event is on a static one of them.
fn marks_with(nodes: &[u8], rows: &Table, w: Watch) -> u64
    requires { OutlineOk (nodes_of nodes.now) }
    ensures { MarkedIn nodes.now w.local rows.now w.policy w.resources result }
{
    if crate::choices::worth(nodes, w.resources) {
        checker_tables::marks_of(nodes, rows, w)
    } else {
        0
    }
}

// The marks of policy p, a pair policy or not, whose moves the table of rows has.
fn policy_marks(nodes: &[u8], rows: &Table, local: bool, p: usize, pair: bool) -> u64
    requires { OutlineOk (nodes_of nodes.now) }
    ensures { MarkedAll local (rows_in rows.now) p pair (length nodes.now / node_fields)
        (forms_in nodes.now) result }
{
    let mut m: u64 = 0;
    for i in 0..crate::choices::count(pair) {
        let w = Watch {
            local,
            policy: p,
            resources: crate::choices::at(pair, i),
        };
        m |= marks_with(nodes, rows, w);
    }
    m
}

// Which actions, and whether its opening, can be the last step of a trace that leaves policy p open and not respected.
fn exact_marks(edges: &[u8], local: bool, nodes: &[u8], p: usize) -> u64
    requires edges_ok { EdgesOk (edges_of edges.now) }
    requires outline_ok { OutlineOk (nodes_of nodes.now) }
    requires p_lt_policies { p < policies }
    ensures { MarksExact local (edges_of edges.now) (nodes_of nodes.now) p result }
{
    match search::sought(edges, nodes, p) {
        Some(pair) => {
            let mut rows = [0u16; PLACES];
            checker_rows::fill(edges, nodes, p, pair, &mut rows);
            policy_marks(nodes, &rows, local, p, pair)
        }
        None => 0,
    }
}

// The numbers of all policies, one after the other.
fn write(edges: &[u8], local: bool, nodes: &[u8], marks: &mut [u64])
    requires edges_ok { EdgesOk (edges_of edges.now) }
    requires outline_ok { OutlineOk (nodes_of nodes.now) }
    requires policies_in_bounds { policies ≤ length marks.old }
    ensures { MarksWritten local edges.now nodes.now marks.old marks.new }
{
    for p in 0..POLICIES {
        marks[p] = exact_marks(edges, local, nodes, p);
    }
}

// The exact summary of an outline, as a flat table of nodes, under a flat table of edges and a choice of past, into a table with room for
// eight numbers. A refusal writes nothing.
pub fn summary(edges: &[u8], local: bool, nodes: &[u8], marks: &mut [u64]) -> Result<(), Reason>
    ensures { Summarized local edges.now nodes.now marks.old (summary_number result) marks.new }
{
    if marks.len() < POLICIES {
        return Err(Reason::Room);
    }
    if !sheet_fields::edges::edge_table_ok(edges) {
        return Err(Reason::Table);
    }
    if !sheet_rules::node_table_ok(nodes) {
        return Err(Reason::Table);
    }
    write(edges, local, nodes, marks);
    Ok(())
}
