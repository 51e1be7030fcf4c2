// Tables of edges (document 01: "An edge is a record of policy, from, action, on, who, to"), six numbers to an edge: the test by
// which the judge and the check refuse a table with 41.
ghost use Rattle.std.specs.Prelude.{◌+◌, ◌*◌, ◌/◌, ◌≤◌, ◌≡◌, true, length};
ghost use Rattle.usage.specs.Limits.{edge_fields};
ghost use Rattle.usage.specs.Tables.{edge_at, is_edge_table};
ghost use Rattle.sheet_fields.specs.TableTest.{table_tested};
ghost use Rattle.sheet_fields.specs.Code.{tested_with, tested_in};

use crate::blocks::BLOCK_EDGES;
use usage::{EDGE_FIELDS, MOST_EDGES};

// Whole edges, at most 256 of them, each in range, and at most two pair policies: a table that an accepted policy sheet gives.
pub fn edge_table_ok(edges: &[u8]) -> bool
    ensures { result ≡ is_edge_table edges.now }
{
    edge_table(edges).is_some()
}

// Of such a table which policies are pair policies, as a bit set.
pub fn edge_table(edges: &[u8]) -> Option<u8>
    ensures { result ≡ table_tested edges.now }
{
    if edges.len() % EDGE_FIELDS != 0 {
        return None;
    }
    if MOST_EDGES < edges.len() / EDGE_FIELDS {
        return None;
    }
    let pairs = all_tested(edges)?;
    if automaton::pairs::many(pairs) {
        return None;
    }
    Some(pairs)
}

// The edges of a table.
fn all_tested(edges: &[u8]) -> Option<u8>
    ensures { result ≡ tested_in edges.now (length edges.now / edge_fields) }
{
    let n = edges.len() / EDGE_FIELDS;
    if n == 0 {
        return Some(0);
    }
    // the last block is tested edge by edge: it has no byte beyond it
    let blocks = (n - 1) / BLOCK_EDGES;
    let pairs = crate::blocks::blocks_tested(edges, blocks)?;
    if all_plain(edges, BLOCK_EDGES * blocks, n) {
        return Some(pairs);
    }
    more_tested(pairs, edges, BLOCK_EDGES * blocks, n)
}

// Is each edge from `start` on and before `end` in range, and none on 3? Then the test says nothing more of them.
fn all_plain(edges: &[u8], start: usize, end: usize) -> bool
    requires start_le_end { start ≤ end }
    requires end_in_bounds { edge_fields * end ≤ length edges.now }
    ensures { result ≡ true → tested_in edges.now start ≡ tested_in edges.now end }
{
    for i in start..end {
        if !is_plain(edges, i) {
            return false;
        }
    }
    true
}

fn is_plain(edges: &[u8], i: usize) -> bool
    requires { edge_fields * i + edge_fields ≤ length edges.now }
    ensures { result ≡ true → tested_in edges.now i ≡ tested_in edges.now (i + 1) }
{
    let k = EDGE_FIELDS * i;
    let on = edges[k + 3] as u32;
    if on == 3 {
        return false;
    }
    crate::edge_fits(
        edges[k] as u32,
        edges[k + 1] as u32,
        edges[k + 2] as u32,
        on,
        edges[k + 4] as u32,
        edges[k + 5] as u32,
    )
}

// The edges before `end`, after those before `start`, whose pair policies are `before`.
pub(crate) fn more_tested(before: u8, edges: &[u8], start: usize, end: usize) -> Option<u8>
    requires before_value { Some before ≡ tested_in edges.now start }
    requires start_le_end { start ≤ end }
    requires end_in_bounds { edge_fields * end ≤ length edges.now }
    ensures { result ≡ tested_in edges.now end }
{
    let mut pairs = before;
    for i in start..end {
        pairs = with_edge(pairs, edges, i)?;
    }
    Some(pairs)
}

// With edge i of a table.
fn with_edge(pairs: u8, edges: &[u8], i: usize) -> Option<u8>
    requires { edge_fields * i + edge_fields ≤ length edges.now }
    ensures { result ≡ tested_with (Some pairs) (edge_at edges.now i) }
{
    let k = EDGE_FIELDS * i;
    let policy = edges[k] as u32;
    let from = edges[k + 1] as u32;
    let action = edges[k + 2] as u32;
    let on = edges[k + 3] as u32;
    let who = edges[k + 4] as u32;
    let to = edges[k + 5] as u32;
    if !crate::edge_fits(policy, from, action, on, who, to) {
        return None;
    }
    Some(automaton::pairs::joined(pairs, policy, on))
}
