// Which nodes of a flat table are children, three numbers to a node, and refusal 6 of a node.
ghost use Rattle.std.specs.Prelude.{◌≡◌, ℕ, ◌+◌, ◌/◌, ◌<◌, ◌≤◌, [], length, get_or};
ghost use Rattle.usage.specs.Limits.{most_nodes, node_fields, node_places};
ghost use Rattle.usage.specs.Tables.{nodes_of};
ghost use Rattle.usage.specs.Tests.{tree_ok_lem, between, is_child_lem, lowest_failing};
ghost use Rattle.usage.specs.Outline.{form_of};
ghost use Rattle.usage.specs.Valid.{children_of, times, times_child_lem};
ghost use Rattle.sheet_rules.specs.Code.{child_if, is_nothing};

use usage::{MOST_NODES, NODE_FIELDS};

// Document 01: "whose child is not greater or does not exist, or which is not a child exactly once (node 0: a child at all)". Node k is a
// child so many times.
fn tree_by(table: &[u8], k: usize, times: usize) -> bool
    requires k_in_bounds { k < length table.now / node_fields }
    requires times_value { times ≡ times_child_lem k (nodes_of table.now) }
    ensures { result ≡ tree_ok_lem (nodes_of table.now) k }
{
    let n = table.len() / NODE_FIELDS;
    if !children_between(
        table[NODE_FIELDS * k],
        table[NODE_FIELDS * k + 1],
        table[NODE_FIELDS * k + 2],
        k,
        n,
    ) {
        return false;
    }
    if k == 0 {
        return times == 0;
    }
    times == 1
}

pub(crate) fn tree_ok(table: &[u8], k: usize) -> bool
    requires { k < length table.now / node_fields }
    ensures { result ≡ tree_ok_lem (nodes_of table.now) k }
{
    tree_by(table, k, times_child(table, k))
}

// Is it so of every node of a table that an outline has room for? How often each is a child is counted once for all.
pub(crate) fn trees_ok(table: &[u8]) -> bool
    requires { length table.now ≤ node_places }
    ensures { result ≡ is_nothing (lowest_failing (tree_ok_lem (nodes_of table.now)) 0 (length table.now / node_fields)) }
{
    let n = table.len() / NODE_FIELDS;
    let counts = children_counted(table);
    for k in 0..n {
        if !tree_by(table, k, counts[k] as usize) {
            return false;
        }
    }
    true
}

// Node c is a child of node p.
pub(crate) fn is_child(nodes: &[u8], p: usize, c: usize) -> bool
    requires { p < length nodes.now / node_fields }
    ensures { result ≡ is_child_lem (nodes_of nodes.now) p c }
{
    let times = names_child(
        nodes[NODE_FIELDS * p],
        nodes[NODE_FIELDS * p + 1],
        nodes[NODE_FIELDS * p + 2],
        c,
    );
    0 < times
}

// Which fields of a kind are child numbers. Kept: two flags, which the kind alone decides; an option of each field is no plainer.
#[derive(Clone, Copy)]
struct ChildFields {
    pub a: bool,
    pub b: bool,
}

fn child_fields(kind: u8) -> ChildFields
    ensures { (a b : ℕ) → children_of (form_of (record { kind = kind; a = a; b = b })) ≡ child_if result.a a (child_if result.b b []) }
{
    match kind {
        3 => ChildFields { a: true, b: true },
        4 => ChildFields { a: true, b: true },
        5 => ChildFields { a: true, b: false },
        7 => ChildFields { a: false, b: true },
        8 => ChildFields { a: false, b: true },
        _ => ChildFields { a: false, b: false },
    }
}

// How often a field names node c.
fn names(child: bool, x: u8, c: usize) -> usize
    ensures value { result ≡ times c (child_if child x []) }
    ensures upper_bound { result ≤ 1 }
{
    if child {
        if x as usize == c {
            return 1;
        }
    }
    0
}

// How often a node names node c as its child.
fn names_child(kind: u8, a: u8, b: u8, c: usize) -> usize
    ensures value { result ≡ times c (children_of (form_of (record { kind = kind; a = a; b = b }))) }
    ensures upper_bound { result ≤ 2 }
{
    let f = child_fields(kind);
    names(f.a, a, c) + names(f.b, b, c)
}

// A field that is a child number lies between k and n.
fn lies_between(child: bool, x: u8, k: usize, n: usize) -> bool
    ensures { result ≡ between k n (child_if child x []) }
{
    if !child {
        return true;
    }
    let c = x as usize;
    if c <= k {
        return false;
    }
    c < n
}

// The children of a node lie between k and n.
fn children_between(kind: u8, a: u8, b: u8, k: usize, n: usize) -> bool
    ensures { result ≡ between k n (children_of (form_of (record { kind = kind; a = a; b = b }))) }
{
    let f = child_fields(kind);
    if !lies_between(f.a, a, k, n) {
        return false;
    }
    lies_between(f.b, b, k, n)
}

// How often node c is a child in the table.
fn times_child(nodes: &[u8], c: usize) -> usize
    ensures { result ≡ times_child_lem c (nodes_of nodes.now) }
{
    let n = nodes.len() / NODE_FIELDS;
    let mut count: usize = 0;
    for j in 0..n {
        count += names_child(
            nodes[NODE_FIELDS * j],
            nodes[NODE_FIELDS * j + 1],
            nodes[NODE_FIELDS * j + 2],
            c,
        );
    }
    count
}

// One more for the child that a field names.
fn counted(mut counts: [u8; MOST_NODES], child: bool, x: u8) -> [u8; MOST_NODES]
    requires { (c : ℕ) → c < most_nodes → get_or counts c 0 < 255 }
    ensures { (c : ℕ) → c < most_nodes → get_or result c 0 ≡ get_or counts c 0 + times c (child_if child x []) }
{
    if !child {
        return counts;
    }
    let c = x as usize;
    if MOST_NODES <= c {
        return counts;
    }
    counts[c] += 1;
    counts
}

// How often each node is a child in the table.
fn children_counted(table: &[u8]) -> [u8; MOST_NODES]
    requires { length table.now ≤ node_places }
    ensures { (c : ℕ) → c < most_nodes → get_or result c 0 ≡ times_child_lem c (nodes_of table.now) }
{
    let n = table.len() / NODE_FIELDS;
    let mut counts = [0u8; MOST_NODES];
    for j in 0..n {
        let f = child_fields(table[NODE_FIELDS * j]);
        let once = counted(counts, f.a, table[NODE_FIELDS * j + 1]);
        counts = counted(once, f.b, table[NODE_FIELDS * j + 2]);
    }
    counts
}
