// The nodes of an expression so far, three numbers to a node. A node beyond the 64th is counted and not stored.
ghost use Rattle.std.specs.Prelude.{◌≡◌, [], ◌∷◌, ◌++◌, ◌+◌, ◌<◌, ◌≤◌};
ghost use Rattle.usage.specs.Limits.{most_nodes, longest_sheet};
ghost use Rattle.usage.specs.Tables.{node_at_lem};
ghost use Rattle.sheet_expression.specs.Code.{listed_nodes, shifted, Joined};

use usage::{MOST_NODES, NODE_FIELDS, NODE_TABLE, Node};

// The kinds of node, as document 01 numbers them.
pub(crate) const END: u8 = 0;

pub(crate) const ON_STATIC: u8 = 1;

pub(crate) const ON_NAME: u8 = 2;

pub(crate) const SEQUENCE: u8 = 3;

pub(crate) const CHOICE: u8 = 4;

pub(crate) const LOOP: u8 = 5;

pub(crate) const BACK: u8 = 6;

pub(crate) const FRESH: u8 = 7;

pub(crate) const SANDBOX: u8 = 8;

// Kept: a table with its count, no slice or list of nodes: no heap, and the count goes on where the table ends.
#[derive(Clone, Copy)]
pub(crate) struct NodeList {
    pub table: [u8; NODE_TABLE],
    pub count: usize,
}

// A node that moves up by one: a child's number does, and so does a loop's that moves too, which none before `start` does.
fn moved(n: Node, start: u8) -> Node
    ensures { result ≡ shifted start n }
{
    let Node { kind, a, b } = n;
    match kind {
        SEQUENCE..=CHOICE => Node {
            kind,
            a: a.saturating_add(1),
            b: b.saturating_add(1),
        },
        LOOP => Node {
            kind,
            a: a.saturating_add(1),
            b,
        },
        BACK => {
            if a < start {
                return n;
            }
            Node {
                kind,
                a: a.saturating_add(1),
                b,
            }
        }
        FRESH..=SANDBOX => Node {
            kind,
            a,
            b: b.saturating_add(1),
        },
        _ => n,
    }
}

impl NodeList {
    // None yet.
    pub(crate) fn empty() -> NodeList
        ensures { result.count ≡ 0 }
    {
        NodeList {
            table: [0u8; NODE_TABLE],
            count: 0,
        }
    }

    // Node j.
    fn node(&self, j: usize) -> Node
        requires { j < most_nodes }
        ensures { result ≡ node_at_lem self.now.table j }
    {
        let i = NODE_FIELDS * j;
        Node {
            kind: self.table[i],
            a: self.table[i + 1],
            b: self.table[i + 2],
        }
    }

    // One node more.
    // Kept: four functions ask that the count fits; the text bounds it, which a list of nodes does not hold.
    pub(crate) fn push(self, n: Node) -> NodeList
        requires { self.count ≤ longest_sheet }
        ensures count_value { result.count ≡ self.count + 1 }
        ensures result_value { self.count < most_nodes → listed_nodes result ≡ listed_nodes self ++ (n ∷ []) }
    {
        let NodeList { mut table, count } = self;
        let more = count + 1;
        if MOST_NODES <= count {
            return NodeList { table, count: more };
        }
        let i = NODE_FIELDS * count;
        table[i] = n.kind;
        table[i + 1] = n.a;
        table[i + 2] = n.b;
        NodeList { table, count: more }
    }

    // A node of two children is put before the nodes from `start` on, which are theirs; those move up by one. The right child begins at
    // `right`.
    #[inline(never)]
    pub(crate) fn join(self, kind: u8, start: usize, right: usize) -> NodeList
        requires count_le_longest_sheet { self.count ≤ longest_sheet }
        requires start_le_count { start ≤ self.count }
        requires right_le_count { right ≤ self.count }
        ensures { Joined kind start right self result }
    {
        let NodeList { table, count } = self;
        if MOST_NODES <= count {
            // what is stored does not matter any more
            return NodeList {
                count: count + 1,
                ..NodeList::empty()
            };
        }
        let before = NodeList {
            table,
            count: start,
        };
        let mut out = before.push(Node {
            kind,
            a: (start + 1) as u8,
            b: (right + 1) as u8,
        });
        for j in start..count {
            out = out.push(moved(self.node(j), start as u8));
        }
        out
    }
}
