// Single nodes of an outline's flat table. Here alone a node's kind is told by its number; everyone else matches on what the node says.
#![tactic(auto)]

ghost use Rattle.std.specs.Prelude.{◌≡◌};
ghost use Rattle.usage.specs.Outline.{form_of, form_at};
ghost use Rattle.usage.specs.Tables.{nodes_of};
ghost use Rattle.outline_nodes.specs.Said.{said_if};

use usage::{NODE_FIELDS, Node};

// What a node says, as document 01 has the kinds, 0 to 8 in order.
#[derive(Clone, Copy, PartialEq, Eq, Debug)]
pub enum NodeForm {
    End,
    OnStatic { action: u8, resource: u8 },
    OnName { action: u8, name: u8 },
    Sequence { first: u8, second: u8 },
    Choice { one: u8, other: u8 },
    Loop { body: u8 },
    Back { to: u8 },
    Fresh { name: u8, body: u8 },
    Sandbox { policy: u8, body: u8 },
}

// What a node says by its numbers; none where they have no kind.
pub fn form_of(n: Node) -> Option<NodeForm>
    ensures { said_if result ≡ form_of n }
{
    let Node { kind, a, b } = n;
    Some(match kind {
        0 => NodeForm::End,
        1 => NodeForm::OnStatic {
            action: a,
            resource: b,
        },
        2 => NodeForm::OnName { action: a, name: b },
        3 => NodeForm::Sequence {
            first: a,
            second: b,
        },
        4 => NodeForm::Choice { one: a, other: b },
        5 => NodeForm::Loop { body: a },
        6 => NodeForm::Back { to: a },
        7 => NodeForm::Fresh { name: a, body: b },
        8 => NodeForm::Sandbox { policy: a, body: b },
        _ => return None,
    })
}

// What node k of a flat table says; none where there is no such node.
pub fn form(nodes: &[u8], k: usize) -> Option<NodeForm>
    ensures { said_if result ≡ form_at (nodes_of nodes.now) k }
{
    if nodes.len() / NODE_FIELDS <= k {
        return None;
    }
    let i = NODE_FIELDS * k;
    form_of(Node {
        kind: nodes[i],
        a: nodes[i + 1],
        b: nodes[i + 2],
    })
}
