// The outline sheet of a table of nodes, put into a lent buffer.
ghost use Rattle.std.specs.Prelude.{◌≡◌, ◌+◌, ◌≤◌, ◌<◌, ◌*◌, length};
ghost use Rattle.std.proofs.lemmas.List.Edits.{sets};
ghost use Rattle.usage.specs.Limits.{node_fields};
ghost use Rattle.usage.specs.Tables.{node_at_lem, nodes_of};
ghost use Rattle.report_lines.specs.Lines.{node_names_room};
ghost use Rattle.report.specs.Output.{fronted};
ghost use Rattle.report.specs.Expression.{numbered_nodes, outline_text};

use usage::{NODE_FIELDS, Node};

// The whole sheet: its length.
pub(crate) fn sheet(nodes: &[u8], out: &mut [u8]) -> usize
    requires { node_names_room + length (numbered_nodes 0 (nodes_of nodes.now)) ≤ length out.old }
    ensures value { result ≡ length (outline_text (nodes_of nodes.now)) }
    ensures out_after { out.new ≡ fronted out.old (outline_text (nodes_of nodes.now)) }
{
    let at = report_lines::node_names(out);
    rows(nodes, out, at)
}

// The lines of the nodes, from `at` on: the place after them.
fn rows(nodes: &[u8], out: &mut [u8], at: usize) -> usize
    requires { at + length (numbered_nodes 0 (nodes_of nodes.now)) ≤ length out.old }
    ensures value { result ≡ at + length (numbered_nodes 0 (nodes_of nodes.now)) }
    ensures out_after { out.new ≡ sets out.old at (numbered_nodes 0 (nodes_of nodes.now)) }
{
    let n = nodes.len() / NODE_FIELDS;
    let mut next = at;
    for i in 0..n {
        let m = node_at(nodes, i);
        next = report_lines::numbered_row(
            out,
            next,
            i,
            m.kind as usize,
            m.a as usize,
            m.b as usize,
        );
    }
    next
}

// Node i of the table.
fn node_at(nodes: &[u8], i: usize) -> Node
    requires { node_fields * i + 2 < length nodes.now }
    ensures { result ≡ node_at_lem nodes.now i }
{
    Node {
        kind: nodes[NODE_FIELDS * i],
        a: nodes[NODE_FIELDS * i + 1],
        b: nodes[NODE_FIELDS * i + 2],
    }
}
