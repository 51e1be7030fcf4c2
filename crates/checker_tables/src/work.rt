// Which nodes are left to settle, as bits of a number, and which are to be settled again once the ends of a node have changed: those whose
// rules read them.
// Kept: sets of nodes are bits of a number: no heap, and the highest is found at once.
ghost use Rattle.std.specs.Prelude.{◌≡◌, ℕ, suc, ◌-◌, ◌/◌, ◌^◌, ◌<◌, ◌≤◌, min, length, replicate};
ghost use Rattle.usage.specs.Limits.{most_nodes, node_fields};
ghost use Rattle.outline_nodes.specs.Said.{said_by};
ghost use Rattle.checker_account.specs.Tables.{joined_at};
ghost use Rattle.checker_account.specs.Filling.{forms_in};
ghost use Rattle.checker_tables.specs.Search.{Small, NodesFit};
ghost use Rattle.checker_tables.specs.Work.{noted, readers_of, readers_in};

use outline_nodes::NodeForm;
use usage::{MOST_NODES, NODE_FIELDS};

// Of each node, the nodes that read it.
pub type Masks = [u64; MOST_NODES];

// Node k joined to the set of node j.
fn note(masks: &mut Masks, j: usize, k: usize)
    requires j_lt_most_nodes { j < most_nodes }
    requires k_lt_most_nodes { k < most_nodes }
    ensures { masks.new ≡ joined_at masks.old j (2 ^ k) }
{
    masks[j] |= 1u64 << (k as u32);
}

// The same of two nodes.
fn note_both(masks: &mut Masks, a: usize, b: usize, k: usize)
    requires a_lt_most_nodes { a < most_nodes }
    requires b_lt_most_nodes { b < most_nodes }
    requires k_lt_most_nodes { k < most_nodes }
    ensures { masks.new ≡ joined_at (joined_at masks.old a (2 ^ k)) b (2 ^ k) }
{
    note(masks, a, k);
    note(masks, b, k);
}

// The same of the nodes that the rule of node k reads.
fn note_parts(masks: &mut Masks, k: usize, f: NodeForm)
    requires small { Small (said_by f) }
    requires k_lt_most_nodes { k < most_nodes }
    ensures { masks.new ≡ noted k (said_by f) masks.old }
{
    match f {
        NodeForm::Sequence { first, second } => note_both(
            masks,
            first as usize,
            second as usize,
            k,
        ),
        NodeForm::Choice { one, other } => note_both(masks, one as usize, other as usize, k),
        NodeForm::Loop { body } => note(masks, body as usize, k),
        NodeForm::Back { to } => note(masks, to as usize, k),
        NodeForm::Fresh { body, .. } => note(masks, body as usize, k),
        NodeForm::Sandbox { body, .. } => note(masks, body as usize, k),
        _ => {}
    }
}

// Which nodes read which; the sets are empty at first.
pub(crate) fn note_all(nodes: &[u8], masks: &mut Masks)
    requires nodes_fit { NodesFit nodes.now }
    requires masks_value { masks.old ≡ replicate most_nodes 0 }
    ensures { masks.new ≡ readers_of (length nodes.now / node_fields) (forms_in nodes.now) }
{
    let n = nodes.len() / NODE_FIELDS;
    for k in 0..n {
        if let Some(f) = outline_nodes::form(nodes, k) {
            note_parts(masks, k, f);
        }
    }
}

// The same for other crates: the sets are empty where the tables have no room for the nodes.
pub fn readers(nodes: &[u8], masks: &mut Masks)
    ensures { masks.new ≡ readers_in nodes.now }
{
    *masks = [0u64; MOST_NODES];
    if crate::fits(nodes) {
        note_all(nodes, masks);
    }
}

// All of n nodes, of which at most 64 count.
pub fn all(n: usize) -> u64
    ensures { result ≡ 2 ^ min n most_nodes - 1 }
{
    if MOST_NODES <= n {
        u64::MAX
    } else {
        (1u64 << (n as u32)) - 1
    }
}

// The highest node of a set; 0 of an empty one.
pub fn highest(s: u64) -> usize
    ensures result_bound { 0 < s → 2 ^ result ≤ s }
    ensures s_bound { s < 2 ^ suc result }
    ensures value { s ≡ 0 → result ≡ 0 }
{
    if s == 0 {
        return 0;
    }
    s.ilog2() as usize
}
