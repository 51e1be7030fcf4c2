// Moves that add no step. The position of a row r, with a node on top and d parts below it, leads to others; they are added to the first n rows.
ghost use Rattle.std.specs.Prelude.{◌≡◌, List, [], ◌∷◌, ℕ, suc, ◌<◌, ◌≤◌, length};
ghost use Rattle.desk_positions.specs.Closure.{added_all, spread};
ghost use Rattle.usage.specs.Limits.{most_nodes};
ghost use Rattle.usage.specs.Valid.{OutlineOk};
ghost use Rattle.outline_nodes.specs.Said.{said_by};
ghost use Rattle.usage.specs.Tables.{nodes_of};
ghost use Rattle.desk_positions.specs.Positions.{most_positions, most_parts, same_position, Meanings, at, Position, short};
ghost use Rattle.desk_positions.specs.Positions.{silent_by, silent_next};
ghost use Rattle.desk_positions.specs.Growth.{Fine, Tabled, Grown, OnTop, Within, Settles, RowsCounted};
ghost use Rattle.desk_positions.specs.Rows.{table_bytes, row_of};

use crate::rows::Top;
use crate::{MOST_PARTS, MOST_POSITIONS, PART, Row};
use outline_nodes::NodeForm;
use usage::MOST_NODES;

// Node a, then node b.
fn then(t: &mut [u8], n: usize, top: Top, a: u32, b: u32) -> usize
    requires n_le_most_positions { n ≤ most_positions }
    requires t_len { length t.old ≡ table_bytes }
    ensures by_index { (k : ℕ) (l : Meanings) (rest : Position) (ls : List Position) → OnTop top.row.cells top.below k l rest → Tabled ls n t.old
        → a < most_nodes → b < most_nodes
        → Grown (added_all same_position ls ((at a l ∷ at b l ∷ rest) ∷ [])) result t.new }
    ensures t_len_unchanged { length t.new ≡ table_bytes }
{
    let d = top.below;
    if MOST_PARTS <= d + 1 {
        return MOST_POSITIONS + 1;
    }
    let i = 1 + PART * d;
    let n0 = top.row.cells[i + 1];
    let n1 = top.row.cells[i + 2];
    let n2 = top.row.cells[i + 3];
    let n3 = top.row.cells[i + 4];
    let s = top.replace(b);
    let u = crate::rows::push(s, d + 1, a, n0, n1, n2, n3);
    crate::rows::add(t, n, u)
}

// Node a, or node b.
fn either(t: &mut [u8], n: usize, top: Top, a: u32, b: u32) -> usize
    requires n_le_most_positions { n ≤ most_positions }
    requires t_len { length t.old ≡ table_bytes }
    ensures by_index { (k : ℕ) (l : Meanings) (rest : Position) (ls : List Position) → OnTop top.row.cells top.below k l rest → Tabled ls n t.old
        → a < most_nodes → b < most_nodes
        → Grown (added_all same_position ls ((at a l ∷ rest) ∷ (at b l ∷ rest) ∷ [])) result t.new }
    ensures t_len_unchanged { length t.new ≡ table_bytes }
{
    let m = crate::rows::add(t, n, top.replace(a));
    if MOST_POSITIONS < m {
        return m;
    }
    crate::rows::add(t, m, top.replace(b))
}

// What node f leads to.
fn silent_at(t: &mut [u8], n: usize, top: Top, f: NodeForm) -> usize
    requires n_le_most_positions { n ≤ most_positions }
    requires t_len { length t.old ≡ table_bytes }
    ensures by_index { (k : ℕ) (l : Meanings) (rest : Position) (ls : List Position) → OnTop top.row.cells top.below k l rest → Tabled ls n t.old
        → Within (said_by f) → Grown (added_all same_position ls (silent_by (said_by f) l rest)) result t.new }
    ensures t_len_unchanged { length t.new ≡ table_bytes }
{
    match f {
        NodeForm::End => crate::rows::add(t, n, top.pop()),
        NodeForm::Sequence {
            first: a,
            second: b,
        } => then(t, n, top, a as u32, b as u32),
        NodeForm::Choice { one: a, other: b } => either(t, n, top, a as u32, b as u32),
        NodeForm::Loop { body: a } => crate::rows::add(t, n, top.replace(a as u32)),
        NodeForm::Back { to: a } => crate::rows::add(t, n, top.replace(a as u32)),
        NodeForm::OnStatic {
            action: _a,
            resource: _s,
        } => n,
        NodeForm::OnName {
            action: _a,
            name: _n,
        } => n,
        NodeForm::Fresh { name: _n, body: _b } => n,
        NodeForm::Sandbox {
            policy: _p,
            body: _b,
        } => n,
    }
}

// What the position of the row r leads to.
fn silent(nodes: &[u8], t: &mut [u8], n: usize, r: Row) -> usize
    requires n_le_most_positions { n ≤ most_positions }
    requires t_len { length t.old ≡ table_bytes }
    ensures grown { (c : Position) (ls : List Position) → OutlineOk (nodes_of nodes.now) → Fine c → r.cells ≡ row_of c
        → Tabled ls n t.old
        → Grown (added_all same_position ls (silent_next (nodes_of nodes.now) c)) result t.new }
    ensures t_len_unchanged { length t.new ≡ table_bytes }
{
    let depth = r.cells[0] as usize;
    if depth == 0 {
        return n;
    }
    if MOST_PARTS < depth {
        return n;
    }
    let d = depth - 1;
    let code = r.cells[1 + PART * d] as usize;
    if MOST_NODES <= code {
        return n;
    }
    let Some(f) = outline_nodes::form(nodes, code) else {
        return n;
    };
    let top = Top { row: r, below: d };
    silent_at(t, n, top, f)
}

// All that the first n positions lead to without a step is added to them, unless a limit is exceeded.
pub(crate) fn spread(nodes: &[u8], t: &mut [u8], n: usize) -> usize
    requires n_le_most_positions { n ≤ most_positions }
    requires t_len { length t.old ≡ table_bytes }
    ensures settles { (ls : List Position) → OutlineOk (nodes_of nodes.now) → Tabled ls n t.old
        → Settles (spread same_position (silent_next (nodes_of nodes.now)) most_positions short (suc most_positions) 0 ls) result
        t.new }
    ensures rows_counted { RowsCounted result t.new }
{
    let mut m = n;
    let mut i: usize = 0;
    // Kept: the end moves while the loop runs, so no range and no slice has it.
    while i < m {
        let r = crate::rows::load(t, i);
        m = silent(nodes, t, m, r);
        if MOST_POSITIONS < m {
            return MOST_POSITIONS + 1;
        }
        i += 1;
    }
    m
}
