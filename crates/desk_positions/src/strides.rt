// Moves that add a step, from one position and from all of them.
// Kept: a table and how many rows it has are two parameters: a struct that holds the `&mut` would need a clause on its reference in each
// function, and the count goes on its own, as what each function returns.
ghost use Rattle.std.specs.Prelude.{◌≡◌, List, [], ◌∷◌, ℕ, ◌+◌, ◌<◌, ◌≤◌, length};
ghost use Rattle.desk_positions.specs.Closure.{added_all};
ghost use Rattle.usage.specs.Limits.{most_nodes, most_names};
ghost use Rattle.usage.specs.Past.{event, opening};
ghost use Rattle.std.proofs.Math.Option.{some};
ghost use Rattle.usage.specs.Outline.{static_event, named_event, fresh, sandbox};
ghost use Rattle.usage.specs.Valid.{OutlineOk};
ghost use Rattle.outline_nodes.specs.Said.{said_by};
ghost use Rattle.usage.specs.Tables.{nodes_of};
ghost use Rattle.desk_positions.specs.Positions.{most_positions, most_parts, same_position, Meanings, shut, Position};
ghost use Rattle.desk_positions.specs.Positions.{stride_by, stride_next, stride_all, is_any};
ghost use Rattle.desk_positions.specs.Growth.{Fine, Tabled, Grown, OnTop, Within, RowsCounted};
ghost use Rattle.desk_positions.specs.Moves.{step_of};
ghost use Rattle.usage.specs.declared.Node.{Node};
ghost use Rattle.desk_positions.specs.Rows.{table_bytes, row_of, RowRoom, RowsKept};

use crate::rows::Top;
use crate::{CREATE, MOST_NAMES, MOST_PARTS, MOST_POSITIONS, Move, PART, ROW_BYTES, Row};
use outline_nodes::NodeForm;
use usage::{MOST_NODES, STATICS};

// An event on a static resource, of action a on s.
fn on_static(t: &mut [u8], n: usize, top: Top, a: u8, s: u8, action: u32, res: u32) -> usize
    requires n_le_most_positions { n ≤ most_positions }
    requires row_room { RowRoom n t.old }
    ensures by_index { (k : ℕ) (l : Meanings) (rest : Position) (ls : List Position) → OnTop top.row.cells top.below k l rest → Tabled ls n t.old
        → Grown (added_all same_position ls (stride_by (some (static_event a s)) l rest (event action res))) result t.new }
    ensures rows_kept { RowsKept t.old n result t.new }
{
    if a as u32 != action {
        return n;
    }
    if s as u32 != res {
        return n;
    }
    crate::rows::add(t, n, top.pop())
}

// An event of action a on what a name means.
fn on_name(t: &mut [u8], n: usize, top: Top, a: u8, name: u8, action: u32, res: u32) -> usize
    requires n_le_most_positions { n ≤ most_positions }
    requires row_room { RowRoom n t.old }
    ensures by_index { (k : ℕ) (l : Meanings) (rest : Position) (ls : List Position) → OnTop top.row.cells top.below k l rest → Tabled ls n t.old
        → name < most_names
        → Grown (added_all same_position ls (stride_by (some (named_event a name)) l rest (event action res))) result t.new }
    ensures rows_kept { RowsKept t.old n result t.new }
{
    let d = top.below;
    if a as u32 != action {
        return n;
    }
    if res == 0 {
        return n;
    }
    let name = name as usize;
    if MOST_NAMES <= name {
        return n;
    }
    let i = 1 + PART * d;
    if top.row.cells[i + (name + 1)] != res {
        return n;
    }
    crate::rows::add(t, n, top.pop())
}

// A creation: the name means the resource from now on.
fn fresh(t: &mut [u8], n: usize, top: Top, name: u8, body: u8, action: u32, res: u32) -> usize
    requires n_le_most_positions { n ≤ most_positions }
    requires row_room { RowRoom n t.old }
    ensures by_index { (k : ℕ) (l : Meanings) (rest : Position) (ls : List Position) → OnTop top.row.cells top.below k l rest → Tabled ls n t.old
        → name < most_names → body < most_nodes
        → Grown (added_all same_position ls (stride_by (some (fresh name body)) l rest (event action res))) result t.new }
    ensures rows_kept { RowsKept t.old n result t.new }
{
    let d = top.below;
    if action != CREATE {
        return n;
    }
    if res < STATICS {
        return n;
    }
    let name = name as usize;
    if MOST_NAMES <= name {
        return n;
    }
    let renamed = Top {
        row: top.replace(body as u32),
        below: d,
    };
    crate::rows::add(t, n, renamed.rename(name, res))
}

// A sandbox: its opening, then its body and a closing.
fn sandbox(t: &mut [u8], n: usize, top: Top, policy: u8, body: u8, p: u32) -> usize
    requires n_le_most_positions { n ≤ most_positions }
    requires row_room { RowRoom n t.old }
    ensures by_index { (k : ℕ) (l : Meanings) (rest : Position) (ls : List Position) → OnTop top.row.cells top.below k l rest → Tabled ls n t.old
        → body < most_nodes
        → Grown (added_all same_position ls (stride_by (some (sandbox policy body)) l rest (opening p))) result t.new }
    ensures rows_kept { RowsKept t.old n result t.new }
{
    let d = top.below;
    if policy as u32 != p {
        return n;
    }
    if MOST_PARTS <= d + 1 {
        return MOST_POSITIONS + 1;
    }
    let i = 1 + PART * d;
    let n0 = top.row.cells[i + 1];
    let n1 = top.row.cells[i + 2];
    let n2 = top.row.cells[i + 3];
    let n3 = top.row.cells[i + 4];
    let s = crate::rows::push(top.pop(), d, MOST_NODES as u32 + policy as u32, 0, 0, 0, 0);
    crate::rows::add(
        t,
        n,
        crate::rows::push(s, d + 1, body as u32, n0, n1, n2, n3),
    )
}

// Where an event leads from node f.
fn event_at(t: &mut [u8], n: usize, top: Top, f: NodeForm, action: u32, res: u32) -> usize
    requires n_le_most_positions { n ≤ most_positions }
    requires row_room { RowRoom n t.old }
    ensures by_index { (k : ℕ) (l : Meanings) (rest : Position) (ls : List Position) → OnTop top.row.cells top.below k l rest → Tabled ls n t.old
        → Within (said_by f)
        → Grown (added_all same_position ls (stride_by (said_by f) l rest (event action res))) result t.new }
    ensures rows_kept { RowsKept t.old n result t.new }
{
    match f {
        NodeForm::OnStatic {
            action: a,
            resource: s,
        } => on_static(t, n, top, a, s, action, res),
        NodeForm::OnName { action: a, name } => on_name(t, n, top, a, name, action, res),
        NodeForm::Fresh { name, body } => fresh(t, n, top, name, body, action, res),
        NodeForm::End => n,
        NodeForm::Sequence {
            first: _a,
            second: _b,
        } => n,
        NodeForm::Choice { one: _a, other: _b } => n,
        NodeForm::Loop { body: _a } => n,
        NodeForm::Back { to: _a } => n,
        NodeForm::Sandbox {
            policy: _p,
            body: _b,
        } => n,
    }
}

// Where an opening leads from node f.
fn opening_at(t: &mut [u8], n: usize, top: Top, f: NodeForm, p: u32) -> usize
    requires n_le_most_positions { n ≤ most_positions }
    requires row_room { RowRoom n t.old }
    ensures by_index { (k : ℕ) (l : Meanings) (rest : Position) (ls : List Position) → OnTop top.row.cells top.below k l rest → Tabled ls n t.old
        → Within (said_by f)
        → Grown (added_all same_position ls (stride_by (said_by f) l rest (opening p))) result t.new }
    ensures rows_kept { RowsKept t.old n result t.new }
{
    if let NodeForm::Sandbox { policy, body } = f {
        return sandbox(t, n, top, policy, body, p);
    }
    n
}

// Where a step leads from node f.
fn stride_at(t: &mut [u8], n: usize, top: Top, f: NodeForm, step: Move) -> usize
    requires n_le_most_positions { n ≤ most_positions }
    requires row_room { RowRoom n t.old }
    ensures by_index { (k : ℕ) (l : Meanings) (rest : Position) (ls : List Position) → OnTop top.row.cells top.below k l rest → Tabled ls n t.old
        → Within (said_by f)
        → Grown (added_all same_position ls (stride_by (said_by f) l rest (step_of step))) result t.new }
    ensures rows_kept { RowsKept t.old n result t.new }
{
    match step {
        Move::Event(action, res) => event_at(t, n, top, f, action, res),
        Move::Opening(p) => opening_at(t, n, top, f, p),
        Move::Closing(_p) => n,
        Move::Retiring(_r) => n,
    }
}

// Where it leads from a closing.
fn stride_closing(t: &mut [u8], n: usize, top: Top, code: usize, step: Move) -> usize
    requires n_le_most_positions { n ≤ most_positions }
    requires row_room { RowRoom n t.old }
    ensures grown { (ns : List Node) (p : ℕ) (rest : Position) (ls : List Position) → top.row.cells ≡ row_of (shut p ∷ rest) → Fine (shut p ∷ rest)
        → length rest ≡ top.below → code ≡ most_nodes + p → Tabled ls n t.old
        → Grown (added_all same_position ls (stride_next ns (step_of step) (shut p ∷ rest))) result t.new }
    ensures rows_kept { RowsKept t.old n result t.new }
{
    match step {
        Move::Closing(p) => {
            if code != MOST_NODES + p as usize {
                return n;
            }
            crate::rows::add(t, n, top.pop())
        }
        Move::Event(_action, _res) => n,
        Move::Opening(_p) => n,
        Move::Retiring(_r) => n,
    }
}

// Where it leads from the position of the row r.
fn stride(nodes: &[u8], t: &mut [u8], n: usize, r: Row, step: Move) -> usize
    requires n_le_most_positions { n ≤ most_positions }
    requires row_room { RowRoom n t.old }
    ensures grown { (c : Position) (ls : List Position) → OutlineOk (nodes_of nodes.now) → Fine c → r.cells ≡ row_of c
        → Tabled ls n t.old
        → Grown (added_all same_position ls (stride_next (nodes_of nodes.now) (step_of step) c)) result t.new }
    ensures rows_kept { RowsKept t.old n result t.new }
{
    let depth = r.cells[0] as usize;
    if depth == 0 {
        return n;
    }
    if MOST_PARTS < depth {
        return n;
    }
    let d = depth - 1;
    let top = Top { row: r, below: d };
    let code = r.cells[1 + PART * d] as usize;
    if MOST_NODES <= code {
        return stride_closing(t, n, top, code, step);
    }
    let Some(f) = outline_nodes::form(nodes, code) else {
        return n;
    };
    stride_at(t, n, top, f, step)
}

// Does a step lead anywhere from one of the first n positions? What it leads to is written to a table of one row, and forgotten.
pub(crate) fn leads_from(nodes: &[u8], t: &[u8], n: usize, step: Move) -> bool
    requires n_le_most_positions { n ≤ most_positions }
    requires t_len { length t.now ≡ table_bytes }
    ensures { (ls : List Position) → OutlineOk (nodes_of nodes.now) → Tabled ls n t.now
        → result ≡ is_any (stride_all (nodes_of nodes.now) (step_of step) ls) }
{
    for i in 0..n {
        let mut one = [0u8; ROW_BYTES];
        let r = crate::rows::load(t, i);
        let m = stride(nodes, &mut one, 0, r, step);
        if 0 < m {
            return true;
        }
    }
    false
}

// Where a step leads from each of the first n positions, in place: no row leads to more than one.
pub(crate) fn collect(nodes: &[u8], t: &mut [u8], n: usize, step: Move) -> usize
    requires n_le_most_positions { n ≤ most_positions }
    requires t_len { length t.old ≡ table_bytes }
    ensures grown { (ls : List Position) → OutlineOk (nodes_of nodes.now) → Tabled ls n t.old
        → Grown (added_all same_position [] (stride_all (nodes_of nodes.now) (step_of step) ls)) result t.new }
    ensures rows_counted { RowsCounted result t.new }
{
    let mut m: usize = 0;
    for i in 0..n {
        let r = crate::rows::load(t, i);
        m = stride(nodes, t, m, r, step);
        if MOST_POSITIONS < m {
            return MOST_POSITIONS + 1;
        }
    }
    m
}
