// A step at the desk: on the outline by the lean judge, off it by the full one.
ghost use Rattle.std.specs.Prelude.{ℕ, ◌<◌, ◌≤◌, ◌≡◌, true, false, cond, List, eqb, length};
ghost use Rattle.usage.specs.Limits.{most_nodes};
ghost use Rattle.usage.specs.Reasons.{number_of};
ghost use Rattle.usage.specs.Valid.{OutlineOk};
ghost use Rattle.usage.specs.Tables.{nodes_of};
ghost use Rattle.desk_positions.specs.Positions.{Position, stride_all, is_any, next_positions};
ghost use Rattle.desk_positions.specs.Growth.{Tabled, step_from};
ghost use Rattle.desk.specs.Layout.{desk_bytes, rows_at, Within, head_in_lem};
ghost use Rattle.desk.specs.State.{nodes_in, table_in, head_ok_lem, is_listed_lem, encoded_by};
ghost use Rattle.desk.specs.Calls.{desk_code, given_by, Called, ByStep};
ghost use Rattle.desk.specs.Promise.{is_refusal_lem};
ghost use Rattle.desk.specs.Code.{told, moves, SettledIn};

use crate::Head;
use monitor_state::Answer;
use usage::{NODE_FIELDS, NODE_TABLE, RawStep, Reason};

// The kind of a retiring among the steps.
const RETIRING: u32 = 3;

// The reason that is told of a refusal by the judge. Its refusal of a table of edges is 42 at the desk, since no caller lends one.
fn shown(reason: Reason) -> Reason
    ensures { number_of result ≡ cond (eqb (number_of reason) 41) 42 (number_of reason) }
{
    match reason {
        Reason::Table => Reason::State,
        _ => reason,
    }
}

// What the lean judge's answer has more.
fn lean_bit(lean: bool) -> u32
    ensures value { result ≡ cond lean 65536 0 }
    ensures upper_bound { result ≤ 65536 }
{
    if lean { 65536 } else { 0 }
}

// The answer to a step as one number.
fn reply_code(a: Answer<Reason>, lean: bool) -> u32
    ensures { result ≡ desk_code (given_by (told a) lean) }
{
    match a {
        Answer::Allowed => lean_bit(lean),
        Answer::Violated(p) => p as u32 + 256 + lean_bit(lean),
        Answer::Refused(reason) => crate::refused(shown(reason)),
    }
}

pub(crate) fn is_refusal(a: Answer<Reason>) -> bool
    ensures { result ≡ is_refusal_lem a }
{
    matches!(a, Answer::Refused(_))
}

// Do the positions move? "Refused steps and retirings move no position", and after a violated step every step is refused.
fn moves(a: Answer<Reason>, kind: u32) -> bool
    ensures { result ≡ moves a kind }
{
    matches!(a, Answer::Allowed) && kind != RETIRING
}

// Where no position is listed.
pub(crate) fn off_outline(b: &mut [u8], h: Head, step: RawStep) -> u32
    requires desk_bytes_in_bounds { desk_bytes ≤ length b.old }
    requires head_is_in { head_in_lem b.old ≡ h }
    requires policies_loaded { h.policies ≡ 0 → ⊥ }
    requires head_is_ok { head_ok_lem h ≡ true }
    requires none_listed { is_listed_lem h ≡ false }
    ensures { Called (ByStep step) b.old result b.new }
{
    let t = crate::judge::judged(b, h, false, step);
    if is_refusal(t.answer) {
        return reply_code(t.answer, false);
    }
    crate::judge::sizes_out(b, h, t.sizes, h.positions);
    reply_code(t.answer, false)
}

// Does the routine stay on the outline with this step? At a retiring it stays where it is.
fn stays(b: &[u8], h: Head, step: RawStep) -> bool
    requires desk_bytes_in_bounds { desk_bytes ≤ length b.now }
    requires nodes_le_most_nodes { h.nodes ≤ most_nodes }
    ensures at_retiring { step.kind ≡ 3 → result ≡ true }
    ensures at_others { (step.kind ≡ 3 → ⊥) → (ls : List Position) → OutlineOk (nodes_of (nodes_in b.now h))
        → Tabled ls h.positions (table_in b.now)
        → result ≡ is_any (stride_all (nodes_of (nodes_in b.now h)) (step_from step.kind step.a step.b) ls) }
{
    if step.kind == RETIRING {
        return true;
    }
    let n = h.positions as usize;
    let e = crate::NODES_AT + NODE_FIELDS * h.nodes as usize;
    desk_positions::leads(
        &b[crate::NODES_AT..e],
        &b[crate::ROWS_AT..crate::DESK_BYTES],
        n,
        step.kind,
        step.a,
        step.b,
    )
}

// The positions after the step take the place of those before it: how many there are, or 65.
fn move_rows(b: &mut [u8], h: Head, step: RawStep) -> u32
    requires desk_bytes_in_bounds { desk_bytes ≤ length b.old }
    requires nodes_le_most_nodes { h.nodes ≤ most_nodes }
    ensures settled_in { (ls : List Position) → OutlineOk (nodes_of (nodes_in b.old h))
        → Tabled ls h.positions (table_in b.old)
        → SettledIn (next_positions (nodes_of (nodes_in b.old h)) (step_from step.kind step.a step.b) ls) result b.new }
    ensures within { Within b.old rows_at desk_bytes b.new }
{
    let n = h.positions as usize;
    let e = NODE_FIELDS * h.nodes as usize;
    let nodes: [u8; NODE_TABLE] = crate::bytes::bytes_at(b, crate::NODES_AT);
    let k = desk_positions::next(
        &nodes[0..e],
        &mut b[crate::ROWS_AT..crate::DESK_BYTES],
        n,
        step.kind,
        step.a,
        step.b,
    );
    k as u32
}

// Where positions are listed.
fn on_rows(b: &mut [u8], h: Head, step: RawStep) -> u32
    requires desk_bytes_in_bounds { desk_bytes ≤ length b.old }
    requires head_is_in { head_in_lem b.old ≡ h }
    requires policies_loaded { h.policies ≡ 0 → ⊥ }
    requires is_encoded { encoded_by b.old h ≡ true }
    requires listed { is_listed_lem h ≡ true }
    ensures { Called (ByStep step) b.old result b.new }
{
    let lean = stays(b, h, step);
    let t = crate::judge::judged(b, h, lean, step);
    if is_refusal(t.answer) {
        return reply_code(t.answer, lean);
    }
    if moves(t.answer, step.kind) {
        let k = move_rows(b, h, step);
        crate::judge::sizes_out(b, h, t.sizes, k);
        return reply_code(t.answer, lean);
    }
    crate::judge::sizes_out(b, h, t.sizes, h.positions);
    reply_code(t.answer, lean)
}

// Where the head lists positions: the nodes and the rows are tested (42).
pub(crate) fn on_outline(b: &mut [u8], h: Head, step: RawStep) -> u32
    requires desk_bytes_in_bounds { desk_bytes ≤ length b.old }
    requires head_is_in { head_in_lem b.old ≡ h }
    requires policies_loaded { h.policies ≡ 0 → ⊥ }
    requires head_is_ok { head_ok_lem h ≡ true }
    requires listed { is_listed_lem h ≡ true }
    ensures { Called (ByStep step) b.old result b.new }
{
    let e = crate::NODES_AT + NODE_FIELDS * h.nodes as usize;
    if !sheet_rules::node_table_ok(&b[crate::NODES_AT..e]) {
        return reply_code(Answer::Refused(Reason::State), false);
    }
    let n = h.positions as usize;
    if !desk_positions::rows_ok(&b[crate::ROWS_AT..crate::DESK_BYTES], n) {
        return reply_code(Answer::Refused(Reason::State), false);
    }
    on_rows(b, h, step)
}
