// Loads at the desk: what 42 and 52 ask, and policies and an outline from their sheets.
ghost use Rattle.std.specs.Prelude.{ℕ, ◌*◌, ◌<◌, ◌≤◌, ◌≡◌, true, false, cond, ◌&&◌, List, length, take};
ghost use Rattle.std.proofs.Math.Option.{some};
ghost use Rattle.usage.specs.Limits.{policies, most_edges, most_nodes, edge_fields, node_places};
ghost use Rattle.usage.specs.Valid.{OutlineOk};
ghost use Rattle.usage.specs.Answers.{refused};
ghost use Rattle.usage.specs.Reasons.{number_of};
ghost use Rattle.usage.specs.Tables.{nodes_of, is_edge_table, is_node_table};
ghost use Rattle.checker.specs.Promise.{outcome_verdict};
ghost use Rattle.monitor_state.specs.Judge.{state_ok_lem};
ghost use Rattle.desk_positions.specs.Positions.{most_positions, start_positions};
ghost use Rattle.desk_positions.specs.Reading.{rows_ok_lem};
ghost use Rattle.desk.specs.Desk.{is_busy_lem, with_policies, with_outline};
ghost use Rattle.desk.specs.Layout.{desk_bytes, summary_at, rows_at, wide_at, head_in_lem, Put, Within};
ghost use Rattle.desk.specs.JudgeBytes.{judge_in};
ghost use Rattle.desk.specs.State.{edges_in, nodes_in, table_in, loaded_in, desk_by, desk_in, head_ok_lem, encoded_by, is_sound_lem, desk_of, Encodes};
ghost use Rattle.desk.specs.Calls.{desk_code, plain, Called, ByPolicies, ByOutline};
ghost use Rattle.desk.specs.Code.{most_line, SettledIn, with_nodes, KeptOutline};

use crate::Head;
use checker::Outcome;
use usage::{EDGE_FIELDS, EDGE_TABLE, NODE_FIELDS, NODE_TABLE, POLICIES, Reason, SheetRefusal};

// ── 42 ──

// Are the nodes an outline's, and the rows in use those of positions?
fn rows_fit(b: &[u8], h: Head) -> bool
    requires desk_bytes_in_bounds { desk_bytes ≤ length b.now }
    requires nodes_le_most_nodes { h.nodes ≤ most_nodes }
    requires positions_le_most_positions { h.positions ≤ most_positions }
    ensures { result ≡ (is_node_table (nodes_in b.now h) && rows_ok_lem (table_in b.now) h.positions) }
{
    let e = crate::NODES_AT + NODE_FIELDS * h.nodes as usize;
    if !sheet_rules::node_table_ok(&b[crate::NODES_AT..e]) {
        return false;
    }
    let n = h.positions as usize;
    desk_positions::rows_ok(&b[crate::ROWS_AT..crate::DESK_BYTES], n)
}

// Are the edges a policy sheet's, and does the judge take its state?
fn is_sound(b: &[u8], h: Head) -> bool
    requires desk_bytes_in_bounds { desk_bytes ≤ length b.now }
    requires edges_le_most_edges { h.edges ≤ most_edges }
    ensures { result ≡ (is_edge_table (edges_in b.now h) && state_ok_lem (judge_in b.now h)) }
{
    let e = crate::EDGES_AT + EDGE_FIELDS * h.edges as usize;
    if !sheet_fields::edges::edge_table_ok(&b[crate::EDGES_AT..e]) {
        return false;
    }
    crate::judge::state_ok(b, h)
}

// Do the bytes encode a desk?
pub(crate) fn is_desk(b: &[u8], h: Head) -> bool
    requires { desk_bytes ≤ length b.now }
    ensures { result ≡ (encoded_by b.now h && is_sound_lem (desk_by b.now h)) }
{
    if h.policies == 0 {
        return true;
    }
    if !crate::heading::head_ok(h) {
        return false;
    }
    if crate::heading::is_listed(h) {
        if !rows_fit(b, h) {
            return false;
        }
    }
    is_sound(b, h)
}

// "52 a load while a sandbox is open and the judge is not halted"
pub(crate) fn is_busy(h: Head) -> bool
    ensures { (b : List ℕ) → result ≡ is_busy_lem (desk_by b h) }
{
    h.policies != 0 && h.depth != 0 && h.halted != 1
}

// ── Sheets ──

// The number for a sheet's refusal, with its line.
fn refused_at(r: SheetRefusal) -> u32
    requires { r.line ≤ most_line }
    ensures { result ≡ desk_code (record { verdict = refused (number_of r.reason); lean = false; line = r.line }) }
{
    crate::refused(r.reason) + 131072 * r.line as u32
}

fn policies_head(n: usize, local: bool) -> Head
    requires { n ≤ most_edges }
    ensures { result ≡ record {
      policies = cond local 2 1;
      edges = n;
      nodes = 0;
      positions = 0;
      halted = 0;
      count = 0;
      highest = 0;
      depth = 0;
    } }
{
    let policies: u32 = if local { 2 } else { 1 };
    Head {
        policies,
        edges: n as u32,
        nodes: 0,
        positions: 0,
        halted: 0,
        count: 0,
        highest: 0,
        depth: 0,
    }
}

// "A load starts the judge afresh; loading policies also drops the outline."
fn store_policies(b: &mut [u8], edges: &[u8], n: usize, local: bool)
    requires desk_bytes_in_bounds { desk_bytes ≤ length b.old }
    requires n_le_most_edges { n ≤ most_edges }
    requires n_in_bounds { edge_fields * n ≤ length edges.now }
    ensures encodes { Encodes b.new (with_policies (take (edge_fields * n) edges.now) local) }
    ensures within { Within b.old 0 desk_bytes b.new }
{
    let e = EDGE_FIELDS * n;
    b[crate::EDGES_AT..crate::EDGES_AT + e].copy_from_slice(&edges[..e]);
    let h = policies_head(n, local);
    crate::judge::judge_out(b, h, monitor::start(), 0);
}

pub(crate) fn load_policies(b: &mut [u8], text: &[u8]) -> u32
    requires desk_bytes_in_bounds { desk_bytes ≤ length b.old }
    requires is_desk { desk_of b.old ≡ some (desk_in b.old) }
    requires is_free { is_busy_lem (desk_in b.old) ≡ false }
    ensures { Called (ByPolicies text.now) b.old result b.new }
{
    let mut edges = [0u8; EDGE_TABLE];
    match sheet_reader::read_policies(text, &mut edges) {
        Err(r) => refused_at(r),
        Ok(sheet) => {
            store_policies(b, &edges, sheet.edges, sheet.local);
            0
        }
    }
}

// ── An outline ──

// The check's verdict as a number.
fn outcome_code(o: Result<Outcome, Reason>) -> u32
    ensures { result ≡ desk_code (plain (outcome_verdict o)) }
{
    match o {
        Ok(Outcome::Accepted) => 0,
        Ok(Outcome::Named(p)) => p as u32 + 256,
        Err(reason) => crate::refused(reason),
    }
}

// The positions at the load are written: how many there are, or 65.
fn start_rows(b: &mut [u8], nodes: &[u8]) -> u32
    requires { desk_bytes ≤ length b.old }
    ensures settled_in { OutlineOk (nodes_of nodes.now)
        → SettledIn (start_positions (nodes_of nodes.now)) result b.new }
    ensures within { Within b.old rows_at desk_bytes b.new }
    ensures b_len_unchanged { length b.new ≡ length b.old }
{
    let k = desk_positions::start(nodes, &mut b[crate::ROWS_AT..crate::DESK_BYTES]);
    k as u32
}

fn outline_head(h: Head, n: usize) -> Head
    requires { n ≤ most_nodes }
    ensures { result ≡ with_nodes h n }
{
    Head {
        nodes: n as u32,
        positions: 0,
        halted: 0,
        count: 0,
        highest: 0,
        depth: 0,
        ..h
    }
}

// An outline is written with its summary and its positions, and the judge starts afresh.
fn store_outline(b: &mut [u8], h: Head, nodes: &[u8], marks: &[u64; POLICIES])
    requires desk_bytes_in_bounds { desk_bytes ≤ length b.old }
    requires head_is_ok { head_ok_lem h ≡ true }
    requires policies_loaded { h.policies ≡ 0 → ⊥ }
    requires nodes_valid { is_node_table nodes.now ≡ true }
    requires nodes_len_bound { length nodes.now ≤ node_places }
    ensures encodes { Encodes b.new (with_outline (loaded_in b.old h) nodes.now marks.now) }
    ensures within { Within b.old 0 desk_bytes b.new }
{
    b[crate::NODES_AT..crate::NODES_AT + nodes.len()].copy_from_slice(nodes);
    crate::bytes::longs_out(b, crate::SUMMARY_AT, marks);
    let k = start_rows(b, nodes);
    let g = outline_head(h, nodes.len() / NODE_FIELDS);
    crate::judge::judge_out(b, g, monitor::start(), k);
}

// "answers an outline, kept either way, with the check's verdict"
fn keep_outline(b: &mut [u8], h: Head, nodes: &[u8]) -> u32
    requires desk_bytes_in_bounds { desk_bytes ≤ length b.old }
    requires head_is_ok { head_ok_lem h ≡ true }
    requires policies_loaded { h.policies ≡ 0 → ⊥ }
    requires edges_valid { is_edge_table (edges_in b.old h) ≡ true }
    requires nodes_valid { is_node_table nodes.now ≡ true }
    requires nodes_len_bound { length nodes.now ≤ node_places }
    ensures { KeptOutline b.old h nodes.now result b.new }
{
    let local = h.policies == crate::LOCAL;
    let e = crate::EDGES_AT + EDGE_FIELDS * h.edges as usize;
    let o = checker::check(&b[crate::EDGES_AT..e], local, nodes);
    let mut marks = [0u64; POLICIES];
    let _ = checker::summary::summary(&b[crate::EDGES_AT..e], local, nodes, &mut marks);
    store_outline(b, h, nodes, &marks);
    outcome_code(o)
}

pub(crate) fn load_outline(b: &mut [u8], h: Head, text: &[u8]) -> u32
    requires desk_bytes_in_bounds { desk_bytes ≤ length b.old }
    requires head_is_ok { head_ok_lem h ≡ true }
    requires policies_loaded { h.policies ≡ 0 → ⊥ }
    requires edges_valid { is_edge_table (edges_in b.old h) ≡ true }
    requires is_loaded { desk_of b.old ≡ some (some (loaded_in b.old h)) }
    requires is_free { is_busy_lem (some (loaded_in b.old h)) ≡ false }
    ensures { Called (ByOutline text.now) b.old result b.new }
{
    let mut nodes = [0u8; NODE_TABLE];
    match sheet_reader::read_outline(text, &mut nodes) {
        Err(r) => refused_at(r),
        Ok(n) => {
            let m = NODE_FIELDS * n;
            keep_outline(b, h, &nodes[0..m])
        }
    }
}
