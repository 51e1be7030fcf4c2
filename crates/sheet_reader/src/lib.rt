// The three text sheets: policies, trace and outline (document 01, "Sheets").
#![tactic(auto)]

ghost use Rattle.std.specs.Prelude.{◌≡◌, ◌++◌, ℕ, ◌*◌, ◌<◌, ◌≤◌, length, get_or, drop};
ghost use Rattle.usage.specs.Limits.{most_edges, most_nodes, most_steps, edge_fields, node_fields, step_fields};
ghost use Rattle.usage.specs.Tests.{ruled_sheet};
ghost use Rattle.usage.specs.Tables.{nodes_of, from};
ghost use Rattle.sheet_rules.specs.Faults.{fault};
ghost use Rattle.sheet_lines.specs.Sheet.{sheet};
ghost use Rattle.sheet_lines.specs.Sheets.{sheet_of, is_local};
ghost use Rattle.sheet_lines.specs.Answer.{reading_answer, answered, most_values, filled};
ghost use Rattle.sheet_reader.specs.Readers.{roomy, policies_into, trace_into, outline_into, policy_answer, policies_answered, stored};
ghost use Rattle.sheet_reader.specs.Code.{needed, edge_place, number_place, node_place, picked};

use sheet_fields::{Kind, NODE_LINE_FIELDS};
use sheet_lines::MOST_VALUES;
use usage::{
    EDGE_FIELDS, EDGE_TABLE, MOST_NODES, NODE_FIELDS, NODE_TABLE, Reason, STEP_FIELDS, STEP_TABLE,
    SheetRefusal,
};

// What the reader of policies stored: how many edges, and whether their sheet is local.
#[derive(Clone, Copy, PartialEq, Eq, Debug)]
pub struct PolicySheet {
    pub edges: usize,
    pub local: bool,
}

// A sheet of policies into a table of edges, six numbers to an edge; the table must have room for 256.
pub fn read_policies(text: &[u8], table: &mut [u8]) -> Result<PolicySheet, SheetRefusal>
    ensures result_value { policy_answer result
        ≡ policies_answered (is_local text.now) (policies_into (length table.old) text.now) }
    ensures table_after { table.new ≡ stored (policies_into (length table.old) text.now) table.old }
{
    let local = sheet_lines::is_local(text);
    let mut buffer = [0u32; MOST_VALUES];
    let edges = read(text, Kind::Policies { local }, table.len(), &mut buffer)?;
    store_edges(&buffer, edges, table);
    Ok(PolicySheet { edges, local })
}

// A trace into a table of steps, three numbers to a step; the table must have room for 2,000. The answer is how many steps.
pub fn read_trace(text: &[u8], table: &mut [u32]) -> Result<usize, SheetRefusal>
    ensures result_value { reading_answer result ≡ answered (trace_into (length table.old) text.now) }
    ensures table_after { table.new ≡ stored (trace_into (length table.old) text.now) table.old }
{
    let mut buffer = [0u32; MOST_VALUES];
    let n = read(text, Kind::Trace, table.len(), &mut buffer)?;
    store_numbers(&buffer, n, table);
    Ok(n)
}

// An outline into a table of nodes, three numbers to a node; the table must have room for 64. The number on a node's line is its
// place, and is not stored. The answer is how many nodes.
pub fn read_outline(text: &[u8], table: &mut [u8]) -> Result<usize, SheetRefusal>
    ensures result_value { reading_answer result ≡ answered (outline_into (length table.old) text.now) }
    ensures table_after { table.new ≡ stored (outline_into (length table.old) text.now) table.old }
{
    let mut buffer = [0u32; MOST_VALUES];
    let n = read(text, Kind::Outline, table.len(), &mut buffer)?;
    checked(&buffer, n)?;
    store_nodes(&buffer, n, table);
    Ok(n)
}

// The values of a sheet into the buffer, where the table that is lent, of so many places, has room for the largest sheet (else 40).
fn read(
    text: &[u8],
    kind: Kind,
    places: usize,
    buffer: &mut [u32; MOST_VALUES],
) -> Result<usize, SheetRefusal>
    ensures result_value { reading_answer result ≡ answered (roomy places (needed kind) (sheet (sheet_of kind) text.now)) }
    ensures buffer_after { buffer.new
        ≡ filled (roomy places (needed kind) (sheet (sheet_of kind) text.now)) buffer.old }
{
    if places < largest(kind) {
        return Err(SheetRefusal {
            line: 0,
            reason: Reason::Room,
        });
    }
    sheet_lines::sheet(text, kind, buffer)
}

// How many places the largest sheet fills.
fn largest(kind: Kind) -> usize
    ensures { result ≡ needed kind }
{
    match kind {
        Kind::Policies { local: _ } => EDGE_TABLE,
        Kind::Trace => STEP_TABLE,
        Kind::Outline => NODE_TABLE,
    }
}

// The rules of an outline of n lines, which stand in the buffer.
fn checked(buffer: &[u32; MOST_VALUES], n: usize) -> Result<(), SheetRefusal>
    requires n_le_most_nodes { n ≤ most_nodes }
    requires by_index { (i : ℕ) → get_or buffer.now i 0 < 256 }
    ensures { fault result ≡ ruled_sheet (picked number_place buffer.now n)
        (nodes_of (picked node_place buffer.now (n * node_fields))) }
{
    let mut places = [0u8; MOST_NODES];
    store_bytes(buffer, n, &mut places, |i| i * NODE_LINE_FIELDS);
    let mut nodes = [0u8; NODE_TABLE];
    store_nodes(buffer, n, &mut nodes);
    let m = n * NODE_FIELDS;
    sheet_rules::ruled_sheet(&nodes[0..m], &places[0..n])
}

// The edges of n lines.
fn store_edges(buffer: &[u32; MOST_VALUES], n: usize, table: &mut [u8])
    requires n_le_most_edges { n ≤ most_edges }
    requires edges_in_bounds { n * edge_fields ≤ length table.old }
    requires by_index { (i : ℕ) → get_or buffer.now i 0 < 256 }
    ensures { table.new ≡ picked edge_place buffer.now (n * edge_fields) ++ drop (n * edge_fields) table.old }
{
    store_bytes(buffer, n * EDGE_FIELDS, table, |i| i);
}

// The nodes of n lines, without their numbers.
fn store_nodes(buffer: &[u32; MOST_VALUES], n: usize, table: &mut [u8])
    requires n_le_most_nodes { n ≤ most_nodes }
    requires nodes_in_bounds { n * node_fields ≤ length table.old }
    requires by_index { (i : ℕ) → get_or buffer.now i 0 < 256 }
    ensures { table.new ≡ picked node_place buffer.now (n * node_fields) ++ drop (n * node_fields) table.old }
{
    store_bytes(buffer, n * NODE_FIELDS, table, |i| i + i / NODE_FIELDS + 1);
}

// So many values, each of which fits a byte; the one that is stored at i stands at place(i).
fn store_bytes<F: Fn(usize) -> usize>(
    buffer: &[u32; MOST_VALUES],
    m: usize,
    table: &mut [u8],
    place: F,
)
    ghost at: { ℕ → ℕ }
    requires callable { (i : ℕ) → i < m → F.pre place i }
    requires tells { (i : ℕ) (r : ℕ) → i < m → F.post place i r → r ≡ at i }
    requires stands { (i : ℕ) → i < m → at i < most_values }
    requires m_in_bounds { m ≤ length table.old }
    requires by_index { (i : ℕ) → get_or buffer.now i 0 < 256 }
    ensures { table.new ≡ picked at buffer.now m ++ drop m table.old }
{
    for k in 0..m {
        table[k] = buffer[place(k)] as u8;
    }
}

// The values of n lines of a trace.
fn store_numbers(buffer: &[u32; MOST_VALUES], n: usize, table: &mut [u32])
    requires n_le_most_steps { n ≤ most_steps }
    requires step_fields_in_bounds { n * step_fields ≤ length table.old }
    ensures { table.new
        ≡ from (λ i. get_or buffer.now i 0) 0 (n * step_fields) ++ drop (n * step_fields) table.old }
{
    let m = n * STEP_FIELDS;
    table[..m].copy_from_slice(&buffer[..m]);
}
