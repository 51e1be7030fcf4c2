// The rules of an outline over a flat table of nodes, three numbers to a node (refusals 9, 6, 7, 8), and the test of a table that is
// lent (41).
#![tactic(auto)]

ghost use Rattle.std.specs.Prelude.{◌≡◌, ℕ, Bool, ◌/◌, ◌<◌, length};
ghost use Rattle.usage.specs.Limits.{node_fields};
ghost use Rattle.usage.specs.Tables.{nodes_of, is_node_table};
ghost use Rattle.usage.specs.Tests.{every, node_ok, back_ok_lem, name_ok_lem, lowest_failing, or_else, numbered, no_nodes, ruled_by, ruled as ruled_nodes, ruled_sheet as ruled_lines};
ghost use Rattle.sheet_rules.specs.Rules.{passes as passes_of, all_but};
ghost use Rattle.sheet_rules.specs.Faults.{fault};

use crate::node_rules::{back_ok, each, name_ok, place_and_tree_ok};
use crate::tree::{tree_ok, trees_ok};
use usage::{NODE_FIELDS, NODE_TABLE, Reason, SheetRefusal};

mod node_rules;
mod tree;

// One rule, asked of a node. `Place` is refusal 6 of a sheet, whose lines hold node numbers of their own, and `Tree` that of a table.
#[derive(Clone, Copy)]
pub enum Rule {
    Place,
    Tree,
    Back,
    Name,
}

// The rules of a table of nodes, where what 6 asks of node k is handed in. Document 01: "then 9, 6, 7, 8, each over all nodes".
fn ruled_where<F: Fn(usize) -> bool>(table: &[u8], passes: F) -> Result<(), SheetRefusal>
    ghost test: { ℕ → Bool }
    requires callable { (k : ℕ) → k < length table.now / node_fields → F.pre passes k }
    requires tells { (k : ℕ) (r : Bool) → k < length table.now / node_fields → F.post passes k r → r ≡ test k }
    ensures { fault result ≡ ruled_by test (nodes_of table.now) }
{
    some_node(table)?;
    each(table, Reason::Tree, passes)?;
    loops_and_names(table)
}

// Those where the first rule is the one for 6.
pub fn ruled_first(table: &[u8], places: &[u8], first: Rule) -> Result<(), SheetRefusal>
    ensures { fault result ≡ ruled_by (passes_of first places.now (nodes_of table.now)) (nodes_of table.now) }
{
    match first {
        Rule::Place => ruled_sheet(table, places),
        Rule::Tree => ruled(table),
        Rule::Back => ruled_where(table, |k| back_ok(table, k)),
        Rule::Name => ruled_where(table, |k| name_ok(table, k)),
    }
}

// Those where this node alone breaks the rule for 6, if any does. A caller with a rule of its own gives the lowest node that fails it, and
// has the answer by that rule (the law `ruled-failing`); of a closure something would have to be asked.
pub fn ruled_failing(table: &[u8], failing: Option<usize>) -> Result<(), SheetRefusal>
    ensures { fault result ≡ ruled_by (all_but failing) (nodes_of table.now) }
{
    ruled_where(table, |k| is_other(failing, k))
}

fn is_other(failing: Option<usize>, k: usize) -> bool
    ensures { result ≡ all_but failing k }
{
    failing != Some(k)
}

// Those of a sheet of nodes, whose lines hold these numbers.
pub fn ruled_sheet(table: &[u8], places: &[u8]) -> Result<(), SheetRefusal>
    ensures { fault result ≡ ruled_lines places.now (nodes_of table.now) }
{
    ruled_where(table, |k| { place_and_tree_ok(table, places, k) })
}

// Those of a table that is lent.
pub fn ruled(table: &[u8]) -> Result<(), SheetRefusal>
    ensures { fault result ≡ ruled_nodes (nodes_of table.now) }
{
    ruled_where(table, |k| tree_ok(table, k))
}

fn some_node(table: &[u8]) -> Result<(), SheetRefusal>
    ensures { fault result ≡ no_nodes (nodes_of table.now) }
{
    if table.len() < NODE_FIELDS {
        return Err(SheetRefusal {
            line: 2,
            reason: Reason::NoNodes,
        });
    }
    Ok(())
}

// 7 and then 8.
fn loops_and_names(table: &[u8]) -> Result<(), SheetRefusal>
    ensures { fault result
        ≡ or_else (numbered 7 (lowest_failing (back_ok_lem (nodes_of table.now)) 0 (length table.now / node_fields)))
        (numbered 8 (lowest_failing (name_ok_lem (nodes_of table.now)) 0 (length table.now / node_fields))) }
{
    each(table, Reason::Back, |k| back_ok(table, k))?;
    each(table, Reason::Name, |k| name_ok(table, k))
}

// The fields of every node are in their ranges.
pub fn all_fit(table: &[u8]) -> bool
    ensures { result ≡ every node_ok (nodes_of table.now) }
{
    for k in 0..table.len() / NODE_FIELDS {
        if !sheet_fields::node_fits(
            table[NODE_FIELDS * k] as u32,
            table[NODE_FIELDS * k + 1] as u32,
            table[NODE_FIELDS * k + 2] as u32,
        ) {
            return false;
        }
    }
    true
}

// A table of nodes that some accepted sheet gives (else 41).
pub fn node_table_ok(table: &[u8]) -> bool
    ensures { result ≡ is_node_table table.now }
{
    if table.len() % NODE_FIELDS != 0 {
        return false;
    }
    if NODE_TABLE < table.len() {
        return false;
    }
    if !all_fit(table) {
        return false;
    }
    if table.len() < NODE_FIELDS {
        return false;
    }
    if !trees_ok(table) {
        return false;
    }
    loops_and_names(table).is_ok()
}
