// An outline typed as an expression, read into a lent table of nodes (02, L13).
#![tactic(auto)]

ghost use Rattle.std.specs.Prelude.{◌≡◌, ◌≤◌, length};
ghost use Rattle.usage.specs.Limits.{longest_sheet};
ghost use Rattle.usage.specs.Tables.{nodes_of};
ghost use Rattle.sheet_lines.specs.Answer.{reading_answer, answered};
ghost use Rattle.sheet_reader.specs.Readers.{stored};
ghost use Rattle.sheet_expression.specs.Expression.{expression_into};
ghost use Rattle.sheet_expression.specs.Code.{Lined, Outlined, nodes_fault, refusal_in};

use crate::items::is_at;
use crate::numbering::NodeList;
use crate::phrases::{LABELS, Read};
use sheet_lines::LONGEST_SHEET;
use usage::{MOST_NODES, NODE_FIELDS, NODE_TABLE, Reason, SheetRefusal};

mod items;
mod numbering;
mod phrases;

// "round and curly brackets, an event's aside, nest at most 32 deep".
const MOST_NESTED: u8 = 32;

// "One line feed ends the line."
fn line(text: &[u8]) -> Result<NodeList, Reason>
    requires { length text.now ≤ longest_sheet }
    ensures { Lined text.now result }
{
    let start = Read {
        nodes: NodeList::empty(),
        at: 0,
    };
    let r = crate::phrases::choice(text, &start, MOST_NESTED, [None; LABELS])?;
    if !is_at(text, r.at, b'\n') {
        return Err(Reason::ExpressionByte);
    }
    if r.at + 1 < text.len() {
        Err(Reason::ExpressionByte)
    } else {
        Ok(r.nodes)
    }
}

// "then 3, 7 and 8 as for a sheet". The nodes of an expression break 7 or 8 at most.
fn checked(nodes: &[u8]) -> Result<(), Reason>
    ensures { refusal_in result ≡ nodes_fault (nodes_of nodes.now) }
{
    if !sheet_rules::all_fit(nodes) {
        return Err(Reason::Range);
    }
    match sheet_rules::ruled(nodes) {
        Ok(()) => Ok(()),
        Err(r) => Err(r.reason),
    }
}

// The nodes of an expression that is in order, or why it is refused.
fn outline(text: &[u8]) -> Result<NodeList, Reason>
    requires { length text.now ≤ longest_sheet }
    ensures { Outlined text.now result }
{
    let nodes = line(text)?;
    if MOST_NODES < nodes.count {
        return Err(Reason::TooManyNodes);
    }
    checked(&nodes.table[..NODE_FIELDS * nodes.count])?;
    Ok(nodes)
}

// An expression into a table of nodes, three numbers to a node; the table must have room for 64. A refusal stores nothing.
pub fn read_expression(text: &[u8], table: &mut [u8]) -> Result<usize, SheetRefusal>
    ensures result_value { reading_answer result ≡ answered (expression_into (length table.old) text.now) }
    ensures table_after { table.new ≡ stored (expression_into (length table.old) text.now) table.old }
{
    if table.len() < NODE_TABLE {
        return Err(SheetRefusal {
            line: 0,
            reason: Reason::Room,
        });
    }
    if LONGEST_SHEET < text.len() {
        return Err(SheetRefusal {
            line: 0,
            reason: Reason::TooLong,
        });
    }
    match outline(text) {
        Err(reason) => Err(SheetRefusal { line: 1, reason }),
        Ok(nodes) => {
            let n = NODE_FIELDS * nodes.count;
            table[..n].copy_from_slice(&nodes.table[..n]);
            Ok(nodes.count)
        }
    }
}
