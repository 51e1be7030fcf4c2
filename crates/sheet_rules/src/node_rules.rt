// Refusals 6, 7 and 8 over a flat table of nodes, three numbers to a node: the lowest node that breaks a rule.
ghost use Rattle.std.specs.Prelude.{◌≡◌, ℕ, Bool, ◌/◌, ◌<◌, ◌≤◌, ◌&&◌, eqb, length};
ghost use Rattle.usage.specs.Limits.{node_fields};
ghost use Rattle.usage.specs.Reasons.{number_of};
ghost use Rattle.usage.specs.Tables.{nodes_of};
ghost use Rattle.usage.specs.Outline.{form_at};
ghost use Rattle.usage.specs.Tests.{tree_ok_lem, back_ok_lem, name_ok_lem, place_ok, lowest_failing, numbered, above, some_below, loop_at, gives_name_lem};
ghost use Rattle.sheet_rules.specs.Faults.{fault};

use usage::{NODE_FIELDS, Reason, SheetRefusal};

// The lowest node that does not pass is refused.
pub(crate) fn each<F: Fn(usize) -> bool>(
    table: &[u8],
    reason: Reason,
    passes: F,
) -> Result<(), SheetRefusal>
    ghost test: { ℕ → Bool }
    requires callable { (k : ℕ) → k < length table.now / node_fields → F.pre passes k }
    requires tells { (k : ℕ) (r : Bool) → k < length table.now / node_fields → F.post passes k r → r ≡ test k }
    ensures { fault result ≡ numbered (number_of reason) (lowest_failing test 0 (length table.now / node_fields)) }
{
    for k in 0..table.len() / NODE_FIELDS {
        if !passes(k) {
            return Err(SheetRefusal {
                line: k + 2,
                reason,
            });
        }
    }
    Ok(())
}

// Document 01: "lowest back not inside a loop node of that number".
pub(crate) fn back_ok(table: &[u8], k: usize) -> bool
    requires { k < length table.now / node_fields }
    ensures { result ≡ back_ok_lem (nodes_of table.now) k }
{
    if table[NODE_FIELDS * k] != 6 {
        return true;
    }
    let x = table[NODE_FIELDS * k + 1];
    inside(table, k, |j| is_loop(table, x as usize, j))
}

// Document 01: "uses a name outside its fresh node, or gives one that a lower node gives".
pub(crate) fn name_ok(table: &[u8], k: usize) -> bool
    requires { k < length table.now / node_fields }
    ensures { result ≡ name_ok_lem (nodes_of table.now) k }
{
    match table[NODE_FIELDS * k] {
        2 => {
            let x = table[NODE_FIELDS * k + 2];
            inside(table, k, |j| gives_name(table, x, j))
        }
        7 => !given_below(table, table[NODE_FIELDS * k + 1], k),
        _ => true,
    }
}

// Document 01: "whose number is not its place".
fn placed(places: &[u8], k: usize) -> bool
    ensures { result ≡ place_ok places.now k }
{
    if places.len() <= k {
        return false;
    }
    places[k] as usize == k
}

// What refusal 6 asks of a node of a sheet.
pub(crate) fn place_and_tree_ok(table: &[u8], places: &[u8], k: usize) -> bool
    requires { k < length table.now / node_fields }
    ensures { result ≡ (place_ok places.now k && tree_ok_lem (nodes_of table.now) k) }
{
    if !placed(places, k) {
        return false;
    }
    crate::tree::tree_ok(table, k)
}

// Node j is a loop, and node x.
fn is_loop(nodes: &[u8], x: usize, j: usize) -> bool
    requires { j < length nodes.now / node_fields }
    ensures { result ≡ (eqb j x && loop_at (form_at (nodes_of nodes.now) j)) }
{
    if j != x {
        return false;
    }
    nodes[NODE_FIELDS * j] == 5
}

// Node j gives name x.
fn gives_name(nodes: &[u8], x: u8, j: usize) -> bool
    requires { j < length nodes.now / node_fields }
    ensures { result ≡ gives_name_lem (nodes_of nodes.now) x j }
{
    if nodes[NODE_FIELDS * j] != 7 {
        return false;
    }
    nodes[NODE_FIELDS * j + 1] == x
}

// Node k lies inside a node that is sought. Every parent is lower than its child, so one way down from k meets all of them; `at` is
// the highest met so far.
fn inside<F: Fn(usize) -> bool>(nodes: &[u8], k: usize, sought: F) -> bool
    ghost test: { ℕ → Bool }
    requires k_in_bounds { k < length nodes.now / node_fields }
    requires callable { (j : ℕ) → j < k → F.pre sought j }
    requires tells { (j : ℕ) (r : Bool) → j < k → F.post sought j r → r ≡ test j }
    ensures { result ≡ above (nodes_of nodes.now) test k k }
{
    let mut at = k;
    for j in (0..k).rev() {
        if crate::tree::is_child(nodes, j, at) {
            if sought(j) {
                return true;
            }
            at = j;
        }
    }
    false
}

// A node below k gives name x.
fn given_below(nodes: &[u8], x: u8, k: usize) -> bool
    requires { k ≤ length nodes.now / node_fields }
    ensures { result ≡ some_below (gives_name_lem (nodes_of nodes.now) x) k }
{
    for j in (0..k).rev() {
        if gives_name(nodes, x, j) {
            return true;
        }
    }
    false
}
