// The rules where 6 asks what a closure does, from public names alone: the caller finds the lowest node that fails.
ghost use Rattle.std.specs.Prelude.{◌≡◌, ◌≢◌, ℕ, Bool, ◌/◌, ◌<◌, ltb, length};
ghost use Rattle.usage.specs.Limits.{node_fields};
ghost use Rattle.usage.specs.Tables.{nodes_of};
ghost use Rattle.usage.specs.Tests.{ruled_by};
ghost use Rattle.sheet_rules.specs.Faults.{fault};

use sheet_rules::ruled_failing;
use std::test::Fail;
use usage::{NODE_FIELDS, Reason, SheetRefusal};

#[derive(Clone, Copy, Debug)]
struct Mismatch {
    got: Result<(), SheetRefusal>,
    want: Result<(), SheetRefusal>,
}

fn ruled_where<F: Fn(usize) -> bool>(table: &[u8], passes: F) -> Result<(), SheetRefusal>
    ghost test: { ℕ → Bool }
    requires callable { (k : ℕ) → k < length table.now / node_fields → F.pre passes k }
    requires tells { (k : ℕ) (r : Bool) → k < length table.now / node_fields → F.post passes k r → r ≡ test k }
    ensures { fault result ≡ ruled_by test (nodes_of table.now) }
{
    for k in 0..table.len() / NODE_FIELDS {
        if !passes(k) {
            return ruled_failing(table, Some(k));
        }
    }
    ruled_failing(table, None)
}

// Nodes below `most` pass, and no others.
fn below(table: &[u8], most: usize) -> Result<(), SheetRefusal>
    ensures { fault result ≡ ruled_by (λ k. ltb k most) (nodes_of table.now) }
{
    ruled_where(table, |k| k < most)
}

fn refusal(line: usize, reason: Reason) -> Result<(), SheetRefusal>
    ensures { result ≡ Err record { line = line; reason = reason } }
{
    Err(SheetRefusal { line, reason })
}

// Nothing where the answer is the one that is wanted; else both, and the test fails.
fn expect(got: Result<(), SheetRefusal>, want: Result<(), SheetRefusal>) -> Result<(), Mismatch>
    ensures right { (u : _) → result ≡ Ok u → got ≡ want }
    ensures wrong { (r : _) → result ≡ Err r → (r ≡ record { got = got; want = want }) × (got ≢ want) }
{
    match (got, want) {
        (Ok(()), Ok(())) => Ok(()),
        (Err(a), Err(b)) if a == b => Ok(()),
        _ => Err(Mismatch { got, want }),
    }
}

// "then 9, 6, 7, 8, each over all nodes": node 1 is a back to no loop, and node 2 uses a name that no node gives.
const WRONG: [u8; 9] = [3, 1, 2, 6, 9, 0, 2, 1, 5];

// Of the two only the name.
const NAMED: [u8; 9] = [3, 1, 2, 0, 0, 0, 2, 1, 5];

#[test]
fn the_node_that_fails() -> Result<(), Fail> {
    expect(ruled_failing(&[], None), refusal(2, Reason::NoNodes))?;
    expect(ruled_failing(&[], Some(0)), refusal(2, Reason::NoNodes))?;
    expect(ruled_failing(&[0, 0, 0], None), Ok(()))?;
    expect(ruled_failing(&[0, 0, 0], Some(0)), refusal(2, Reason::Tree))?;
    expect(ruled_failing(&[0, 0, 0], Some(1)), Ok(()))?;
    expect(ruled_failing(&[0, 0, 0], Some(usize::MAX)), Ok(()))?;
    expect(ruled_failing(&WRONG, Some(0)), refusal(2, Reason::Tree))?;
    expect(ruled_failing(&WRONG, Some(2)), refusal(4, Reason::Tree))?;
    expect(ruled_failing(&WRONG, Some(3)), refusal(3, Reason::Back))?;
    expect(ruled_failing(&WRONG, None), refusal(3, Reason::Back))?;
    expect(ruled_failing(&NAMED, Some(1)), refusal(3, Reason::Tree))?;
    expect(ruled_failing(&NAMED, None), refusal(4, Reason::Name))?;
    Ok(())
}

#[test]
fn a_rule_of_ones_own() -> Result<(), Fail> {
    expect(below(&[], 0), refusal(2, Reason::NoNodes))?;
    expect(below(&WRONG, 1), refusal(3, Reason::Tree))?;
    expect(below(&WRONG, 3), refusal(3, Reason::Back))?;
    expect(below(&NAMED, 0), refusal(2, Reason::Tree))?;
    expect(below(&NAMED, 3), refusal(4, Reason::Name))?;
    Ok(())
}
