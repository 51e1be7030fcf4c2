// Where each state of one policy goes by an event, in the four ways, out of the rows that `automaton::moves` makes for all policies.
ghost use Rattle.std.specs.Prelude.{◌≡◌};
ghost use Rattle.monitor_pairs.specs.Code.{ways_in};

use crate::Ways;
use automaton::{ROWS, policy_rows};

// The ways of policy p, from the rows of all policies: `automaton::moves::rows` has the first two tables, `rows_second` the others.
pub fn ways_of(
    neither: &[u8; ROWS],
    first: &[u8; ROWS],
    second: &[u8; ROWS],
    both: &[u8; ROWS],
    p: usize,
) -> Ways
    ensures { result ≡ ways_in neither.now first.now second.now both.now p }
{
    Ways {
        neither: policy_rows(neither, p),
        first: policy_rows(first, p),
        second: policy_rows(second, p),
        both: policy_rows(both, p),
    }
}
