// The order of the unclosed openings: the first `depth` policies of an array, the oldest first.
// Kept: the array and the depth side by side: the C interface lends them so.
ghost use Rattle.std.specs.Prelude.{ℕ, ◌<◌, ◌≤◌, ◌≡◌, true, false, length, get_or};
ghost use Rattle.usage.specs.Limits.{policies, most_unclosed};
ghost use Rattle.usage.specs.Past.{occurrences};
ghost use Rattle.usage.specs.Tests.{every};
ghost use Rattle.monitor_sets.specs.Order.{stack_in, is_policy, order_ok_lem};

use usage::{MOST_UNCLOSED, POLICIES};

// How often each policy stands in the order; nothing where an entry is no policy.
fn tally(order: &[u8]) -> Option<[u8; POLICIES]>
    requires { length order.now ≤ most_unclosed }
    ensures none { result ≡ None → every is_policy (stack_in (length order.now) order.now) ≡ false }
    ensures some { (counts : _) → result ≡ Some counts → (every is_policy (stack_in (length order.now) order.now) ≡ true)
        × (length counts ≡ policies)
        × ((p : ℕ) → p < policies → get_or counts p 0 ≡ occurrences p (stack_in (length order.now) order.now)) }
{
    let mut counts = [0u8; POLICIES];
    for policy in order {
        let p = *policy as usize;
        if POLICIES <= p {
            return None;
        }
        counts[p] += 1;
    }
    Some(counts)
}

// "42 also refuses an order longer than 64 or one that disagrees with the counts". It also tells the length of the array.
pub fn order_ok(order: &[u8; MOST_UNCLOSED], depth: usize, unclosed: &[u8; POLICIES]) -> bool
    ensures value { result ≡ order_ok_lem depth order.now unclosed.now }
    ensures order_len { length order.now ≡ most_unclosed }
{
    if MOST_UNCLOSED < depth {
        return false;
    }
    match tally(&order[..depth]) {
        Some(counts) => counts == *unclosed,
        None => false,
    }
}
