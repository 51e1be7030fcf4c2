// The pair policies as a bit set: "A policy with such an edge is a pair policy", "At most two policies may be such" (02, L10).
ghost use Rattle.std.specs.Prelude.{◌≡◌};
ghost use Rattle.automaton.specs.PairSet.{with_pair, many_in};

use crate::moves::ON_SECOND;
use usage::POLICIES;

// An edge's policy joined to a set of policies, where the edge is about the second resource.
pub fn joined(m: u8, policy: u32, on: u32) -> u8
    ensures { result ≡ with_pair m policy on }
{
    if on != ON_SECOND as u32 || POLICIES as u32 <= policy {
        return m;
    }
    m | 1u8 << policy
}

// More than two policies are in a set.
pub fn many(m: u8) -> bool
    ensures { result ≡ many_in m }
{
    2 < m.count_ones()
}
