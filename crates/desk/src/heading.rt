// The head of the state.
ghost use Rattle.std.specs.Prelude.{ℕ, ◌≤◌, ◌≡◌, length};
ghost use Rattle.desk.specs.Layout.{desk_bytes, edges_at, head_in_lem, Within};
ghost use Rattle.desk.specs.State.{head_ok_lem, is_listed_lem};

use crate::Head;
use desk_positions::MOST_POSITIONS;
use usage::{MOST_EDGES, MOST_NODES};

// The number of positions that tells that a limit was exceeded.
const EXCEEDED: u32 = MOST_POSITIONS as u32 + 1;

pub(crate) fn head_in(b: &[u8]) -> Head
    requires { desk_bytes ≤ length b.now }
    ensures { result ≡ head_in_lem b.now }
{
    Head {
        policies: crate::bytes::word(b, 0),
        edges: crate::bytes::word(b, 4),
        nodes: crate::bytes::word(b, 8),
        positions: crate::bytes::word(b, 12),
        halted: crate::bytes::word(b, 16),
        count: crate::bytes::word(b, 20),
        highest: crate::bytes::word(b, 24),
        depth: crate::bytes::word(b, 28),
    }
}

// Are the numbers in their ranges?
pub(crate) fn head_ok(h: Head) -> bool
    ensures { result ≡ head_ok_lem h }
{
    h.policies <= crate::LOCAL
        && h.edges <= MOST_EDGES as u32
        && h.nodes <= MOST_NODES as u32
        && h.positions <= EXCEEDED
        && h.halted <= 1
}

// Is a position listed?
pub(crate) fn is_listed(h: Head) -> bool
    ensures { result ≡ is_listed_lem h }
{
    h.nodes != 0 && h.positions != 0 && h.positions <= MOST_POSITIONS as u32
}

pub(crate) fn head_out(b: &mut [u8], h: Head)
    requires { desk_bytes ≤ length b.old }
    ensures b_after { head_in_lem b.new ≡ h }
    ensures within { Within b.old 0 edges_at b.new }
{
    let l = [
        h.policies,
        h.edges,
        h.nodes,
        h.positions,
        h.halted,
        h.count,
        h.highest,
        h.depth,
    ];
    crate::bytes::words_out(b, 0, &l);
}
