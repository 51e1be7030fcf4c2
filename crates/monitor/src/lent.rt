// What is lent to one step: the arrays of the state, and what the step is judged by.
ghost use Rattle.std.specs.Prelude.{◌≡◌, length};
ghost use Rattle.usage.specs.Limits.{most_created, most_unclosed};
ghost use Rattle.usage.specs.Tables.{edges_of};
ghost use Rattle.monitor_pairs.specs.Blocks.{pairs_of};
ghost use Rattle.monitor_state.specs.Tracked.{pair_sets};

use monitor_pairs::which::Blocks;
use monitor_sets::SETS;
use usage::{MOST_CREATED, MOST_UNCLOSED, POLICIES};

// The arrays of a state.
#[derive(Drop)]
pub(crate) struct Lent<'a> {
    pub sets: &'a mut [u8; SETS],
    pub pairs: &'a mut [u8],
    pub possible: &'a mut [u8; POLICIES],
    pub created: &'a mut [u32; MOST_CREATED],
    pub unclosed: &'a mut [u8; POLICIES],
    pub order: &'a mut [u8; MOST_UNCLOSED],
    pub ghost whole: { (length pairs.now ≡ pair_sets) × (length created.now ≡ most_created) × (length order.now ≡ most_unclosed) },
}

// The policies that are looked at, the edges, the policies about two resources among them, and which past counts.
#[derive(Clone, Copy)]
pub(crate) struct Rules<'a> {
    pub looked: u8,
    pub edges: &'a [u8],
    pub which: Blocks,
    pub local: bool,
    pub ghost of_edges: { which ≡ pairs_of (edges_of edges.now) },
}
