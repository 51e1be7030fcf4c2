// The sets of states that the judge keeps for a policy about two resources (02, L10): one for each two places, x's and then y's. The
// places are those of `monitor_sets`: the static resources', that of the unseen ones, that of the retired ones, and the live ones'.
#![tactic(auto)]

use monitor_sets::INSTANCES;
use usage::STATES;

pub mod blocks;
mod events;
mod gathering;
mod places;
mod retiring;
pub mod rows;
mod runs;
pub mod which;

// The sets of one policy: that of places i and j is at i * INSTANCES + j.
pub const PAIRS: usize = INSTANCES * INSTANCES;

// The sets of both pair policies.
pub const PAIR_SETS: usize = 2 * PAIRS;

// Where each state goes by an event, in the four ways in which two places can see it: the event's place is neither of them, the first,
// the second, or both.
#[derive(Clone, Copy)]
pub struct Ways {
    pub neither: [u8; STATES],
    pub first: [u8; STATES],
    pub second: [u8; STATES],
    pub both: [u8; STATES],
}
