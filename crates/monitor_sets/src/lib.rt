// What the judge keeps of the past, array by array: the created resources, the sets of states of the instances, and the order of openings.
#![tactic(auto)]

use usage::{MOST_CREATED, POLICIES, STATICS};

pub mod created;
pub mod instances;
pub mod order;
pub mod retiring;
pub mod unions;

// The instance of every resource that never occurred; those below are the static resources'.
pub const UNSEEN: usize = STATICS as usize;

// The one set of the retired resources' instances, which move on as one other than any resource used.
pub const RETIREES: usize = UNSEEN + 1;

// The instance of the first live resource; the others' follow.
pub const FIRST_CREATED: usize = RETIREES + 1;

// The instances of a policy.
pub const INSTANCES: usize = FIRST_CREATED + MOST_CREATED;

// The places of the table of sets: instance i of policy p has its set at p * INSTANCES + i.
pub const SETS: usize = POLICIES * INSTANCES;

// An event on the resource whose instance is at place `at` of the first n of each policy.
#[derive(Clone, Copy)]
pub struct Turn {
    pub n: usize,
    pub at: usize,
    pub action: u32,
    pub resource: u32,
}

// The set of state 0 alone.
pub const START_SET: u8 = 1;
