// The finite account of an outline, and the tables that hold it. A run creates any number of resources, and looking at one instance at a
// time settles whether some run breaks a policy. No function: specs/ has the account, how the tables are laid out and how they are filled;
// proofs/ has that the account is exact, and that filled tables hold exactly the account.
#![tactic(auto)]

use usage::{MOST_NODES, STATES, STATICS};

// ── Sizes ── as specs/ has them under the same names.

// The watched dynamic resource: the resources that are watched are those up to this one.
pub const WATCHED: usize = STATICS as usize;

// A second watched dynamic resource, of a pair policy.
pub const WATCHED_TOO: usize = WATCHED + 1;

// The resource that stands for every dynamic one that is not watched: no edge names it.
pub const OTHERS: u32 = STATICS + 2;

// In the place of a second watched resource, where there is none.
pub const NOTHING: usize = STATICS as usize + 3;

// The names that an outline gives.
pub const NAMES: usize = 4;

// What the names can mean of the watched resource: the last of these meanings is that no name means it and it cannot be created.
pub const UNNAMED: usize = NAMES + 1;

pub const MEANINGS: usize = UNNAMED + 1;

// The places of one entry: each state of each node.
pub const LAYER: usize = MOST_NODES * STATES;

// With one dynamic resource watched at most, an entry is a meaning: a set for each of them and each state of each node.
pub const PLACES: usize = MEANINGS * LAYER;

// Kept: groups are numbers and no enum, since an entry's number is computed from them, and the number is its place in a table.
// The groups of entries by what is told of the second dynamic resource: no name means it, four names, it can still be created; and, of the
// table of ends alone, it is created by the end.
pub const WAITING: usize = UNNAMED;

pub const LATE: usize = MEANINGS;

// With both watched: the starts, which the table of what is come to has, and the entries of the table of ends.
pub const PAIR_CODES: usize = MEANINGS * LATE;

pub const PAIR_ENTRIES: usize = MEANINGS * (LATE + 1);

pub const PAIR_PLACES: usize = PAIR_ENTRIES * LAYER;

pub type Table = [u16; PLACES];

pub type PairTable = [u16; PAIR_PLACES];

// The watched resources: the second is NOTHING where the policy is about one.
// Kept: no Option, since the definitions of specs/ (way_of, places_of, Asked) compare the second as a number, as the first.
#[derive(Clone, Copy)]
pub struct Resources {
    pub first: usize,
    pub second: usize,
}

// What tables are for: whether only the past since the opening counts, the policy, and the watched resources.
#[derive(Clone, Copy)]
pub struct Watch {
    pub local: bool,
    pub policy: usize,
    pub resources: Resources,
}

// A node is come to, the policy being open or not, with this meaning (a code where two dynamic resources are watched), in these states.
#[derive(Clone, Copy)]
pub struct Arrival {
    pub to: usize,
    pub opened: bool,
    pub meaning: usize,
    pub states: u16,
}
