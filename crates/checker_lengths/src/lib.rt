// Tables of least lengths, for one policy and one watched resource: in how many steps, at least, each node can come to each aim. A
// shortest trace is read from them (`checker_trace`). entries: single entries. offers: what the rules give by the entries that
// stand. fill: the table, in rounds.
#![tactic(auto)]

ghost use Rattle.std.specs.Prelude.{◌≡◌};
ghost use Rattle.checker_account.specs.Tables.{one_resource};

pub mod entries;
pub mod fill;
pub mod offers;

use checker_account::{MEANINGS, NOTHING, PLACES, Resources, Watch};
use usage::STATES;

// The aims of a node: to end in a state, the watched resource being created or not, or to break the policy.
pub const BROKEN: usize = 2 * STATES;

pub const AIMS: usize = BROKEN + 1;

// The rules of a fresh node: one for each end of its creation; it breaks the policy; and that of the watched resource does.
pub const OWN_BREAK: usize = BROKEN + 1;

pub const FRESH_RULES: usize = OWN_BREAK + 1;

// The starts of a node: a meaning and a state.
pub const STARTS: usize = MEANINGS * STATES;

// A byte for each aim of each start of each node, the policy being open or not.
pub const SIZE: usize = 2 * PLACES * AIMS;

pub type Lengths = [u8; SIZE];

// The greatest length that counts, the number that all are less than, and what stands where there is none. Kept: a byte in the place of an
// Option, since the table has a byte for each entry, and its definition (`held` in specs/Entries) reckons with this one.
pub const MOST: u8 = 200;

pub const ALL: u8 = MOST + 1;

pub const NONE: u8 = 255;

// What a table is for: whether only the past since the opening counts, the policy, and the one watched resource. Kept beside `Watch`,
// which has two: a trace is read for one resource, so that each definition here would have to leave the second out.
#[derive(Clone, Copy)]
pub struct WatchOne {
    pub local: bool,
    pub policy: usize,
    pub resource: usize,
}

impl WatchOne {
    // The watched resources: there is no second.
    pub fn resources(self) -> Resources
        ensures { result ≡ one_resource self.resource }
    {
        Resources {
            first: self.resource,
            second: NOTHING,
        }
    }

    // The same for those who watch one resource or two.
    pub fn watch(self) -> Watch
        ensures { result
            ≡ record { local = self.local; policy = self.policy; resources = one_resource self.resource } }
    {
        Watch {
            local: self.local,
            policy: self.policy,
            resources: self.resources(),
        }
    }
}

// Which entry: the node, whether the policy is open, the meaning (what is known of the watched resource), the state, and the aim.
#[derive(Clone, Copy)]
pub struct Entry {
    pub node: usize,
    pub opened: bool,
    pub meaning: usize,
    pub state: usize,
    pub aim: usize,
}
