// The choices of watched resources, gone through by number: one for a policy about one resource, two for a pair policy.
ghost use Rattle.std.specs.Prelude.{◌≡◌, true, ℕ};
ghost use Rattle.checker_account.specs.Choices.{choice_count, choice_at};
ghost use Rattle.checker.specs.Code.{worth_of};

use checker_account::{NOTHING, Resources, WATCHED, WATCHED_TOO};

// The resources that each of the watched ones may be, and the choices of two of them.
const SINGLES: usize = WATCHED + 1;

const GRID: usize = SINGLES * SINGLES;

// How many choices there are.
pub(crate) fn count(pair: bool) -> usize
    ensures { result ≡ choice_count pair }
{
    if pair { GRID + 1 } else { SINGLES }
}

// The i-th of two resources: two different dynamic ones are the last.
fn two_at(i: usize) -> Resources
    ensures { result ≡ choice_at true i }
{
    if i == GRID {
        return Resources {
            first: WATCHED,
            second: WATCHED_TOO,
        };
    }
    Resources {
        first: i / SINGLES,
        second: i % SINGLES,
    }
}

// The i-th choice.
pub(crate) fn at(pair: bool, i: usize) -> Resources
    ensures { result ≡ choice_at pair i }
{
    if pair {
        return two_at(i);
    }
    Resources {
        first: i,
        second: NOTHING,
    }
}

// Is an event on each static one of them? Where not, another choice shows what this one would.
pub(crate) fn worth(nodes: &[u8], x: Resources) -> bool
    ensures { result ≡ worth_of nodes.now x }
{
    checker_tables::touched(nodes, x.first) && checker_tables::touched(nodes, x.second)
}
