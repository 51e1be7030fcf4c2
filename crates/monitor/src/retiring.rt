// A retiring: "It frees the place for another create, is no event and, like an opening, is judged by the stored sets" (02, L8).
ghost use Rattle.std.specs.Prelude.{ℕ, ◌≤◌, ◌≡◌, List, Bool, false, length};
ghost use Rattle.usage.specs.Limits.{most_created};
ghost use Rattle.usage.specs.Past.{retiring};
ghost use Rattle.monitor_pairs.specs.Blocks.{pairs_of};
ghost use Rattle.monitor_state.specs.Judge.{pair_sets};
ghost use Rattle.monitor_state.specs.Code.{state_of, judgement_of};
ghost use Rattle.monitor.specs.Loans.{held, SameLoans, stepped_by};

use crate::lent::{Lent, Rules};
use monitor_sets::FIRST_CREATED;
use monitor_state::{Sizes, Told};
use usage::Reason;

// It frees the place of the resource, and moves no state.
pub(crate) fn judge_retiring(by: &Rules, lent: &mut Lent, sizes: Sizes, r: u32) -> Told<Reason>
    requires { sizes.count ≤ most_created }
    ensures same_loans { SameLoans lent.old lent.new }
    ensures judged { judgement_of result (held lent.new) ≡ stepped_by by.now (state_of (held lent.old) sizes) (retiring r) }
{
    let count = sizes.count;
    let at = monitor_sets::created::place_of(lent.created, count, r);
    if at < FIRST_CREATED {
        return monitor_state::refused(Reason::RetireNotLive, sizes);
    }
    let bad = monitor_sets::instances::broken_set(by.looked, lent.possible, lent.unclosed);
    let after = Sizes {
        count: count - 1,
        ..sizes
    };
    if bad != 0 {
        return monitor_state::settled(bad, sizes, after);
    }
    let n = FIRST_CREATED + count;
    monitor_sets::retiring::retire(lent.sets, n, at);
    monitor_pairs::blocks::retire(lent.pairs, by.which, n, at);
    let i = at - FIRST_CREATED;
    monitor_sets::retiring::close_up(lent.created, count, i);
    monitor_state::settled(bad, sizes, after)
}
