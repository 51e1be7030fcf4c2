// The judge (document 01's word for the run-time monitor): its start and one step.
#![tactic(auto)]

ghost use Rattle.std.specs.Prelude.{ℕ, ◌<◌, ◌≤◌, ◌≡◌, List, Bool, true, false, length};
ghost use Rattle.usage.specs.Limits.{most_created, most_unclosed};
ghost use Rattle.usage.specs.Past.{event};
ghost use Rattle.usage.specs.Judge.{step_of};
ghost use Rattle.usage.specs.Tables.{edges_of};
ghost use Rattle.monitor_sets.specs.Instances.{instances};
ghost use Rattle.monitor_sets.specs.Created.{highest_ok};
ghost use Rattle.monitor_sets.specs.Order.{order_ok_lem};
ghost use Rattle.monitor_state.specs.Judge.{pair_sets, start_state, judge_of};
ghost use Rattle.monitor_state.specs.Looked.{looked_at, judge_read_by, judge_sized};
ghost use Rattle.monitor_state.specs.Promise.{StandsForNothing, Keeps};
ghost use Rattle.monitor_state.specs.Renamed.{SameAnswers};
ghost use Rattle.monitor_state.specs.Others.{OthersKept};
ghost use Rattle.monitor_state.specs.Lent.{lent_of, state_of, judgement_of};
ghost use Rattle.monitor.specs.Loans.{held, SameLoans, stepped_by};

use lent::{Lent, Rules};
use monitor_sets::{FIRST_CREATED, SETS, Turn, UNSEEN};
use monitor_state::{Created, Judgement, PAIR_SETS, Sizes, State, Step, Told, Tracked, Unclosed};
use usage::{MOST_CREATED, MOST_UNCLOSED, POLICIES, RawStep, Reason, STATICS};

mod events;
mod lent;
mod retiring;
mod sandboxes;

// All policies, as a set.
pub const ALL_POLICIES: u8 = 255;

// The start stands for the empty past, and from it no answer depends on how the dynamic resources are numbered, but for their order, nor,
// before the first 30, on retirings that are added.
pub fn start() -> State
    ensures value { result ≡ start_state }
    ensures stands_for_nothing { StandsForNothing result }
    ensures same_answers { SameAnswers result }
    ensures others_kept { OthersKept result }
{
    let sets = [1u8; SETS];
    let pairs = [1u8; PAIR_SETS];
    let possible = [1u8; POLICIES];
    let numbers = [0u32; MOST_CREATED];
    let counts = [0u8; POLICIES];
    let order = [0u8; MOST_UNCLOSED];
    let tracked = Tracked {
        sets,
        pairs,
        possible,
    };
    let created = Created {
        numbers,
        count: 0,
        highest: 0,
    };
    let unclosed = Unclosed {
        counts,
        order,
        depth: 0,
    };
    State {
        tracked,
        created,
        unclosed,
        halted: false,
    }
}

// ── One step ──

fn judge_create(by: &Rules, lent: &mut Lent, sizes: Sizes, r: u32) -> Told<Reason>
    requires count_le_most_created { sizes.count ≤ most_created }
    requires created_value { highest_ok sizes.highest sizes.count lent.old.created.now ≡ true }
    ensures same_loans { SameLoans lent.old lent.new }
    ensures judged { judgement_of result (held lent.new) ≡ stepped_by by.now (state_of (held lent.old) sizes) (event 0 r) }
{
    if r < STATICS {
        return monitor_state::refused(Reason::CreateStatic, sizes);
    }
    if r <= sizes.highest {
        return monitor_state::refused(Reason::NotAbove, sizes);
    }
    let count = sizes.count;
    if MOST_CREATED <= count {
        return monitor_state::refused(Reason::TooManyLive, sizes);
    }
    let at = FIRST_CREATED + count;
    let turn = Turn {
        n: at + 1,
        at,
        action: 0,
        resource: r,
    };
    let bad = crate::events::take_event(
        by,
        lent.sets,
        lent.pairs,
        lent.possible,
        lent.unclosed,
        turn,
    );
    if bad == 0 {
        lent.created[count] = r;
    }
    let after = Sizes {
        count: count + 1,
        highest: r,
        ..sizes
    };
    monitor_state::settled(bad, sizes, after)
}

fn judge_event(by: &Rules, lent: &mut Lent, sizes: Sizes, action: u32, r: u32) -> Told<Reason>
    requires count_le_most_created { sizes.count ≤ most_created }
    requires created_value { highest_ok sizes.highest sizes.count lent.old.created.now ≡ true }
    ensures same_loans { SameLoans lent.old lent.new }
    ensures judged { judgement_of result (held lent.new) ≡ stepped_by by.now (state_of (held lent.old) sizes) (event action r) }
{
    if action == 0 {
        return judge_create(by, lent, sizes, r);
    }
    let at = monitor_sets::created::place_of(lent.created, sizes.count, r);
    if at == UNSEEN {
        return monitor_state::refused(Reason::NotLive, sizes);
    }
    let n = FIRST_CREATED + sizes.count;
    let turn = Turn {
        n,
        at,
        action,
        resource: r,
    };
    let bad = crate::events::take_event(
        by,
        lent.sets,
        lent.pairs,
        lent.possible,
        lent.unclosed,
        turn,
    );
    monitor_state::settled(bad, sizes, sizes)
}

fn judge_read(by: &Rules, lent: &mut Lent, sizes: Sizes, step: RawStep) -> Told<Reason>
    requires count_le_most_created { sizes.count ≤ most_created }
    requires created_value { highest_ok sizes.highest sizes.count lent.old.created.now ≡ true }
    requires unclosed_value { order_ok_lem sizes.depth lent.old.order.now lent.old.unclosed.now ≡ true }
    ensures same_loans { SameLoans lent.old lent.new }
    ensures judged { judgement_of result (held lent.new)
        ≡ judge_read_by (looked_at by.now.looked) by.now.local (edges_of by.now.edges.now) (state_of (held lent.old) sizes) (step_of step) }
{
    let Some(read) = monitor_state::read_step(step) else {
        return monitor_state::refused(Reason::NoStep, sizes);
    };
    match read {
        Step::Event {
            action,
            resource: r,
        } => judge_event(by, lent, sizes, action, r),
        Step::Opening { policy: p } => crate::sandboxes::judge_opening(by, lent, sizes, p),
        Step::Closing { policy: p } => crate::sandboxes::leave(by, lent, sizes, p),
        Step::Retiring { resource: r } => crate::retiring::judge_retiring(by, lent, sizes, r),
    }
}

// One step, judged by the policies of a set alone, over a state whose arrays are lent: they then hold those of the state that is returned.
// The numbers that the calling program hands over come first, then the halted state, then the step. A slice of another length than that of
// the sets of pairs is 42.
// Kept: the arrays stand one by one, here and in `judge_lent`: the C interface needs it, which lends each by a pointer of its own.
pub fn judge_looked(
    looked: u8,
    edges: &[u8],
    local: bool,
    sets: &mut [u8; SETS],
    pairs: &mut [u8],
    possible: &mut [u8; POLICIES],
    created: &mut [u32; MOST_CREATED],
    unclosed: &mut [u8; POLICIES],
    order: &mut [u8; MOST_UNCLOSED],
    sizes: Sizes,
    step: RawStep,
) -> Told<Reason>
    ensures order_after { judgement_of result
        (lent_of sets.new pairs.new possible.new created.new
        unclosed.new order.new)
        ≡ judge_sized (looked_at looked) edges.now local
        (state_of (lent_of sets.old pairs.old possible.old created.old
        unclosed.old order.old) sizes)
        step }
    ensures pairs_len_unchanged { length pairs.new ≡ length pairs.old }
{
    if pairs.len() != PAIR_SETS {
        return monitor_state::refused(Reason::State, sizes);
    }
    let Some(paired) = sheet_fields::edges::edge_table(edges) else {
        return monitor_state::refused(Reason::Table, sizes);
    };
    if !monitor_sets::created::live_ok(created, sizes.count, sizes.highest) {
        return monitor_state::refused(Reason::State, sizes);
    }
    if !monitor_sets::order::order_ok(order, sizes.depth, unclosed) {
        return monitor_state::refused(Reason::State, sizes);
    }
    if sizes.halted {
        return monitor_state::refused(Reason::Halted, sizes);
    }
    let by = Rules {
        looked,
        edges,
        which: monitor_pairs::which::lowest_two(paired),
        local,
    };
    let mut lent = Lent {
        sets,
        pairs,
        possible,
        created,
        unclosed,
        order,
    };
    judge_read(&by, &mut lent, sizes, step)
}

// The same by all policies, over arrays alone.
pub fn judge_lent(
    edges: &[u8],
    local: bool,
    sets: &mut [u8; SETS],
    pairs: &mut [u8; PAIR_SETS],
    possible: &mut [u8; POLICIES],
    created: &mut [u32; MOST_CREATED],
    unclosed: &mut [u8; POLICIES],
    order: &mut [u8; MOST_UNCLOSED],
    sizes: Sizes,
    step: RawStep,
) -> Told<Reason>
    ensures { judgement_of result
        (lent_of sets.new pairs.new possible.new created.new
        unclosed.new order.new)
        ≡ judge_of edges.now local
        (state_of (lent_of sets.old pairs.old possible.old created.old
        unclosed.old order.old) sizes)
        step }
{
    judge_looked(
        ALL_POLICIES,
        edges,
        local,
        sets,
        pairs,
        possible,
        created,
        unclosed,
        order,
        sizes,
        step,
    )
}

// One step. `local` says which past counts, and goes with the edges. From every state at all the judge answers as its definition says;
// from a state that stands for a past, as the past says.
pub fn judge(edges: &[u8], local: bool, s: State, step: RawStep) -> Judgement
    ensures value { result ≡ judge_of edges.now local s step }
    ensures keeps { Keeps edges.now local s step result }
{
    let State {
        mut tracked,
        mut created,
        mut unclosed,
        halted,
    } = s;
    let sizes = Sizes {
        count: created.count,
        highest: created.highest,
        depth: unclosed.depth,
        halted,
    };
    let t = judge_lent(
        edges,
        local,
        &mut tracked.sets,
        &mut tracked.pairs,
        &mut tracked.possible,
        &mut created.numbers,
        &mut unclosed.counts,
        &mut unclosed.order,
        sizes,
        step,
    );
    let left = t.sizes;
    created.count = left.count;
    created.highest = left.highest;
    unclosed.depth = left.depth;
    let state = State {
        tracked,
        created,
        unclosed,
        halted: left.halted,
    };
    Judgement {
        answer: t.answer,
        state,
    }
}
