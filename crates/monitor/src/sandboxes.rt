// Openings and closings of sandboxes: the counts, the order, and under a local sheet the sets that an opening puts back.
ghost use Rattle.std.specs.Prelude.{ℕ, ◌<◌, ◌≤◌, ◌≡◌, List, Bool, true, false, ◌&&◌, cond, eqb, length, get_or, set};
ghost use Rattle.usage.specs.Limits.{policies, most_created, most_unclosed};
ghost use Rattle.usage.specs.Past.{opening, closing};
ghost use Rattle.monitor_sets.specs.Instances.{instances};
ghost use Rattle.monitor_sets.specs.Sets.{start_set, reset_sets};
ghost use Rattle.monitor_sets.specs.Code.{broken_in};
ghost use Rattle.monitor_sets.specs.Order.{order_ok_lem};
ghost use Rattle.monitor_pairs.specs.Pairs.{reset_pairs};
ghost use Rattle.monitor_pairs.specs.Blocks.{pairs_of, each_block};
ghost use Rattle.monitor_state.specs.Judge.{pair_sets};
ghost use Rattle.monitor_state.specs.Code.{one_more, state_of, judgement_of};
ghost use Rattle.monitor.specs.Loans.{held, SameLoans, stepped_by};

use crate::lent::{Lent, Rules};
use monitor_pairs::which::Blocks;
use monitor_sets::{FIRST_CREATED, SETS, START_SET};
use monitor_state::{Sizes, Told};
use usage::{MOST_UNCLOSED, POLICIES, Reason};

// Policy p has n openings that are not closed. Which open policies are then not respected? Where one is not, the count stays as it was.
fn recount(
    looked: u8,
    possible: &[u8; POLICIES],
    unclosed: &mut [u8; POLICIES],
    p: usize,
    n: u8,
) -> u8
    requires { p < policies }
    ensures value { result ≡ broken_in looked possible.now (set unclosed.old p n) }
    ensures unclosed_after { unclosed.new ≡ cond (eqb result 0) (set unclosed.old p n) unclosed.old }
{
    let mut after = *unclosed;
    after[p] = n;
    let bad = monitor_sets::instances::broken_set(looked, possible, &after);
    if bad == 0 {
        *unclosed = after;
    }
    bad
}

// An opening of p, its place in the order too. Which open policies are then not respected? Where one is not, all stays as it was.
fn enter(
    looked: u8,
    possible: &[u8; POLICIES],
    unclosed: &mut [u8; POLICIES],
    order: &mut [u8; MOST_UNCLOSED],
    depth: usize,
    p: usize,
) -> u8
    requires p_lt_policies { p < policies }
    requires unclosed_value { order_ok_lem depth order.old unclosed.old ≡ true }
    requires depth_lt_most_unclosed { depth < most_unclosed }
    ensures value { result ≡ broken_in looked possible.now (one_more unclosed.old p) }
    ensures unclosed_after { unclosed.new ≡ cond (eqb result 0) (one_more unclosed.old p) unclosed.old }
    ensures order_after { order.new ≡ cond (eqb result 0) (set order.old depth p) order.old }
{
    let n = unclosed[p];
    let broken = recount(looked, possible, unclosed, p, n + 1);
    if broken == 0 {
        order[depth] = p as u8;
    }
    broken
}

// The same, where it puts the instances of p back to state 0: the first n, and what is kept of p.
// Kept: the arrays stand one by one: so the types say which of them such an opening leaves alone.
fn enter_anew(
    looked: u8,
    sets: &mut [u8; SETS],
    possible: &mut [u8; POLICIES],
    unclosed: &mut [u8; POLICIES],
    order: &mut [u8; MOST_UNCLOSED],
    n: usize,
    depth: usize,
    p: usize,
) -> u8
    requires p_lt_policies { p < policies }
    requires unclosed_value { order_ok_lem depth order.old unclosed.old ≡ true }
    requires depth_lt_most_unclosed { depth < most_unclosed }
    requires n_le_instances { n ≤ instances }
    ensures value { result ≡ broken_in looked (set possible.old p start_set) (one_more unclosed.old p) }
    ensures sets_after { sets.new ≡ cond (eqb result 0) (reset_sets n p sets.old) sets.old }
    ensures possible_after { possible.new ≡ cond (eqb result 0) (set possible.old p start_set) possible.old }
    ensures unclosed_after { unclosed.new ≡ cond (eqb result 0) (one_more unclosed.old p) unclosed.old }
    ensures order_after { order.new ≡ cond (eqb result 0) (set order.old depth p) order.old }
{
    let mut after = *possible;
    after[p] = START_SET;
    let broken = enter(looked, &after, unclosed, order, depth, p);
    if broken != 0 {
        return broken;
    }
    *possible = after;
    monitor_sets::instances::reset(sets, n, p);
    0
}

// So those of two resources, where nothing is broken.
fn put_back(pairs: &mut [u8], which: Blocks, n: usize, p: usize, violated: u8)
    requires pairs_len { length pairs.old ≡ pair_sets }
    requires n_le_instances { n ≤ instances }
    requires p_lt_policies { p < policies }
    ensures { pairs.new
        ≡ cond (eqb violated 0) (each_block which (λ q sets. cond (eqb q p) (reset_pairs n sets) sets) pairs.old)
        pairs.old }
{
    if violated != 0 {
        return;
    }
    monitor_pairs::blocks::reset(pairs, which, n, p as u32);
}

// "At an opening of a policy that is not open, all its instances go back to state 0", where the sheet is local.
fn is_anew(local: bool, unclosed: &[u8; POLICIES], p: usize) -> bool
    requires { p < policies }
    ensures { result ≡ (local && eqb (get_or unclosed.now p 0) 0) }
{
    local && unclosed[p] == 0
}

// An opening creates nothing and moves no state but those that it puts back.
pub(crate) fn judge_opening(by: &Rules, lent: &mut Lent, sizes: Sizes, p: usize) -> Told<Reason>
    requires p_lt_policies { p < policies }
    requires count_le_most_created { sizes.count ≤ most_created }
    requires unclosed_value { order_ok_lem sizes.depth lent.old.order.now lent.old.unclosed.now ≡ true }
    ensures same_loans { SameLoans lent.old lent.new }
    ensures judged { judgement_of result (held lent.new) ≡ stepped_by by.now (state_of (held lent.old) sizes) (opening p) }
{
    let depth = sizes.depth;
    if MOST_UNCLOSED <= depth {
        return monitor_state::refused(Reason::TooManyOpen, sizes);
    }
    let after = Sizes {
        depth: depth + 1,
        ..sizes
    };
    if is_anew(by.local, lent.unclosed, p) {
        let n = FIRST_CREATED + sizes.count;
        let broken = enter_anew(
            by.looked,
            lent.sets,
            lent.possible,
            lent.unclosed,
            lent.order,
            n,
            depth,
            p,
        );
        put_back(lent.pairs, by.which, n, p, broken);
        return monitor_state::settled(broken, sizes, after);
    }
    let broken = enter(
        by.looked,
        lent.possible,
        lent.unclosed,
        lent.order,
        depth,
        p,
    );
    monitor_state::settled(broken, sizes, after)
}

// A closing puts nothing back.
pub(crate) fn leave(by: &Rules, lent: &mut Lent, sizes: Sizes, p: usize) -> Told<Reason>
    requires p_lt_policies { p < policies }
    requires unclosed_value { order_ok_lem sizes.depth lent.old.order.now lent.old.unclosed.now ≡ true }
    ensures same_loans { SameLoans lent.old lent.new }
    ensures judged { judgement_of result (held lent.new) ≡ stepped_by by.now (state_of (held lent.old) sizes) (closing p) }
{
    let depth = sizes.depth;
    let n = lent.unclosed[p];
    if n == 0 {
        return monitor_state::refused(Reason::NotOpen, sizes);
    }
    if usize::from(lent.order[depth - 1]) != p {
        return monitor_state::refused(Reason::NotNewest, sizes);
    }
    let bad = recount(by.looked, lent.possible, lent.unclosed, p, n - 1);
    let left = depth - 1;
    let after = Sizes {
        depth: left,
        ..sizes
    };
    monitor_state::settled(bad, sizes, after)
}
