// The table, filled node by node until none is left. An entry only ever falls, to what a rule gives, and only entries of starts that are
// come to are looked at.
ghost use Rattle.std.specs.Prelude.{◌≡◌, true, ◌<◌, get_or};
ghost use Rattle.checker_account.specs.Tables.{meanings, place};
ghost use Rattle.checker_tables.specs.Search.{NodesFit, has_room};
ghost use Rattle.usage.specs.Limits.{most_nodes};
ghost use Rattle.outline_nodes.specs.Said.{said_by};
ghost use Rattle.automaton.specs.Mask.{has};
ghost use Rattle.checker_lengths.specs.Entries.{at_break, size, in_table};
ghost use Rattle.checker_lengths.specs.Offers.{toward};
ghost use Rattle.checker_lengths.specs.Code.{Pass, Puts, SettlesSequence};
ghost use Rattle.checker_lengths.specs.Filling.{Settled, RuleSettled, StartSettled, StatesSettled, NodeSettled, Full, FullIf};

use crate::{AIMS, ALL, BROKEN, Entry, Lengths, MOST, NONE, SIZE, WatchOne, entries, offers};
use checker_account::{Arrival, MEANINGS, Table};
use outline_nodes::NodeForm;
use usage::{MOST_NODES, NODE_FIELDS, STATES};

// By what the lengths of a node fall: the moves of the policy, what is watched, and what the node says.
#[derive(Clone, Copy)]
struct Rules<'a> {
    rows: &'a Table,
    watch: WatchOne,
    form: NodeForm,
}

// The entry set to v, if that is less. Is it? v is what some rule of its node gives.
fn put(t: &mut Lengths, e: Entry, v: u8) -> bool
    requires { in_table e ≡ true }
    ensures { Puts e v t.old t.new result }
{
    let at = entries::place(e);
    if v < t[at] {
        t[at] = v;
        true
    } else {
        false
    }
}

// The entry set to what rule c of its node gives, if that is less. Is it?
fn settle(t: &mut Lengths, r: Rules, e: Entry, c: usize) -> bool
    requires { in_table e ≡ true }
    ensures { Pass r.entry.watch r.entry.rows.now e.node (said_by r.entry.form)
        (λ u. Settled r.entry.watch r.entry.rows.now (said_by r.entry.form) u e c) t.old t.new result }
{
    let v = offers::offer(t, r.rows, r.watch, ALL, r.form, e, c);
    put(t, e, v)
}

// Every aim of one start by rule c of a sequence: what its first node takes to its end is asked once. It is another node, so that its
// length stays. Did that change the table?
fn settle_sequence(t: &mut Lengths, s: Entry, a: u8, b: u8, c: usize) -> bool
    requires s_value { in_table (toward s 0) ≡ true }
    requires c_lt_at_break { c < at_break }
    requires first_elsewhere { a ≡ s.node → ⊥ }
    ensures { SettlesSequence s a b c t.old t.new result }
{
    let v = entries::get(t, ALL, offers::first(s, a, c));
    if MOST < v {
        return false;
    }
    let from = offers::second(s, b, c);
    let mut changed = false;
    for i in offers::low_end(s.meaning)..AIMS {
        let sum = entries::plus(v, entries::get(t, ALL, offers::toward(from, i)));
        changed |= put(t, offers::toward(s, i), sum);
    }
    changed
}

// Every aim of one start by rule c. Ends before the first that is tried leave it open whether the watched resource can be created,
// which the node's start has settled. Did that change the table?
fn settle_aims(t: &mut Lengths, r: Rules, s: Entry, c: usize) -> bool
    requires { in_table (toward s 0) ≡ true }
    ensures { Pass r.entry.watch r.entry.rows.now s.node (said_by r.entry.form)
        (λ u. RuleSettled r.entry.watch r.entry.rows.now (said_by r.entry.form) u s c) t.old t.new result }
{
    if !offers::gives(t, r.rows, r.form, s, c) {
        return false;
    }
    let mut changed = false;
    for i in offers::low_end(s.meaning)..AIMS {
        changed |= settle(t, r, offers::toward(s, i), c);
    }
    changed
}

// The same, a sequence's in the shorter way.
fn settle_rule(t: &mut Lengths, r: Rules, s: Entry, c: usize) -> bool
    requires { in_table (toward s 0) ≡ true }
    ensures { Pass r.entry.watch r.entry.rows.now s.node (said_by r.entry.form)
        (λ u. RuleSettled r.entry.watch r.entry.rows.now (said_by r.entry.form) u s c) t.old t.new result }
{
    if c < BROKEN {
        if let NodeForm::Sequence { first, second } = r.form {
            if first as usize != s.node {
                return settle_sequence(t, s, first, second, c);
            }
        }
    }
    settle_aims(t, r, s, c)
}

// Every rule of one start. Did that change the table?
fn settle_start(t: &mut Lengths, r: Rules, s: Entry) -> bool
    requires { in_table (toward s 0) ≡ true }
    ensures { Pass r.entry.watch r.entry.rows.now s.node (said_by r.entry.form)
        (λ u. StartSettled r.entry.watch r.entry.rows.now (said_by r.entry.form) u s) t.old t.new result }
{
    let mut changed = false;
    for c in 0..offers::ways(r.form) {
        changed |= settle_rule(t, r, s, c);
    }
    changed
}

// The starts in which a node is come to. Did that change the table?
fn settle_states(t: &mut Lengths, r: Rules, g: Arrival) -> bool
    requires to_lt_most_nodes { g.to < most_nodes }
    requires meaning_lt_meanings { g.meaning < meanings }
    ensures { Pass r.entry.watch r.entry.rows.now g.to (said_by r.entry.form)
        (λ u. StatesSettled r.entry.watch r.entry.rows.now (said_by r.entry.form) u g.to g.opened g.meaning g.states)
        t.old t.new result }
{
    let mut changed = false;
    for q in 0..STATES {
        if offers::has(g.states as u64, q) {
            let s = Entry {
                node: g.to,
                opened: g.opened,
                meaning: g.meaning,
                state: q,
                aim: 0,
            };
            changed |= settle_start(t, r, s);
        }
    }
    changed
}

// The starts of node k with meaning m that are come to, the policy being open or not. Did that change the table?
fn settle_meaning(t: &mut Lengths, r: Rules, u: &Table, k: usize, o: bool, m: usize) -> bool
    requires k_lt_most_nodes { k < most_nodes }
    requires m_lt_meanings { m < meanings }
    ensures { Pass r.entry.watch r.entry.rows.now k (said_by r.entry.form)
        (λ x. StatesSettled r.entry.watch r.entry.rows.now (said_by r.entry.form) x k o m (get_or u.now (place k o m) 0))
        t.old t.new result }
{
    let g = Arrival {
        to: k,
        opened: o,
        meaning: m,
        states: checker_tables::arrivals::come_to(u, k, o, m),
    };
    settle_states(t, r, g)
}

// Every start of node k that is come to, with a meaning from l on. Did that change the table?
fn settle_node(t: &mut Lengths, r: Rules, u: &Table, l: usize, k: usize) -> bool
    requires l_lt_meanings { l < meanings }
    requires k_lt_most_nodes { k < most_nodes }
    ensures { Pass r.entry.watch r.entry.rows.now k (said_by r.entry.form)
        (λ x. NodeSettled r.entry.watch r.entry.rows.now (said_by r.entry.form) u.now x l k) t.old t.new result }
{
    let mut changed = false;
    for m in l..MEANINGS {
        changed |= settle_meaning(t, r, u, k, false, m);
        changed |= settle_meaning(t, r, u, k, true, m);
    }
    changed
}

// The next of the nodes that are left, after node k: the highest below k or, where there is none, the highest.
fn next(left: u64, k: usize) -> usize
    requires left_nonzero { 0 < left }
    requires k_lt_most_nodes { k < most_nodes }
    ensures { has left result ≡ true }
{
    let below = left % (1u64 << (k as u32));
    if below == 0 {
        checker_tables::work::highest(left)
    } else {
        checker_tables::work::highest(below)
    }
}

// The table, where there is room for the nodes. Where settling a node changes something, the nodes
// that read it are left again. They are gone through from the highest to the lowest, since a child has a greater number than its parent,
// and one that is left again above the current one waits for the next round: else each change around a loop would settle the whole loop
// anew.
fn settle_all(nodes: &[u8], rows: &Table, u: &Table, w: WatchOne, t: &mut Lengths)
    requires { NodesFit nodes.now }
    ensures { Full w rows.now nodes.now u.now t.new }
{
    *t = [NONE; SIZE];
    let l = checker_tables::numbers::least(w.resources());
    let n = nodes.len() / NODE_FIELDS;
    let mut readers = [0u64; MOST_NODES];
    checker_tables::work::readers(nodes, &mut readers);
    let mut left = checker_tables::work::all(n);
    let mut k: usize = 0;
    while left != 0 {
        k = next(left, k);
        left -= 1u64 << (k as u32);
        if let Some(form) = outline_nodes::form(nodes, k) {
            let r = Rules {
                rows,
                watch: w,
                form,
            };
            if settle_node(t, r, u, l, k) {
                left |= readers[k];
            }
        }
    }
}

// The table, for the moves of the watched policy; u is the table of what is come to. It has no length where there is no room for the
// nodes.
pub fn fill(nodes: &[u8], rows: &Table, u: &Table, w: WatchOne, t: &mut Lengths)
    ensures { FullIf (has_room nodes.now) w rows.now nodes.now u.now t.new }
{
    if !checker_tables::fits(nodes) {
        *t = [NONE; SIZE];
        return;
    }
    settle_all(nodes, rows, u, w, t);
}
