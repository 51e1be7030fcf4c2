// What the rules give for an entry by the entries that stand. Each rule of a node has a number, c: a sequence has one for each end of
// its first node, a fresh node one for each state after its creation, and so on. Kept: they are numbers because `offer_of` (specs/Offers)
// has them so; an enum would have as many cases.
ghost use Rattle.std.specs.Prelude.{◌≡◌, Bool, false, ◌||◌, ℕ, ◌<◌};
ghost use Rattle.outline_nodes.specs.Said.{said_by};
ghost use Rattle.usage.specs.Past.{reopened};
ghost use Rattle.automaton.specs.Mask.{has};
ghost use Rattle.checker_lengths.specs.declared.WatchOne.{WatchOne};
ghost use Rattle.checker_lengths.specs.Entries.{no_length, all_lengths, held};
ghost use Rattle.checker_lengths.specs.Offers.{at_node, toward, low_end_lem, moved, born, ending_of, breaking, event_of, still_of};
ghost use Rattle.checker_lengths.specs.Offers.{first_entry, second_entry, body_entry, inner_entry, sequence_of, fresh_of, sandbox_of};
ghost use Rattle.checker_lengths.specs.Offers.{one_if, offer_from, ways_of};

use crate::{
    AIMS, ALL, BROKEN, Entry, FRESH_RULES, Lengths, MOST, NONE, OWN_BREAK, WatchOne, entries,
};
use checker_account::{LAYER, Table, UNNAMED};
use outline_nodes::NodeForm;
use usage::{MOST_NODES, STATES};

// The same start and aim at node k.
pub fn at(e: Entry, k: usize) -> Entry
    ensures { result ≡ at_node e k }
{
    Entry { node: k, ..e }
}

// The same start with aim i.
pub(crate) fn toward(e: Entry, i: usize) -> Entry
    ensures { result ≡ toward e i }
{
    Entry { aim: i, ..e }
}

// Where the ends begin that a start with this meaning can come to.
pub fn low_end(m: usize) -> usize
    ensures { result ≡ low_end_lem m }
{
    if m == 0 { 0 } else { STATES }
}

// Is j in the set v of numbers below 64?
pub fn has(v: u64, j: usize) -> bool
    ensures { result ≡ has v j }
{
    if 64 <= j {
        return false;
    }
    (v >> (j as u32)) & 1 == 1
}

// The states after the event of the entry's node, which is on the watched resource or not.
#[tactic(auto, unfolding(crate::specs::Offers::moved))]
fn moved(rows: &Table, e: Entry, own: bool) -> u16
    ensures { result ≡ moved rows.now e own }
{
    if MOST_NODES <= e.node || STATES <= e.state {
        return 0;
    }
    let layer = if own { LAYER } else { 0 };
    rows[layer + STATES * e.node + e.state]
}

// The states after a creation: none for that of the watched resource where it can no longer be created.
#[tactic(auto, unfolding(crate::specs::Offers::born))]
fn born(rows: &Table, e: Entry, own: bool) -> u16
    ensures { result ≡ born rows.now e own }
{
    if own && 0 < e.meaning {
        return 0;
    }
    moved(rows, e, own)
}

// One step, where b holds.
fn one_if(b: bool) -> u8
    ensures { result ≡ one_if b }
{
    if b { 1 } else { NONE }
}

// One step, after which the node has ended in a state of v.
#[tactic(auto, unfolding(crate::specs::Offers::ending_of))]
fn ending(v: u16, e: Entry) -> u8
    ensures { result ≡ ending_of v e }
{
    let low = low_end(e.meaning);
    if e.aim < low {
        return NONE;
    }
    let j = e.aim - low;
    one_if(j < STATES && has(v as u64, j))
}

// One step that leaves the policy open in an offending state of v.
#[tactic(auto, unfolding(crate::specs::Offers::breaking))]
fn breaking(v: u16, e: Entry) -> u8
    ensures { result ≡ breaking v e }
{
    one_if(e.aim == BROKEN && e.opened && 64 <= v % 256)
}

// An event, by which the states v are moved to.
#[tactic(auto, unfolding(crate::specs::Offers::event_of))]
fn event(v: u16, e: Entry, c: usize) -> u8
    ensures { result ≡ event_of v e c }
{
    if c == 0 { ending(v, e) } else { breaking(v, e) }
}

// The end, which takes no step.
#[tactic(auto, unfolding(crate::specs::Offers::still_of))]
fn still(e: Entry) -> u8
    ensures { result ≡ still_of e }
{
    let low = low_end(e.meaning);
    if low <= e.aim && e.aim - low == e.state {
        0
    } else {
        NONE
    }
}

// ── The entries that a rule leads to ──

// The first node of a sequence, to end in way c.
pub fn first(e: Entry, a: u8, c: usize) -> Entry
    ensures { result ≡ first_entry e a c }
{
    Entry {
        node: a as usize,
        aim: c,
        ..e
    }
}

// The second, after an end in way c.
#[tactic(auto, unfolding(crate::specs::Offers::heir))]
pub fn second(e: Entry, b: u8, c: usize) -> Entry
    ensures { result ≡ second_entry e b c }
{
    let meaning = if c < STATES {
        0
    } else if e.meaning == 0 {
        UNNAMED
    } else {
        e.meaning
    };
    Entry {
        node: b as usize,
        meaning,
        state: c % STATES,
        ..e
    }
}

// The body of a fresh node for name n, after the creation of another resource or of the watched one, in state c % 8.
pub fn body(e: Entry, n: u8, b: u8, c: usize) -> Entry
    ensures { result ≡ body_entry e n b c }
{
    let own = n as usize + 1;
    let meaning = if STATES <= c {
        own
    } else {
        checker_tables::lose(e.meaning, own)
    };
    Entry {
        node: b as usize,
        meaning,
        state: c % STATES,
        ..e
    }
}

// The state after an opening of policy s.
fn reopened(w: WatchOne, s: u8, o: bool, q: usize) -> usize
    ensures { result ≡ reopened w.local w.policy s o q }
{
    if w.local && s as usize == w.policy && !o {
        0
    } else {
        q
    }
}

// The body of a sandbox of policy s.
pub fn inner(w: WatchOne, e: Entry, s: u8, b: u8) -> Entry
    ensures { result ≡ inner_entry w e s b }
{
    Entry {
        node: b as usize,
        opened: e.opened || s as usize == w.policy,
        state: reopened(w, s, e.opened, e.state),
        ..e
    }
}

// ── Rules ──

// A sequence: its first node ends in way c, and its second comes to the aim; or the first breaks the policy.
#[tactic(auto, unfolding(crate::specs::Offers::sequence_of))]
fn sequence(t: &Lengths, most: u8, e: Entry, a: u8, b: u8, c: usize) -> u8
    ensures { result ≡ sequence_of (held t.now most) e a b c }
{
    if BROKEN <= c {
        if e.aim != BROKEN {
            return NONE;
        }
        return entries::get(t, most, at(e, a as usize));
    }
    let v = entries::get(t, most, first(e, a, c));
    if MOST < v {
        return NONE;
    }
    entries::plus(v, entries::get(t, most, second(e, b, c)))
}

// A fresh node for name n: its creation leads to a state, and its body from there to the aim; or the creation breaks the policy.
#[tactic(auto, unfolding(crate::specs::Offers::fresh_of))]
fn fresh(t: &Lengths, rows: &Table, most: u8, e: Entry, n: u8, b: u8, c: usize) -> u8
    ensures { result ≡ fresh_of rows.now (held t.now most) e n b c }
{
    if BROKEN <= c {
        return breaking(born(rows, e, OWN_BREAK <= c), e);
    }
    if !has(born(rows, e, STATES <= c) as u64, c % STATES) {
        return NONE;
    }
    entries::plus(1, entries::get(t, most, body(e, n, b, c)))
}

// A sandbox of policy s: its body comes to the aim, and where it ends there is the closing; or its opening breaks the policy.
#[tactic(auto, unfolding(crate::specs::Offers::sandbox_of))]
fn sandbox(t: &Lengths, w: WatchOne, most: u8, e: Entry, s: u8, b: u8, c: usize) -> u8
    ensures { result ≡ sandbox_of w (held t.now most) e s b c }
{
    if c == 0 {
        let around = if e.aim == BROKEN { 1 } else { 2 };
        return entries::plus(around, entries::get(t, most, inner(w, e, s, b)));
    }
    let state = reopened(w, s, e.opened, e.state);
    one_if(e.aim == BROKEN && s as usize == w.policy && 6 <= state)
}

// What rule c of the entry's node gives, f being that node, by the lengths below `most`.
#[tactic(auto, unfolding(crate::specs::Offers::offer_of))]
pub fn offer(
    t: &Lengths,
    rows: &Table,
    w: WatchOne,
    most: u8,
    f: NodeForm,
    e: Entry,
    c: usize,
) -> u8
    ensures { result ≡ offer_from w rows.now (held t.now most) e c (said_by f) }
{
    match f {
        NodeForm::End => still(e),
        NodeForm::OnStatic { resource, .. } => event(
            moved(rows, e, resource as usize == w.resource),
            e,
            c,
        ),
        NodeForm::OnName { name, .. } => event(
            moved(rows, e, e.meaning == name as usize + 1),
            e,
            c,
        ),
        NodeForm::Sequence { first, second } => sequence(t, most, e, first, second, c),
        NodeForm::Choice { one, other } => entries::get(
            t,
            most,
            at(e, if c == 0 { one as usize } else { other as usize }),
        ),
        NodeForm::Loop { body } => entries::get(t, most, at(e, body as usize)),
        NodeForm::Back { to } => entries::get(t, most, at(e, to as usize)),
        NodeForm::Fresh { name, body } => fresh(t, rows, most, e, name, body, c),
        NodeForm::Sandbox { policy, body } => sandbox(t, w, most, e, policy, body, c),
    }
}

// Can rule c of node f give anything from this start, whatever the aim? It cannot where the first node of a sequence has no such end,
// or where a creation leads to no such state.
#[tactic(auto, unfolding(crate::specs::Offers::offer_of, crate::specs::Offers::sequence_of, crate::specs::Offers::fresh_of))]
pub(crate) fn gives(t: &Lengths, rows: &Table, f: NodeForm, s: Entry, c: usize) -> bool
    ensures { result ≡ false → (w : WatchOne) (i : ℕ)
        → offer_from w rows.now (held t.now all_lengths) (toward s i) c (said_by f) ≡ no_length }
{
    if BROKEN <= c {
        return true;
    }
    match f {
        NodeForm::Sequence { first: a, .. } => entries::get(t, ALL, first(s, a, c)) <= MOST,
        NodeForm::Fresh { .. } => has(born(rows, s, STATES <= c) as u64, c % STATES),
        _ => true,
    }
}

// How many rules a node of this kind has.
pub fn ways(f: NodeForm) -> usize
    ensures { result ≡ ways_of (said_by f) }
{
    match f {
        NodeForm::End | NodeForm::Loop { .. } | NodeForm::Back { .. } => 1,
        NodeForm::OnStatic { .. } | NodeForm::OnName { .. } => 2,
        NodeForm::Choice { .. } | NodeForm::Sandbox { .. } => 2,
        NodeForm::Sequence { .. } => AIMS,
        NodeForm::Fresh { .. } => FRESH_RULES,
    }
}
