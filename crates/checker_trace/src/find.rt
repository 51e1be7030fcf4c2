// Where to go on from an entry: a node that its node leads to with no step, and a rule there that gives its length from entries of
// fewer steps.
ghost use Rattle.std.specs.Prelude.{◌≡◌, ◌/◌, ◌≤◌, length};
ghost use Rattle.usage.specs.Limits.{most_nodes, node_fields};
ghost use Rattle.outline_nodes.specs.Said.{said_by};
ghost use Rattle.checker_trace.specs.Code.{idle_in, idle_after_lem, bit_of, bit_if_lem, sequence_leads};
ghost use Rattle.checker_trace.specs.Code.{leads_from, spread_to, Closure, RuleIs, OntoIs};

use crate::{Onto, Tables};
use checker_lengths::{BROKEN, Entry, Lengths, entries, offers};
use outline_nodes::NodeForm;
use usage::{MOST_NODES, NODE_FIELDS, STATES};

// Can node k end with no step, from the entry's start?
fn idle(t: &Lengths, e: Entry, k: u8) -> bool
    ensures { result ≡ idle_in t.now e k }
{
    let same = Entry {
        node: k as usize,
        aim: offers::low_end(e.meaning) + e.state % STATES,
        ..e
    };
    entries::get(t, 1, same) == 0
}

// Can node k end with no step, from where the entry's node is to end?
fn idle_after(t: &Lengths, e: Entry, k: u8) -> bool
    ensures { result ≡ idle_after_lem t.now e k }
{
    entries::get(t, 1, offers::second(e, k, e.aim)) == 0
}

// The set of one node.
fn bit(k: usize) -> u64
    ensures { result ≡ bit_of k }
{
    if k < MOST_NODES {
        1u64 << (k as u32)
    } else {
        0
    }
}

// It, or no node.
fn bit_if(b: bool, k: u8) -> u64
    ensures { result ≡ bit_if_lem b k }
{
    if b { bit(k as usize) } else { 0 }
}

// The nodes of a sequence that it leads to: the first, where nothing but an idle node is left after it, and the second after an idle one.
#[tactic(auto, unfolding(crate::specs::Code::sequence_leads))]
fn sequence(t: &Lengths, e: Entry, a: u8, b: u8) -> u64
    ensures { result ≡ sequence_leads t.now e a b }
{
    bit_if(e.aim == BROKEN || idle_after(t, e, b), a) | bit_if(idle(t, e, a), b)
}

// The nodes that node f leads to with no step.
fn leads(t: &Lengths, e: Entry, f: NodeForm) -> u64
    ensures { result ≡ leads_from t.now e (said_by f) }
{
    match f {
        NodeForm::Sequence { first, second } => sequence(t, e, first, second),
        NodeForm::Choice { one, other } => bit(one as usize) | bit(other as usize),
        NodeForm::Loop { body } => bit(body as usize),
        NodeForm::Back { to } => bit(to as usize),
        _ => 0,
    }
}

// The set with all that its nodes lead to.
fn spread(t: &Lengths, nodes: &[u8], e: Entry, s: u64) -> u64
    requires { length nodes.now / node_fields ≤ most_nodes }
    ensures { result ≡ spread_to t.now nodes.now e (length nodes.now / node_fields) s }
{
    let mut r = s;
    for k in 0..nodes.len() / NODE_FIELDS {
        if offers::has(r, k) {
            if let Some(f) = outline_nodes::form(nodes, k) {
                r |= leads(t, e, f);
            }
        }
    }
    r
}

// All nodes that the entry's node leads to.
fn closure(t: &Lengths, nodes: &[u8], e: Entry) -> u64
    requires { length nodes.now / node_fields ≤ most_nodes }
    ensures { Closure t.now nodes.now e result }
{
    let mut s = bit(e.node);
    loop {
        let r = spread(t, nodes, e, s);
        if r == s {
            return s;
        }
        s = r;
    }
}

// The first rule of node f that gives n.
fn rule(x: &Tables, f: NodeForm, e: Entry, n: u8) -> Option<usize>
    ensures { RuleIs x.now.watch x.now.rows.now x.now.lengths.now (said_by f) e n result }
{
    for c in 0..offers::ways(f) {
        if offers::offer(x.lengths, x.rows, x.watch, n, f, e, c) == n {
            return Some(c);
        }
    }
    None
}

// Where to go on from an entry of n steps.
#[inline(never)] // its work takes no room on the stack of the writer, which calls itself
pub(crate) fn find(x: &Tables, e: Entry, n: u8) -> Option<Onto>
    requires { length x.now.nodes.now / node_fields ≤ most_nodes }
    ensures { OntoIs x.now.watch x.now.rows.now x.now.nodes.now x.now.lengths.now e n result }
{
    let s = closure(x.lengths, x.nodes, e);
    for k in 0..x.nodes.len() / NODE_FIELDS {
        if offers::has(s, k) {
            if let Some(f) = outline_nodes::form(x.nodes, k) {
                if let Some(c) = rule(x, f, offers::at(e, k), n) {
                    return Some(Onto { node: k, rule: c });
                }
            }
        }
    }
    None
}
