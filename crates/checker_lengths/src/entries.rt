// Single entries of a table of lengths.
ghost use Rattle.std.specs.Prelude.{◌≡◌};
ghost use Rattle.checker_lengths.specs.Entries.{nodes_before, in_table, Bounds, linear, held, plus};

use crate::{AIMS, Entry, Lengths, MOST, NONE, STARTS};
use checker_account::MEANINGS;
use usage::{MOST_NODES, STATES};

// Is there such an entry?
#[tactic(auto, unfolding(crate::specs::Entries::in_table))]
pub(crate) fn inside(e: Entry) -> bool
    ensures { result ≡ in_table e }
{
    e.node < MOST_NODES && e.meaning < MEANINGS && e.state < STATES && e.aim < AIMS
}

// The nodes whose entries stand before those of node 0.
fn nodes_before(opened: bool) -> usize
    ensures { result ≡ nodes_before opened }
{
    if opened { MOST_NODES } else { 0 }
}

// Its place.
pub(crate) fn place(e: Entry) -> usize
    requires { Bounds e }
    ensures { result ≡ linear e }
{
    ((nodes_before(e.opened) + e.node) * STARTS + (STATES * e.meaning + e.state)) * AIMS + e.aim
}

// The length that stands there, if it is less than `most`.
pub fn get(t: &Lengths, most: u8, e: Entry) -> u8
    ensures { result ≡ held t.now most e }
{
    if !inside(e) {
        return NONE;
    }
    let v = t[place(e)];
    if v < most { v } else { NONE }
}

// The sum of two lengths, if it counts.
pub(crate) fn plus(a: u8, b: u8) -> u8
    ensures { result ≡ plus a b }
{
    if MOST < a || MOST - a < b {
        return NONE;
    }
    a + b
}
