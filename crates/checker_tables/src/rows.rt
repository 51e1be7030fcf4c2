// Reading the table of rows (`checker_rows`): the states that each state of a policy moves to by the event of a node.
ghost use Rattle.std.specs.Prelude.{◌≡◌, true, cond, ℕ, ◌<◌, ◌≤◌, eqb};
ghost use Rattle.std.specs.Int.Bits.{bit_or};
ghost use Rattle.usage.specs.Limits.{states, most_nodes};
ghost use Rattle.checker_account.specs.Account.{others};
ghost use Rattle.checker_account.specs.Tables.{over, row_on, way_of, first_created_lem, second_created_lem, rows_in};
ghost use Rattle.outline_nodes.specs.Said.{said_by};
ghost use Rattle.checker_tables.specs.ByState.{ByState};
ghost use Rattle.checker_tables.specs.Search.{small};

use crate::sets::PerState;
use checker_account::{LAYER, OTHERS, Resources, Table, WATCHED, WATCHED_TOO};
use outline_nodes::NodeForm;
use usage::STATES;

// The way of an event on r: on neither of the watched resources, on the first, on the second, on both.
fn way(x: Resources, r: usize) -> usize
    ensures value { result ≡ way_of (eqb r x.first) (eqb r x.second) }
    ensures upper_bound { result < 4 }
{
    match (r == x.first, r == x.second) {
        (false, false) => 0,
        (true, false) => 1,
        (false, true) => 2,
        (true, true) => 3,
    }
}

// A node that a rule is applied to: its number, what it says, and its moves in the table of rows, read for the watched resources.
#[derive(Clone, Copy)]
pub(crate) struct Site<'a> {
    pub(crate) rows: &'a Table,
    pub(crate) resources: Resources,
    pub(crate) node: usize,
    pub(crate) form: NodeForm,
    ghost node_in: { node < most_nodes },
    ghost form_small: { small (said_by form) ≡ true },
}

impl<'a> Site<'a> {
    // The states that each state moves to by the event, which is on r.
    pub(crate) fn moved_each(self, r: usize) -> PerState
        ensures { ByState states
            (row_on (rows_in self.entry.rows.now) self.entry.resources self.entry.node r) result }
    {
        let rows = self.rows;
        let w = way(self.resources, r);
        crate::sets::entries(rows, LAYER * w + STATES * self.node)
    }

    // The states that those of the set v move to.
    pub(crate) fn moved_set(self, r: usize, v: u16) -> u16
        ensures { result
            ≡ over (row_on (rows_in self.entry.rows.now) self.entry.resources self.entry.node r) v }
    {
        let rows = self.rows;
        let w = way(self.resources, r);
        crate::union_over(rows, LAYER * w + STATES * self.node, v)
    }

    // The same by the creation of the first dynamic resource, where it can still be created.
    pub(crate) fn first_created(self, c: usize, v: u16) -> u16
        ensures { result
            ≡ first_created_lem (rows_in self.entry.rows.now) self.entry.resources self.entry.node c v }
    {
        if crate::numbers::meaning(c) == 0 {
            self.moved_set(WATCHED, v)
        } else {
            0
        }
    }

    // By that of the second.
    fn second_created(self, c: usize, v: u16) -> u16
        ensures { result
            ≡ second_created_lem (rows_in self.entry.rows.now) self.entry.resources self.entry.node c v }
    {
        if crate::numbers::waits(c) {
            self.moved_set(WATCHED_TOO, v)
        } else {
            0
        }
    }

    // By any creation.
    pub(crate) fn created(self, c: usize, v: u16) -> u16
        ensures { result ≡ bit_or (bit_or
            (over (row_on (rows_in self.entry.rows.now) self.entry.resources self.entry.node others) v)
            (first_created_lem (rows_in self.entry.rows.now) self.entry.resources self.entry.node c v))
            (second_created_lem (rows_in self.entry.rows.now) self.entry.resources self.entry.node c v) }
    {
        let other = self.moved_set(OTHERS as usize, v);
        let first = self.first_created(c, v);
        let second = self.second_created(c, v);
        other | first | second
    }
}
