// Sets of states as bit masks, and how a set is moved: the leaf functions that both the judge and the check call.
#![tactic(auto)]

ghost use Rattle.std.specs.Prelude.{◌/◌, ◌%◌, ◌<◌, ◌≡◌, cond, eqb};
ghost use Rattle.automaton.specs.Move.{move_by};
ghost use Rattle.automaton.specs.Code.{stays_by, rows_in, move_by_policy};

use usage::{POLICIES, STATES};

pub mod moves;
pub mod pairs;

// The places of a table of rows: one for each state of each policy.
pub const ROWS: usize = POLICIES * STATES;

// The row of a state, where the state is in the set x; m is the state's bit.
fn pick(x: u8, m: u8, row: u8) -> u8
    requires { 0 < m }
    ensures { result ≡ cond (eqb (x / m % 2) 1) row 0 }
{
    if x / m % 2 == 1 { row } else { 0 }
}

// The union of the rows of the states in x. The rows are passed by value, so that a loop holds them and moves several sets at once.
pub fn move_by_rows(x: u8, rows: [u8; STATES]) -> u8
    ensures { result ≡ move_by rows 0 x }
{
    pick(x, 1, rows[0])
        | pick(x, 2, rows[1])
        | pick(x, 4, rows[2])
        | pick(x, 8, rows[3])
        | pick(x, 16, rows[4])
        | pick(x, 32, rows[5])
        | pick(x, 64, rows[6])
        | pick(x, 128, rows[7])
}

// Do a policy's rows leave every state where it is? Most events move few policies, and the test costs less than moving.
pub fn stays(rows: [u8; STATES]) -> bool
    ensures { result ≡ stays_by rows }
{
    (rows[0] ^ 1)
        | (rows[1] ^ 2)
        | (rows[2] ^ 4)
        | (rows[3] ^ 8)
        | (rows[4] ^ 16)
        | (rows[5] ^ 32)
        | (rows[6] ^ 64)
        | (rows[7] ^ 128)
        == 0
}

// The rows of a policy. There is no other policy than the eight: by other rows every state stays.
pub fn policy_rows(rows: &[u8; ROWS], policy: usize) -> [u8; STATES]
    ensures { result ≡ rows_in rows.now policy }
{
    if POLICIES <= policy {
        return [1, 2, 4, 8, 16, 32, 64, 128];
    }
    let k = policy * STATES;
    [
        rows[k],
        rows[k + 1],
        rows[k + 2],
        rows[k + 3],
        rows[k + 4],
        rows[k + 5],
        rows[k + 6],
        rows[k + 7],
    ]
}

// The set x moved by the rows of a policy.
pub fn move_set(rows: &[u8; ROWS], policy: usize, x: u8) -> u8
    ensures { result ≡ move_by_policy rows.now policy x }
{
    let held = policy_rows(rows, policy);
    if stays(held) {
        return x;
    }
    move_by_rows(x, held)
}
