// The positions of an outline (02, L14): all the different lists of parts that runs with the steps so far can hold, as long as they are few
// and short. A position is a row of numbers, a stack whose top is the first part still to run; the positions are a table of rows.
#![tactic(auto)]

ghost use Rattle.std.specs.Prelude.{◌≡◌, List, suc, ◌≤◌, length, false};
ghost use Rattle.usage.specs.Valid.{OutlineOk};
ghost use Rattle.usage.specs.Tables.{nodes_of};
ghost use Rattle.desk_positions.specs.Positions.{most_positions, Position};
ghost use Rattle.desk_positions.specs.Positions.{stride_all, is_any, start_positions, next_positions};
ghost use Rattle.desk_positions.specs.Growth.{Tabled, Settles, NoTable, NothingWritten, step_from};
ghost use Rattle.desk_positions.specs.Moves.{step_of};
ghost use Rattle.desk_positions.specs.Rows.{table_bytes};
ghost use Rattle.desk_positions.specs.Reading.{rows_ok_lem};

mod bytes;
mod reading;
mod rows;
mod silent;
mod strides;

// ── Sizes ── as specs/Rows has them.

// The numbers of a part: its node or closing, and what each of four names means.
pub const PART: usize = 5;

pub const MOST_PARTS: usize = 16;

// The names that an outline gives, and the action of a creation.
const MOST_NAMES: usize = 4;

const CREATE: u32 = 0;

// How many parts there are, and the parts.
pub const ROW: usize = 81;

pub const MOST_POSITIONS: usize = 64;

// The bytes of a number, of a row and of a table.
const CELL: usize = 4;

const ROW_BYTES: usize = 324;

pub const ROWS: usize = 20736;

#[derive(Clone, Copy)]
pub struct Row {
    pub cells: [u32; ROW],
}

// A step as it moves positions, and its numbers: an event's action and resource, the policy of an opening or a closing, and the resource of
// a retiring.
#[derive(Clone, Copy)]
enum Move {
    Event(u32, u32),
    Opening(u32),
    Closing(u32),
    Retiring(u32),
}

// The step of a kind and two numbers.
fn move_from(kind: u32, a: u32, b: u32) -> Move
    ensures { step_of result ≡ step_from kind a b }
{
    match kind {
        0 => Move::Event(a, b),
        1 => Move::Opening(a),
        2 => Move::Closing(a),
        _ => Move::Retiring(a),
    }
}

// Does a step lead anywhere from one of the first n positions of a table? From no table, and from more rows than one has, nowhere.
pub fn leads(nodes: &[u8], t: &[u8], n: usize, kind: u32, a: u32, b: u32) -> bool
    ensures value { (ls : List Position) → OutlineOk (nodes_of nodes.now) → length t.now ≡ table_bytes
        → Tabled ls n t.now → result ≡ is_any (stride_all (nodes_of nodes.now) (step_from kind a b) ls) }
    ensures nowhere { NoTable n t.now → result ≡ false }
{
    if t.len() != ROWS {
        return false;
    }
    if MOST_POSITIONS < n {
        return false;
    }
    crate::strides::leads_from(nodes, t, n, move_from(kind, a, b))
}

// The positions after a step, from the first n of a table, in their place: how many there are then, or 65 where a limit is exceeded. No
// table, and more rows than one has, are answered with 65, and nothing is written.
pub fn next(nodes: &[u8], t: &mut [u8], n: usize, kind: u32, a: u32, b: u32) -> usize
    ensures settles { (ls : List Position) → OutlineOk (nodes_of nodes.now) → length t.old ≡ table_bytes
        → Tabled ls n t.old → Settles (next_positions (nodes_of nodes.now) (step_from kind a b) ls) result t.new }
    ensures upper_bound { result ≤ suc most_positions }
    ensures nothing_written { NoTable n t.old → NothingWritten result t.old t.new }
{
    if t.len() != ROWS {
        return MOST_POSITIONS + 1;
    }
    if MOST_POSITIONS < n {
        return MOST_POSITIONS + 1;
    }
    let m = crate::strides::collect(nodes, t, n, move_from(kind, a, b));
    if MOST_POSITIONS < m {
        return m;
    }
    crate::silent::spread(nodes, t, m)
}

// The positions at the load. No table is answered with 65, and nothing is written.
pub fn start(nodes: &[u8], t: &mut [u8]) -> usize
    ensures settles { OutlineOk (nodes_of nodes.now) → length t.old ≡ table_bytes
        → Settles (start_positions (nodes_of nodes.now)) result t.new }
    ensures upper_bound { result ≤ suc most_positions }
    ensures nothing_written { NoTable 0 t.old → NothingWritten result t.old t.new }
{
    if t.len() != ROWS {
        return MOST_POSITIONS + 1;
    }
    let cells = [0u32; ROW];
    let r = crate::rows::push(Row { cells }, 0, 0, 0, 0, 0, 0);
    let first = r.cells;
    crate::rows::store(t, 0, &first);
    crate::silent::spread(nodes, t, 1)
}

// Are the first n rows those of positions? No table has any, and no table has more rows than 64.
pub fn rows_ok(t: &[u8], n: usize) -> bool
    ensures value { length t.now ≡ table_bytes → n ≤ most_positions → result ≡ rows_ok_lem t.now n }
    ensures no_table { NoTable n t.now → result ≡ false }
{
    if t.len() != ROWS {
        return false;
    }
    if MOST_POSITIONS < n {
        return false;
    }
    for i in (0..n).rev() {
        if !crate::reading::row_ok(t, i) {
            return false;
        }
    }
    true
}
