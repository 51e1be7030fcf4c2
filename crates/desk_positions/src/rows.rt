// A row, which is a stack of parts, and a table of rows.
ghost use Rattle.std.specs.Prelude.{◌≡◌, ◌+◌, ◌*◌, ◌<◌, ◌≤◌, length, set};
ghost use Rattle.desk_positions.specs.Closure.{member};
ghost use Rattle.usage.specs.Limits.{most_names};
ghost use Rattle.desk_positions.specs.Positions.{most_positions, most_parts, same_meanings};
ghost use Rattle.desk_positions.specs.Bytes.{word_at, Put};
ghost use Rattle.desk_positions.specs.Rows.{row_width, row_bytes, base, pushed, popped, row_in, rows_in, RowRoom, Adds};

use crate::{CELL, MOST_PARTS, MOST_POSITIONS, PART, ROW, ROW_BYTES, Row};

// A row that has a part on top, and how many are below it.
#[derive(Clone, Copy)]
pub(crate) struct Top {
    pub row: Row,
    pub below: usize,
    pub ghost inside: { below < most_parts },
}

impl Top {
    // The top taken away.
    pub(crate) fn pop(self) -> Row
        ensures { result.cells ≡ popped self.row.cells self.below }
    {
        let mut r = self.row;
        let i = 1 + PART * self.below;
        r.cells[i] = 0;
        r.cells[i + 1] = 0;
        r.cells[i + 2] = 0;
        r.cells[i + 3] = 0;
        r.cells[i + 4] = 0;
        r.cells[0] = self.below as u32;
        r
    }

    // Another node on top, with the same meanings.
    pub(crate) fn replace(self, code: u32) -> Row
        ensures { result.cells ≡ set self.row.cells (base self.below) code }
    {
        let mut r = self.row;
        let i = 1 + PART * self.below;
        r.cells[i] = code;
        r
    }

    // What name n of the top means.
    pub(crate) fn rename(self, name: usize, res: u32) -> Row
        requires { name < most_names }
        ensures { result.cells ≡ set self.row.cells (base self.below + (name + 1)) res }
    {
        let mut r = self.row;
        let i = 1 + PART * self.below;
        r.cells[i + (name + 1)] = res;
        r
    }
}

// A part on top of a stack of so many.
pub(crate) fn push(mut r: Row, depth: usize, code: u32, a: u32, b: u32, c: u32, d: u32) -> Row
    requires { depth < most_parts }
    ensures { result.cells ≡ pushed r.cells depth code a b c d }
{
    let i = 1 + PART * depth;
    r.cells[i] = code;
    r.cells[i + 1] = a;
    r.cells[i + 2] = b;
    r.cells[i + 3] = c;
    r.cells[i + 4] = d;
    r.cells[0] = depth as u32 + 1;
    r
}

// Row i of the table.
pub(crate) fn load(t: &[u8], i: usize) -> Row
    requires { row_bytes * i + row_bytes ≤ length t.now }
    ensures { result.cells ≡ row_in t.now i }
{
    let mut cells = [0u32; ROW];
    let place = ROW_BYTES * i;
    for j in 0..ROW {
        cells[j] = crate::bytes::word(t, place + CELL * j);
    }
    Row { cells }
}

// Is row i of the table this one? Number `top` of the rows is asked first.
pub(crate) fn same(t: &[u8], i: usize, r: &[u32; ROW], top: usize) -> bool
    requires row_bytes_in_bounds { row_bytes * i + row_bytes ≤ length t.now }
    requires top_lt_row_width { top < row_width }
    ensures { result ≡ same_meanings r.now (row_in t.now i) }
{
    let place = ROW_BYTES * i;
    if r[top] != crate::bytes::word(t, place + CELL * top) {
        return false;
    }
    for j in 0..ROW {
        if r[j] != crate::bytes::word(t, place + CELL * j) {
            return false;
        }
    }
    true
}

// A row written to place i of the table.
pub(crate) fn store(t: &mut [u8], i: usize, r: &[u32; ROW])
    requires { row_bytes * i + row_bytes ≤ length t.old }
    ensures { Put word_at 4 t.old (row_bytes * i) row_width r.now t.new }
{
    let place = ROW_BYTES * i;
    for j in 0..ROW {
        crate::bytes::put_word(t, place + CELL * j, r[j]);
    }
}

// Where the node or closing of a row's top stands: rows that differ mostly do so there.
fn top_of(depth: u32) -> usize
    ensures { result < row_width }
{
    if depth == 0 {
        return 0;
    }
    if (MOST_PARTS as u32) < depth {
        return 0;
    }
    1 + PART * (depth as usize - 1)
}

// Is one of the first n rows this one?
fn find(t: &[u8], n: usize, r: &[u32; ROW]) -> bool
    requires { row_bytes * n ≤ length t.now }
    ensures { result ≡ member same_meanings r.now (rows_in t.now n) }
{
    let top = top_of(r[0]);
    for i in 0..n {
        if same(t, i, r, top) {
            return true;
        }
    }
    false
}

// A row is added, unless it is there.
pub(crate) fn add(t: &mut [u8], n: usize, r: Row) -> usize
    requires n_le_most_positions { n ≤ most_positions }
    requires row_room { RowRoom n t.old }
    ensures { Adds t.old n r.cells result t.new }
{
    let cells = r.cells;
    if find(t, n, &cells) {
        return n;
    }
    if MOST_POSITIONS <= n {
        return MOST_POSITIONS + 1;
    }
    store(t, n, &cells);
    n + 1
}
