// Rows that a caller hands over: whether they are those of positions.
ghost use Rattle.std.specs.Prelude.{◌≡◌, true, false, ℕ, ◌+◌, ◌*◌, ◌<◌, ◌≤◌, length, get_or};
ghost use Rattle.desk_positions.specs.Positions.{most_parts};
ghost use Rattle.desk_positions.specs.Rows.{row_width, row_bytes, row_in};
ghost use Rattle.desk_positions.specs.Reading.{PartFits, ZerosFrom, row_ok};

use crate::{CELL, MOST_PARTS, PART, ROW, ROW_BYTES};
use usage::MOST_NODES;

// Number k of row i.
fn cell(t: &[u8], i: usize, k: usize) -> u32
    requires row_bytes_in_bounds { row_bytes * i + row_bytes ≤ length t.now }
    requires k_lt_row_width { k < row_width }
    ensures { result ≡ get_or (row_in t.now i) k 0 }
{
    crate::bytes::word(t, ROW_BYTES * i + CELL * k)
}

// Has part j of row i no meanings, where it is a closing?
fn part_ok(t: &[u8], i: usize, j: usize) -> bool
    requires row_bytes_in_bounds { row_bytes * i + row_bytes ≤ length t.now }
    requires j_lt_most_parts { j < most_parts }
    ensures part_fits { result ≡ true → PartFits (row_in t.now i) j }
    ensures part_misfits { result ≡ false → PartFits (row_in t.now i) j → ⊥ }
{
    let at = 1 + PART * j;
    if cell(t, i, at) < MOST_NODES as u32 {
        return true;
    }
    if cell(t, i, at + 1) != 0 {
        return false;
    }
    if cell(t, i, at + 2) != 0 {
        return false;
    }
    if cell(t, i, at + 3) != 0 {
        return false;
    }
    cell(t, i, at + 4) == 0
}

// Is it so of the first n parts?
fn parts_ok(t: &[u8], i: usize, n: usize) -> bool
    requires row_bytes_in_bounds { row_bytes * i + row_bytes ≤ length t.now }
    requires n_le_most_parts { n ≤ most_parts }
    ensures part_fits { result ≡ true → (j : ℕ) → j < n → PartFits (row_in t.now i) j }
    ensures some_misfits { result ≡ false → ((j : ℕ) → j < n → PartFits (row_in t.now i) j) → ⊥ }
{
    for j in 0..n {
        if !part_ok(t, i, j) {
            return false;
        }
    }
    true
}

// Are the numbers of row i from number n on 0?
fn zeros_from(t: &[u8], i: usize, n: usize) -> bool
    requires { row_bytes * i + row_bytes ≤ length t.now }
    ensures zeros_from { result ≡ true → ZerosFrom (row_in t.now i) n }
    ensures no_zeros { result ≡ false → ZerosFrom (row_in t.now i) n → ⊥ }
{
    for k in n..ROW {
        if cell(t, i, k) != 0 {
            return false;
        }
    }
    true
}

// Is row i that of a position? As if it were written down anew, number by number.
pub(crate) fn row_ok(t: &[u8], i: usize) -> bool
    requires { row_bytes * i + row_bytes ≤ length t.now }
    ensures { result ≡ row_ok (row_in t.now i) }
{
    let depth = cell(t, i, 0) as usize;
    if MOST_PARTS < depth {
        return false;
    }
    if !parts_ok(t, i, depth) {
        return false;
    }
    zeros_from(t, i, 1 + PART * depth)
}
