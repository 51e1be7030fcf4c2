// Edges tested eight at a time and without a branch, so that one instruction compares sixteen bytes: a block is three times that.
ghost use Rattle.std.specs.Prelude.{◌≡◌, ◌+◌, ◌*◌, ◌-◌, ◌≤◌, ◌<◌, length};
ghost use Rattle.sheet_fields.specs.Code.{tested_in, block_edges, block_bytes, faults};

use usage::EDGE_FIELDS;

// The edges of a block, and its bytes.
pub(crate) const BLOCK_EDGES: usize = 8;

const BLOCK_BYTES: usize = BLOCK_EDGES * EDGE_FIELDS;

// The highest number of each field: policy, from, action, on (3 is left to the test edge by edge), who, to.
const MOST: [u8; BLOCK_BYTES] = [
    7, 7, 31, 2, 15, 7, 7, 7, 31, 2, 15, 7, 7, 7, 31, 2, 15, 7, 7, 7, 31, 2, 15, 7, 7, 7, 31, 2,
    15, 7, 7, 7, 31, 2, 15, 7, 7, 7, 31, 2, 15, 7, 7, 7, 31, 2, 15, 7,
];

// All bits at `on`, one of which and `who` is 0 (""who" is 0 when "on" is 1 or 2").
const PAIRED: [u8; BLOCK_BYTES] = [
    0, 0, 0, 255, 0, 0, 0, 0, 0, 255, 0, 0, 0, 0, 0, 255, 0, 0, 0, 0, 0, 255, 0, 0, 0, 0, 0, 255,
    0, 0, 0, 0, 0, 255, 0, 0, 0, 0, 0, 255, 0, 0, 0, 0, 0, 255, 0, 0,
];

// What is out of range in the block from place k on: 0 where nothing is. One byte beyond the block is read.
fn block_faults(edges: &[u8], k: usize, most: &[u8; BLOCK_BYTES], paired: &[u8; BLOCK_BYTES]) -> u8
    requires { k + block_bytes < length edges.now }
    ensures { result ≡ faults edges.now k most.now paired.now block_bytes }
{
    let mut bad: u8 = 0;
    for j in 0..BLOCK_BYTES {
        let x = edges[k + j];
        let y = edges[k + j + 1];
        let over = x.saturating_sub(most[j]);
        let both = x.min(y);
        bad |= over | (both & paired[j]);
    }
    bad
}

// The edges of the first n blocks. One byte beyond them is read. A block with a fault is tested edge by edge: it may be that an
// edge is on 3.
pub(crate) fn blocks_tested(edges: &[u8], n: usize) -> Option<u8>
    requires { block_bytes * n ≤ length edges.now - 1 }
    ensures { result ≡ tested_in edges.now (block_edges * n) }
{
    let most = MOST;
    let paired = PAIRED;
    let mut pairs: u8 = 0;
    for i in 0..n {
        if block_faults(edges, BLOCK_BYTES * i, &most, &paired) != 0 {
            pairs = crate::edges::more_tested(
                pairs,
                edges,
                BLOCK_EDGES * i,
                BLOCK_EDGES * (i + 1),
            )?;
        }
    }
    Some(pairs)
}
