// A slice of records, each an edge, copied into a flat table: six bytes to an edge.
ghost use Rattle.std.specs.Prelude.{◌≡◌, ◌<◌, ◌≤◌};
ghost use Rattle.usage.specs.Limits.{most_edges};
ghost use Rattle.api_records.specs.Code.{zeros, add_of, flat_held, Flattened};

use usage::{EDGE_FIELDS, EDGE_TABLE, Edge, MOST_EDGES};

// The edges as a flat table: those of the first `count` records.
#[derive(Clone, Copy)]
pub(crate) struct Flat {
    pub(crate) bytes: [u8; EDGE_TABLE],
    pub(crate) count: usize,
}

impl Flat {
    // The part of the table that holds records.
    pub(crate) fn held(&self) -> &[u8]
        requires { self.now.count ≤ most_edges }
        ensures { result.now ≡ flat_held self.now }
    {
        &self.bytes[..EDGE_FIELDS * self.count]
    }

    // One record more: its six fields at the end of the table.
    fn add(&mut self, e: Edge)
        requires { self.old.count < most_edges }
        ensures { self.new ≡ add_of self.old e }
    {
        let n = self.count;
        let k = EDGE_FIELDS * n;
        self.bytes[k] = e.policy;
        self.bytes[k + 1] = e.from;
        self.bytes[k + 2] = e.action;
        self.bytes[k + 3] = e.on;
        self.bytes[k + 4] = e.who;
        self.bytes[k + 5] = e.to;
        self.count = n + 1;
    }
}

// No record yet.
fn empty() -> Flat
    ensures { result ≡ zeros }
{
    let bytes = [0u8; EDGE_TABLE];
    Flat { bytes, count: 0 }
}

// The table of the records; none where they are more than a sheet has.
pub(crate) fn flatten(edges: &[Edge]) -> Option<Flat>
    ensures { Flattened edges.now result }
{
    if MOST_EDGES < edges.len() {
        return None;
    }
    let mut f = empty();
    for i in 0..edges.len() {
        f.add(edges[i]);
    }
    Some(f)
}
