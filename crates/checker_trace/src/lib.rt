// A shortest trace that leaves a policy open and not respected, a counterexample to the outline, read from tables of least lengths.
// find: where to go on from an entry. write: the steps.
#![tactic(auto)]

ghost use Rattle.std.specs.Prelude.{◌≡◌, Bool, true, false, ℕ, ◌/◌, ◌<◌, ◌≤◌, length};
ghost use Rattle.usage.specs.Limits.{most_nodes, node_fields, most_shown};
ghost use Rattle.checker_trace.specs.Answer.{most_numbers, Told};
ghost use Rattle.checker_trace.specs.Code.{root_of, TableOf, TableIf, Sought, shorter_of, ShortestIs, Kept, Shows};

use checker_account::{NAMES, PLACES, Table, WATCHED};
use checker_lengths::{ALL, BROKEN, Entry, Lengths, MOST, NONE, SIZE, WatchOne};
use usage::{POLICIES, Reason, STATICS, STEP_FIELDS};

mod find;
mod write;

// The room of the lent table: that of 200 steps, the most that are shown.
pub const MOST_NUMBERS: usize = MOST as usize * STEP_FIELDS;

// The answer: a trace of this many steps was written; or every such trace is longer than 200 steps, also where there is none.
#[derive(Clone, Copy, PartialEq, Eq, Debug)]
pub enum Length {
    Of(u8),
    Longer,
}

// The watched resource with the least length, and that length; and whether the table is still its own.
#[derive(Clone, Copy)]
pub struct Shortest {
    pub resource: usize,
    pub length: u8,
    pub kept: bool,
}

// Where to go on: by which rule of which node. Kept: a rule is a number, since the definitions number them (`offer_of` in
// checker_lengths/specs/Offers), and a sequence has one for each end of its first node.
#[derive(Clone, Copy)]
pub struct Onto {
    pub node: usize,
    pub rule: usize,
}

// What a trace is read from: the full table of lengths, the nodes, the moves of the policy, and what is watched.
#[derive(Clone, Copy)]
struct Tables<'a> {
    lengths: &'a Lengths,
    nodes: &'a [u8],
    rows: &'a Table,
    watch: WatchOne,
}

// How many steps are written, and the number of the next fresh resource.
#[derive(Clone, Copy)]
pub struct Spot {
    pub at: usize,
    pub next: u32,
}

// The number of the resource that each name means; 0 where none is given. Kept: what a name means is asked only where it is given
// (`Agree` in specs/Code), so that an Option would be taken apart at each use and never be empty.
#[derive(Clone, Copy)]
pub struct Names {
    pub numbers: [u32; NAMES],
}

// What is to be written: the steps of an entry, how many they are, what the names mean there, and the place of the first.
#[derive(Clone, Copy)]
pub struct Part {
    pub entry: Entry,
    pub steps: u8,
    pub names: Names,
    pub spot: Spot,
}

// The rule by which a part is written: the two numbers of its node, and which of the node's rules it is.
#[derive(Clone, Copy)]
pub struct Way {
    pub a: u8,
    pub b: u8,
    pub rule: usize,
}

// The entry of the whole outline: to break the policy.
fn root(w: WatchOne) -> Entry
    ensures { result ≡ root_of w.resource }
{
    Entry {
        node: 0,
        opened: false,
        meaning: checker_tables::numbers::least(w.resources()),
        state: 0,
        aim: BROKEN,
    }
}

// The table for one watched resource, where the search hits. Does it?
fn table(nodes: &[u8], rows: &Table, w: WatchOne, t: &mut Lengths) -> bool
    ensures table_if { TableIf result w rows.now nodes.now t.new }
    ensures t_unchanged { result ≡ false → t.new ≡ t.old }
{
    let mut u = [0u16; PLACES];
    if !checker_tables::arrive(nodes, rows, w.watch(), &mut u) {
        return false;
    }
    checker_lengths::fill::fill(nodes, rows, &u, w, t);
    true
}

// The least length with one resource watched, for which the table is filled then; none where it need not be or is not hit.
fn steps(nodes: &[u8], rows: &Table, w: WatchOne, t: &mut Lengths) -> Option<u8>
    ensures { Sought w rows.now nodes.now t.old result t.new }
{
    if !checker_tables::touched(nodes, w.resource) || !table(nodes, rows, w, t) {
        return None;
    }
    Some(checker_lengths::entries::get(t, ALL, root(w)))
}

// The shorter of what was found and v steps with resource x watched, for which the table was filled since.
fn shorter(found: Option<Shortest>, x: usize, v: u8) -> Shortest
    ensures { result ≡ shorter_of found x v }
{
    match found {
        Some(s) if s.length <= v => Shortest { kept: false, ..s },
        _ => Shortest {
            resource: x,
            length: v,
            kept: true,
        },
    }
}

// The least of all watched resources; none where none is hit.
fn least(nodes: &[u8], rows: &Table, local: bool, p: usize, t: &mut Lengths) -> Option<Shortest>
    ensures shortest_is { ShortestIs local p rows.now nodes.now result }
    ensures kept { Kept local p rows.now nodes.now result t.new }
{
    let mut found: Option<Shortest> = None;
    for x in 0..=WATCHED {
        let w = WatchOne {
            local,
            policy: p,
            resource: x,
        };
        if let Some(v) = steps(nodes, rows, w, t) {
            found = Some(shorter(found, x, v));
        }
    }
    found
}

// The table for one watched resource, where it is not that already.
fn again(nodes: &[u8], rows: &Table, w: WatchOne, kept: bool, t: &mut Lengths) -> bool
    requires { kept ≡ true → TableOf w rows.now nodes.now t.old }
    ensures { TableIf result w rows.now nodes.now t.new }
{
    kept || table(nodes, rows, w, t)
}

// The trace of n steps. `kept`: the table is that of the watched resource.
fn show(
    nodes: &[u8],
    rows: &Table,
    w: WatchOne,
    n: u8,
    kept: bool,
    t: &mut Lengths,
    trace: &mut [u32],
)
    requires node_fields_len_bound { length nodes.now / node_fields ≤ most_nodes }
    requires n_le_most_shown { n ≤ most_shown }
    requires table_of { kept ≡ true → TableOf w rows.now nodes.now t.old }
    requires most_numbers_in_bounds { most_numbers ≤ length trace.old }
    ensures trace_len_unchanged { length trace.new ≡ length trace.old }
    ensures shows { Shows w rows.now nodes.now n trace.old trace.new }
{
    if !again(nodes, rows, w, kept, t) {
        return;
    }
    let names = Names {
        numbers: [0u32; NAMES],
    };
    let spot = Spot {
        at: 0,
        next: STATICS,
    };
    let whole = Part {
        entry: root(w),
        steps: n,
        names,
        spot,
    };
    let tables = Tables {
        lengths: t,
        nodes,
        rows,
        watch: w,
    };
    write::write(&tables, trace, whole);
}

// A shortest trace of the outline that leaves policy p open and not respected, written into the lent table, three numbers to a step;
// `local` is the choice of past. 40 and 41 as in document 01. It needs some 212 KB of stack: the table of lengths, 102 KB, and the
// writer's recursion, 528 bytes for each step of the trace, of which there are at most 200.
pub fn counterexample(
    edges: &[u8],
    local: bool,
    nodes: &[u8],
    p: usize,
    trace: &mut [u32],
) -> Result<Length, Reason>
    ensures { Told local edges.now nodes.now p trace.old result trace.new }
{
    if trace.len() < MOST_NUMBERS {
        return Err(Reason::Room);
    }
    if !sheet_fields::edges::edge_table_ok(edges) {
        return Err(Reason::Table);
    }
    if !sheet_rules::node_table_ok(nodes) {
        return Err(Reason::Table);
    }
    if POLICIES <= p {
        return Ok(Length::Longer);
    }
    let mut rows = [0u16; PLACES];
    checker_rows::fill(edges, nodes, p, false, &mut rows);
    let mut t = [NONE; SIZE];
    let Some(found) = least(nodes, &rows, local, p, &mut t) else {
        return Ok(Length::Longer);
    };
    let n = found.length;
    if MOST < n {
        return Ok(Length::Longer);
    }
    let w = WatchOne {
        local,
        policy: p,
        resource: found.resource,
    };
    show(nodes, &rows, w, n, found.kept, &mut t, trace);
    Ok(Length::Of(n))
}
