// The ranges of a line's fields (refusal 3).
#![tactic(auto)]

ghost use Rattle.std.specs.Prelude.{◌≡◌, true, false, ◌&&◌, eqb, length};
ghost use Rattle.std.proofs.Math.ListN.{get_elem?};
ghost use Rattle.usage.specs.Limits.{edge_fields, step_fields};
ghost use Rattle.usage.specs.Judge.{step_kinds};
ghost use Rattle.usage.specs.Outline.{node_kinds};
ghost use Rattle.usage.specs.Tests.{edge_ok, node_ok};
ghost use Rattle.sheet_fields.specs.Fields.{step_ok, edge_line_lem, step_line_lem, node_line_lem, node_line_fields, line_fits_lem};
ghost use Rattle.sheet_fields.specs.Code.{spans_of, in_span, in_spans};

use usage::{ACTIONS, EDGE_FIELDS, KINDS_OF_ON, LAST_RESOURCE, STATICS, STEP_FIELDS};

mod blocks;
pub mod edges;

// How many values are on a node's line: its number, and those of the record.
pub const NODE_LINE_FIELDS: usize = usage::NODE_FIELDS + 1;

// What a field of that name may hold is below this.
const POLICIES: u32 = usage::POLICIES as u32;

const STATES: u32 = usage::STATES as u32;

const NODES: u32 = usage::MOST_NODES as u32;

// The last number of each.
const LAST_ACTION: u32 = ACTIONS - 1;

const LAST_STATIC: u32 = STATICS - 1;

const LAST_POLICY: u32 = POLICIES - 1;

const LAST_NODE: u32 = NODES - 1;

// Document 01: "name b (0 to 3)".
const LAST_NAME: u32 = 3;

// Which sheet is read; of policies also which past they see, as the names line says.
#[derive(Clone, Copy)]
pub enum Kind {
    Policies { local: bool },
    Trace,
    Outline,
}

// The values that a field may hold.
#[derive(Clone, Copy)]
struct Span {
    pub least: u32,
    pub most: u32,
}

// The ranges of the fields a and b of a kind.
#[derive(Clone, Copy)]
struct Spans {
    pub a: Span,
    pub b: Span,
}

fn within(v: u32, s: Span) -> bool
    ensures { result ≡ in_span s v }
{
    s.least <= v && v <= s.most
}

// Where there is no such kind no values fit.
fn fit(s: Option<Spans>, a: u32, b: u32) -> bool
    ensures { result ≡ in_spans s a b }
{
    let Some(s) = s else {
        return false;
    };
    within(a, s.a) && within(b, s.b)
}

// From least to most, and from low to high.
fn both(least: u32, most: u32, low: u32, high: u32) -> Option<Spans>
    ensures { result ≡ Some (record { a = record { least = least; most = most }; b = record { least = low; most = high } }) }
{
    Some(Spans {
        a: Span { least, most },
        b: Span {
            least: low,
            most: high,
        },
    })
}

// Document 01: "The kinds, with fields a and b (0 when unused)".
fn node_spans(kind: u32) -> Option<Spans>
    ensures { result ≡ spans_of (get_elem? node_kinds kind) }
{
    match kind {
        0 => both(0, 0, 0, 0),
        1 => both(1, LAST_ACTION, 0, LAST_STATIC),
        2 => both(1, LAST_ACTION, 0, LAST_NAME),
        3 => both(0, LAST_NODE, 0, LAST_NODE),
        4 => both(0, LAST_NODE, 0, LAST_NODE),
        5 => both(0, LAST_NODE, 0, 0),
        6 => both(0, LAST_NODE, 0, 0),
        7 => both(0, LAST_NAME, 0, LAST_NODE),
        8 => both(0, LAST_POLICY, 0, LAST_NODE),
        _ => None,
    }
}

// Document 01: "kind 0 event (action 0 to 31, resource ..), 1 open (policy 0 to 7, 0), 2 close (policy 0 to 7, 0)"; 02, L8: "step kind 3,
// retire (a the resource, b 0)"; L9: "a resource go to 4,294,967,295".
fn step_spans(kind: u32) -> Option<Spans>
    ensures { result ≡ spans_of (get_elem? step_kinds kind) }
{
    match kind {
        0 => both(0, LAST_ACTION, 0, LAST_RESOURCE),
        1 => both(0, LAST_POLICY, 0, 0),
        2 => both(0, LAST_POLICY, 0, 0),
        3 => both(0, LAST_RESOURCE, 0, 0),
        _ => None,
    }
}

// The numbers of a node are in the ranges of its kind, on a line or in a lent table.
pub fn node_fits(kind: u32, a: u32, b: u32) -> bool
    ensures { result ≡ node_ok (record { kind = kind; a = a; b = b }) }
{
    fit(node_spans(kind), a, b)
}

// The same of a step, on a line or handed to the judge.
pub fn step_fits(kind: u32, a: u32, b: u32) -> bool
    ensures { result ≡ step_ok (record { kind = kind; a = a; b = b }) }
{
    fit(step_spans(kind), a, b)
}

// The six numbers of an edge are in range, on a line or in a lent table.
fn edge_fits(policy: u32, from: u32, action: u32, on: u32, who: u32, to: u32) -> bool
    ensures { result ≡ edge_ok (record { policy = policy; «from» = from; action = action; on = on; who = who; to = to }) }
{
    if POLICIES <= policy {
        return false;
    }
    if STATES <= from {
        return false;
    }
    if ACTIONS <= action {
        return false;
    }
    if STATES <= to {
        return false;
    }
    if KINDS_OF_ON <= on {
        return false;
    }
    if on == 0 {
        return who < STATICS;
    }
    who == 0
}

// The values of one line are as many as its fields, each in its range.
pub fn line_fits(kind: Kind, values: &[u32]) -> bool
    ensures { result ≡ line_fits_lem kind values.now }
{
    match kind {
        Kind::Policies { local: _ } => edge_line(values),
        Kind::Trace => step_line(values),
        Kind::Outline => node_line(values),
    }
}

fn edge_line(values: &[u32]) -> bool
    ensures { result ≡ eqb (length values.now) edge_fields && edge_line_lem values.now }
{
    if values.len() != EDGE_FIELDS {
        return false;
    }
    edge_fits(
        values[0], values[1], values[2], values[3], values[4], values[5],
    )
}

fn step_line(values: &[u32]) -> bool
    ensures { result ≡ eqb (length values.now) step_fields && step_line_lem values.now }
{
    if values.len() != STEP_FIELDS {
        return false;
    }
    step_fits(values[0], values[1], values[2])
}

fn node_line(values: &[u32]) -> bool
    ensures { result ≡ eqb (length values.now) node_line_fields && node_line_lem values.now }
{
    if values.len() != NODE_LINE_FIELDS {
        return false;
    }
    if NODES <= values[0] {
        return false;
    }
    node_fits(values[1], values[2], values[3])
}
