// The trace, written from a full table: by recursion on the number of steps of an entry. What is to be written is one value, a part; the
// four functions that call each other ask for room for it, and where they write by a rule that the rule was picked, and promise that it
// is written.
ghost use Rattle.std.specs.Prelude.{◌≡◌, ℕ, ◌+◌, ◌*◌, ◌<◌, ◌≤◌, length, get_or};
ghost use Rattle.std.proofs.Math.Option.{some};
ghost use Rattle.usage.specs.Limits.{step_fields, resources};
ghost use Rattle.usage.specs.Outline.{sequence, fresh, sandbox};
ghost use Rattle.checker_trace.specs.Code.{stored_step, onward, created, given};
ghost use Rattle.checker_trace.specs.Code.{first_part_lem, second_part_lem, body_part_lem, inner_part_lem, Room, Picked, PartWritten};

use crate::{Names, Part, Spot, Tables, Way, find};
use checker_account::NAMES;
use checker_lengths::{BROKEN, WatchOne, entries, offers};
use outline_nodes::NodeForm;
use usage::STEP_FIELDS;

// The kinds of a step.
const EVENT: u32 = 0;

const OPENING: u32 = 1;

const CLOSING: u32 = 2;

// ── Names and single steps ──

// The number of the resource that name i means.
fn name(g: Names, i: u8) -> u32
    ensures { result ≡ get_or g.numbers i 0 }
{
    let k = i as usize;
    if NAMES <= k {
        return 0;
    }
    g.numbers[k]
}

// The names once name i means v.
fn give(mut g: Names, i: u8, v: u32) -> Names
    ensures { result ≡ given g i v }
{
    let k = i as usize;
    if k < NAMES {
        g.numbers[k] = v;
    }
    g
}

// One step more.
fn step(trace: &mut [u32], s: Spot, kind: u32, a: u32, b: u32) -> Spot
    requires { step_fields * s.at + step_fields ≤ length trace.old }
    ensures trace_after { trace.new ≡ stored_step trace.old s.at kind a b }
    ensures value { result ≡ onward s }
{
    let i = STEP_FIELDS * s.at;
    trace[i] = kind;
    trace[i + 1] = a;
    trace[i + 2] = b;
    Spot {
        at: s.at + 1,
        next: s.next,
    }
}

// A creation.
fn create(trace: &mut [u32], s: Spot) -> Spot
    requires step_fields_in_bounds { step_fields * s.at + step_fields ≤ length trace.old }
    requires next_bound { s.next + 1 < resources }
    ensures trace_after { trace.new ≡ stored_step trace.old s.at 0 0 s.next }
    ensures value { result ≡ created s }
{
    let r = step(trace, s, EVENT, 0, s.next);
    Spot {
        at: r.at,
        next: s.next + 1,
    }
}

// ── The parts that a rule leads to ──

// The first node of a sequence, of v steps.
fn first_part(p: Part, y: Way, v: u8) -> Part
    ensures { result ≡ first_part_lem p y v }
{
    Part {
        entry: offers::first(p.entry, y.a, y.rule),
        steps: v,
        ..p
    }
}

// Its second, with the steps that are left, from where the first came to.
fn second_part(p: Part, y: Way, v: u8, mid: Spot) -> Part
    requires { v ≤ p.steps }
    ensures { result ≡ second_part_lem p y v mid }
{
    Part {
        entry: offers::second(p.entry, y.b, y.rule),
        steps: p.steps - v,
        spot: mid,
        ..p
    }
}

// The body of a fresh node, after its creation: its name means the resource that was created.
fn body_part(p: Part, y: Way, made: Spot) -> Part
    requires { 1 ≤ p.steps }
    ensures { result ≡ body_part_lem p y made }
{
    Part {
        entry: offers::body(p.entry, y.a, y.b, y.rule),
        steps: p.steps - 1,
        names: give(p.names, y.a, p.spot.next),
        spot: made,
    }
}

// The body of a sandbox, n steps being around it, after its opening.
fn inner_part(w: WatchOne, p: Part, y: Way, n: u8, begun: Spot) -> Part
    requires { n ≤ p.steps }
    ensures { result ≡ inner_part_lem w p y n begun }
{
    Part {
        entry: offers::inner(w, p.entry, y.a, y.b),
        steps: p.steps - n,
        spot: begun,
        ..p
    }
}

// ── Writing ──

// By a rule of a sequence: its first node, to end in the way that the rule says, and then its second.
#[cycle(writing)]
fn write_sequence(x: &Tables, trace: &mut [u32], p: Part, y: Way) -> Spot
    requires room { Room x.now.nodes.now p trace.old }
    requires picked { Picked x.now.watch x.now.rows.now x.now.nodes.now x.now.lengths.now p (some (sequence y.a y.b)) y.rule }
    ensures { PartWritten x.now.watch x.now.rows.now x.now.nodes.now x.now.lengths.now p
        trace.old result trace.new }
{
    let v = entries::get(x.lengths, p.steps, offers::first(p.entry, y.a, y.rule));
    let mid = write(x, trace, first_part(p, y, v));
    write(x, trace, second_part(p, y, v, mid))
}

// By a rule of a fresh node: its creation, and then its body.
#[cycle(writing)]
fn write_fresh(x: &Tables, trace: &mut [u32], p: Part, y: Way) -> Spot
    requires room { Room x.now.nodes.now p trace.old }
    requires picked { Picked x.now.watch x.now.rows.now x.now.nodes.now x.now.lengths.now p (some (fresh y.a y.b)) y.rule }
    ensures { PartWritten x.now.watch x.now.rows.now x.now.nodes.now x.now.lengths.now p
        trace.old result trace.new }
{
    let made = create(trace, p.spot);
    if BROKEN <= y.rule {
        return made;
    }
    write(x, trace, body_part(p, y, made))
}

// By a rule of a sandbox: its opening, its body, and where that ends its closing.
#[cycle(writing)]
fn write_sandbox(x: &Tables, trace: &mut [u32], p: Part, y: Way) -> Spot
    requires room { Room x.now.nodes.now p trace.old }
    requires picked { Picked x.now.watch x.now.rows.now x.now.nodes.now x.now.lengths.now p (some (sandbox y.a y.b)) y.rule }
    ensures { PartWritten x.now.watch x.now.rows.now x.now.nodes.now x.now.lengths.now p
        trace.old result trace.new }
{
    let begun = step(trace, p.spot, OPENING, y.a as u32, 0);
    if 0 < y.rule {
        return begun;
    }
    if p.entry.aim == BROKEN {
        return write(x, trace, inner_part(x.watch, p, y, 1, begun));
    }
    let done = write(x, trace, inner_part(x.watch, p, y, 2, begun));
    step(trace, done, CLOSING, y.a as u32, 0)
}

// The part: where its entry is gone on from, by the rule that is found there.
#[cycle(writing)]
pub(crate) fn write(x: &Tables, trace: &mut [u32], p: Part) -> Spot
    requires { Room x.now.nodes.now p trace.old }
    ensures { PartWritten x.now.watch x.now.rows.now x.now.nodes.now x.now.lengths.now p
        trace.old result trace.new }
{
    if p.steps == 0 {
        return p.spot;
    }
    let Some(o) = find::find(x, p.entry, p.steps) else {
        return p.spot;
    };
    let Some(f) = outline_nodes::form(x.nodes, o.node) else {
        return p.spot;
    };
    match f {
        NodeForm::OnStatic { action, resource } => {
            step(trace, p.spot, EVENT, action as u32, resource as u32)
        }
        NodeForm::OnName { action, name: i } => step(
            trace,
            p.spot,
            EVENT,
            action as u32,
            name(p.names, i),
        ),
        NodeForm::Sequence {
            first: a,
            second: b,
        } => write_sequence(x, trace, p, Way { a, b, rule: o.rule }),
        NodeForm::Fresh { name: a, body: b } => write_fresh(
            x,
            trace,
            p,
            Way { a, b, rule: o.rule },
        ),
        NodeForm::Sandbox { policy: a, body: b } => {
            write_sandbox(x, trace, p, Way { a, b, rule: o.rule })
        }
        _ => p.spot,
    }
}
