// The readers of a choice, a sequence and an item (02, L13), which call each other: what is left of the text falls, and the nesting with
// each bracket.
ghost use Rattle.std.specs.Prelude.{◌≡◌, ◌<◌, ◌≤◌, length};
ghost use Rattle.usage.specs.Limits.{most_nodes, longest_sheet};
ghost use Rattle.sheet_grammar.specs.Grammar.{item as item-phrase, choice_phrase, sequence_phrase};
ghost use Rattle.sheet_expression.specs.Code.{
  leaf_of,
  bracket_of,
  loops_of,
  Grown,
  Opened,
  Bound,
  closed_by,
  Readable,
  PhraseAnswer,
  closer_of,
  meant_loop,
  next_number,
  loop_bracket,
};

use crate::items;
use crate::items::{Bracket, Head, Leaf};
use crate::numbering::{
    BACK, CHOICE, END, FRESH, LOOP, NodeList, ON_NAME, ON_STATIC, SANDBOX, SEQUENCE,
};
use usage::{MOST_NODES, Node, Reason};

// "Labels are one digit, 0 to 9".
pub(crate) const LABELS: usize = 10;

// The number of the loop that each label means, if it means one.
pub(crate) type Loops = [Option<u8>; LABELS];

// What was read up to place `at`, with its nodes.
#[derive(Clone, Copy)]
pub(crate) struct Read {
    pub nodes: NodeList,
    pub at: usize,
}

// The loop that a label means, or else the back's own number.
fn meant(loops: Loops, label: u8, own: usize) -> u8
    ensures { own < most_nodes → result ≡ meant_loop loops label own }
{
    if MOST_NODES <= own {
        return 0;
    }
    let l = label as usize;
    if LABELS <= l {
        return own as u8;
    }
    match loops[l] {
        Some(x) => x,
        None => own as u8,
    }
}

// The nodes with that of an item that has no choice in it.
#[inline(never)]
fn leaf_node(leaf: Leaf, loops: Loops, nodes: &NodeList) -> NodeList
    requires { nodes.now.count ≤ longest_sheet }
    ensures { Grown (loops_of loops) nodes.now result (leaf_of leaf) }
{
    match leaf {
        Leaf::End => nodes.push(Node {
            kind: END,
            a: 0,
            b: 0,
        }),
        Leaf::Static { action, resource } => nodes.push(Node {
            kind: ON_STATIC,
            a: action,
            b: resource,
        }),
        Leaf::Name { action, name } => nodes.push(Node {
            kind: ON_NAME,
            a: action,
            b: name,
        }),
        Leaf::Back(l) => nodes.push(Node {
            kind: BACK,
            a: meant(loops, l, nodes.count),
            b: 0,
        }),
    }
}

// The number of the next node but one, where there is room for it.
fn after(count: usize) -> u8
    ensures { result ≡ next_number count }
{
    if count < MOST_NODES {
        (count + 1) as u8
    } else {
        0
    }
}

// The nodes with that of a bracket.
#[inline(never)]
fn opened(bracket: Bracket, nodes: &NodeList) -> NodeList
    requires { nodes.now.count ≤ longest_sheet }
    ensures { Opened (bracket_of bracket) nodes.now result }
{
    match bracket {
        Bracket::Round => *nodes,
        Bracket::Loop(_) => nodes.push(Node {
            kind: LOOP,
            a: after(nodes.count),
            b: 0,
        }),
        Bracket::Fresh(n) => nodes.push(Node {
            kind: FRESH,
            a: n,
            b: after(nodes.count),
        }),
        Bracket::Sandbox(p) => nodes.push(Node {
            kind: SANDBOX,
            a: p,
            b: after(nodes.count),
        }),
    }
}

// What the labels mean inside a loop, whose number is `count`.
fn labelled(mut loops: Loops, label: u8, count: usize) -> Loops
    ensures { Bound (loop_bracket label) loops count result }
{
    if MOST_NODES <= count {
        return loops;
    }
    let l = label as usize;
    if LABELS <= l {
        return loops;
    }
    loops[l] = Some(count as u8);
    loops
}

// What the labels mean inside a bracket.
#[inline(never)]
fn bound(bracket: Bracket, loops: Loops, count: usize) -> Loops
    ensures { Bound (bracket_of bracket) loops count result }
{
    match bracket {
        Bracket::Round => loops,
        Bracket::Loop(label) => labelled(loops, label, count),
        Bracket::Fresh(_) => loops,
        Bracket::Sandbox(_) => loops,
    }
}

fn closer(bracket: Bracket) -> u8
    ensures { result ≡ closer_of (bracket_of bracket) }
{
    match bracket {
        Bracket::Round => b')',
        Bracket::Loop(_) => b'}',
        Bracket::Fresh(_) => b'}',
        Bracket::Sandbox(_) => b'}',
    }
}

// The bracket must be closed where the choice in it ends.
fn closed(text: &[u8], bracket: Bracket, r: Read) -> Result<Read, Reason>
    requires { r.at ≤ length text.now }
    ensures { result ≡ closed_by text.now (bracket_of bracket) r }
{
    let Read { nodes, at } = r;
    if items::is_at(text, at, closer(bracket)) {
        return Ok(Read { nodes, at: at + 1 });
    }
    Err(Reason::ExpressionByte)
}

// "A choice is one or more sequences joined by `+`." How often, the text tells: no range is known before.
// Kept: a choice and a sequence are two functions: each reads its parts by a function of its own, and all three call each other.
#[cycle(choice_item_sequence)]
pub(crate) fn choice(text: &[u8], from: &Read, nest: u8, loops: Loops) -> Result<Read, Reason>
    requires { Readable text.now from.now loops }
    ensures { PhraseAnswer choice_phrase text.now from.now.at nest loops from.now.nodes result }
{
    let mut r = sequence(text, from, nest, loops)?;
    while items::is_at(text, r.at, b'+') {
        let left = r.nodes.count;
        r.at += 1;
        let next = sequence(text, &r, nest, loops)?;
        r = Read {
            nodes: next.nodes.join(CHOICE, from.nodes.count, left),
            at: next.at,
        };
    }
    Ok(r)
}

// "A sequence is one or more items joined by `.`."
#[cycle(choice_item_sequence)]
pub(crate) fn sequence(text: &[u8], from: &Read, nest: u8, loops: Loops) -> Result<Read, Reason>
    requires { Readable text.now from.now loops }
    ensures { PhraseAnswer sequence_phrase text.now from.now.at nest loops from.now.nodes result }
{
    let mut r = item(text, from, nest, loops)?;
    while items::is_at(text, r.at, b'.') {
        let left = r.nodes.count;
        r.at += 1;
        let next = item(text, &r, nest, loops)?;
        r = Read {
            nodes: next.nodes.join(SEQUENCE, from.nodes.count, left),
            at: next.at,
        };
    }
    Ok(r)
}

// "An item is `0` for end, an event as `2(s3)` or `2(n0)`, `m1{choice}` for a loop labelled 1, .. or a choice in round brackets."
#[cycle(choice_item_sequence)]
pub(crate) fn item(text: &[u8], from: &Read, nest: u8, loops: Loops) -> Result<Read, Reason>
    requires { Readable text.now from.now loops }
    ensures { PhraseAnswer item-phrase text.now from.now.at nest loops from.now.nodes result }
{
    match items::begins(text, from.at) {
        Err(_) => Err(Reason::ExpressionByte),
        Ok(Head::Atom { leaf, end }) => {
            let nodes = leaf_node(leaf, loops, &from.nodes);
            Ok(Read { nodes, at: end })
        }
        Ok(Head::Opens { bracket, place }) => {
            if nest == 0 {
                return Err(Reason::NestedTooDeep);
            }
            let inner = Read {
                nodes: opened(bracket, &from.nodes),
                at: place + 1,
            };
            let around = bound(bracket, loops, from.nodes.count);
            let r = choice(text, &inner, nest - 1, around)?;
            closed(text, bracket, r)
        }
    }
}
