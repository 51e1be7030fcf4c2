// The functions of `api_c` under their C names: each calls the function of that name and states its clauses again.
#![tactic(auto)]

ghost use Rattle.std.specs.Prelude.{◌≡◌};
ghost use Rattle.api_c.specs.Codes.{code_of};
ghost use Rattle.api_c.specs.Parts.{parts_of, judge_parts};
ghost use Rattle.api_c.specs.Past.{KeepsIn};
ghost use Rattle.api_c.specs.Check.{Answers, Explains};

use api_c::NUMBERS;
use monitor_sets::SETS;
use monitor_state::PAIR_SETS;
use usage::{MOST_CREATED, MOST_UNCLOSED, POLICIES};

pub mod expression;
pub mod lean;
pub mod print;
pub mod routine;
pub mod start;
pub mod writer;

// As `api_c::wiforekun_judge_parts`.
#[unsafe(no_mangle)]
pub extern "C" fn wiforekun_judge_parts(
    edges: &[u8],
    local: u32,
    sets: &mut [u8; SETS],
    pairs: &mut [u8; PAIR_SETS],
    possible: &mut [u8; POLICIES],
    created: &mut [u32; MOST_CREATED],
    unclosed: &mut [u8; POLICIES],
    order: &mut [u8; MOST_UNCLOSED],
    numbers: &mut [u64; NUMBERS],
    kind: u32,
    a: u32,
    b: u32,
) -> u32
    ensures value { result ≡ code_of
        (judge_parts edges.now local
        (parts_of sets.old pairs.old possible.old created.old unclosed.old
        order.old numbers.old)
        (record { kind = kind; a = a; b = b })).verdict }
    ensures numbers_after { parts_of sets.new pairs.new possible.new created.new
        unclosed.new order.new numbers.new
        ≡ (judge_parts edges.now local
        (parts_of sets.old pairs.old possible.old created.old unclosed.old
        order.old numbers.old)
        (record { kind = kind; a = a; b = b })).parts }
    ensures keeps_in { KeepsIn edges.now local
        (parts_of sets.old pairs.old possible.old created.old unclosed.old
        order.old numbers.old)
        (record { kind = kind; a = a; b = b }) result
        (parts_of sets.new pairs.new possible.new created.new
        unclosed.new order.new numbers.new) }
{
    api_c::wiforekun_judge_parts(
        edges, local, sets, pairs, possible, created, unclosed, order, numbers, kind, a, b,
    )
}

// As `api_c::wiforekun_check`.
#[unsafe(no_mangle)]
pub extern "C" fn wiforekun_check(edges: &[u8], local: u32, nodes: &[u8]) -> u32
    ensures { Answers local edges.now nodes.now result }
{
    api_c::wiforekun_check(edges, local, nodes)
}

// As `api_c::wiforekun_counterexample`.
#[unsafe(no_mangle)]
pub extern "C" fn wiforekun_counterexample(
    edges: &[u8],
    local: u32,
    nodes: &[u8],
    trace: &mut [u32],
) -> u32
    ensures { Explains local edges.now nodes.now trace.old result trace.new }
{
    api_c::wiforekun_counterexample(edges, local, nodes, trace)
}
