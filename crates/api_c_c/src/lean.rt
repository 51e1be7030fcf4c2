// The functions of `api_c::lean` under their C names.
ghost use Rattle.std.specs.Prelude.{◌≡◌};
ghost use Rattle.monitor_lean.specs.Promise.{LeanPromise};
ghost use Rattle.api_c.specs.Choice.{choice_of};
ghost use Rattle.api_c.specs.Codes.{code_of};
ghost use Rattle.api_c.specs.Parts.{parts_of, lean_parts};
ghost use Rattle.api_c.specs.Summary.{Summarizes};

use api_c::NUMBERS;
use monitor_sets::SETS;
use monitor_state::PAIR_SETS;
use usage::{MOST_CREATED, MOST_UNCLOSED, POLICIES};

// As `api_c::lean::wiforekun_summary`.
#[unsafe(no_mangle)]
pub extern "C" fn wiforekun_summary(
    edges: &[u8],
    local: u32,
    nodes: &[u8],
    marks: &mut [u64],
) -> u32
    ensures { Summarizes local edges.now nodes.now marks.old result marks.new }
{
    api_c::lean::wiforekun_summary(edges, local, nodes, marks)
}

// As `api_c::lean::wiforekun_judge_lean_parts`.
#[unsafe(no_mangle)]
pub extern "C" fn wiforekun_judge_lean_parts(
    marks: &[u64; POLICIES],
    edges: &[u8],
    local: u32,
    sets: &mut [u8; SETS],
    pairs: &mut [u8; PAIR_SETS],
    possible: &mut [u8; POLICIES],
    created: &mut [u32; MOST_CREATED],
    unclosed: &mut [u8; POLICIES],
    order: &mut [u8; MOST_UNCLOSED],
    numbers: &mut [u64; NUMBERS],
    kind: u32,
    a: u32,
    b: u32,
) -> u32
    ensures value { result ≡ code_of
        (lean_parts marks.now edges.now local
        (parts_of sets.old pairs.old possible.old created.old unclosed.old
        order.old numbers.old)
        (record { kind = kind; a = a; b = b })).verdict }
    ensures numbers_after { parts_of sets.new pairs.new possible.new created.new
        unclosed.new order.new numbers.new
        ≡ (lean_parts marks.now edges.now local
        (parts_of sets.old pairs.old possible.old created.old unclosed.old
        order.old numbers.old)
        (record { kind = kind; a = a; b = b })).parts }
    ensures lean_promise { LeanPromise edges.now (choice_of local) marks.now }
{
    api_c::lean::wiforekun_judge_lean_parts(
        marks, edges, local, sets, pairs, possible, created, unclosed, order, numbers, kind, a, b,
    )
}
