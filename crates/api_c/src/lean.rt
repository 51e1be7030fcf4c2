// The exact summary and the lean judge (02, L11), for callers in C and Rust.
ghost use Rattle.std.specs.Prelude.{◌≡◌};
ghost use Rattle.usage.specs.declared.RawStep.{RawStep};
ghost use Rattle.monitor_lean.specs.Promise.{LeanPromise};
ghost use Rattle.checker.specs.Summary.{summary_number};
ghost use Rattle.api_c.specs.Choice.{choice_of};
ghost use Rattle.api_c.specs.Codes.{code_of};
ghost use Rattle.api_c.specs.Parts.{parts_of, lean_parts};
ghost use Rattle.api_c.specs.Summary.{summary_code_lem, Summarizes};

use monitor_sets::SETS;
use monitor_state::PAIR_SETS;
use usage::{MOST_CREATED, MOST_UNCLOSED, POLICIES, RawStep, Reason};

// What is answered for a summary: 0, or a refusal as `wiforekun_check` answers it.
fn summary_code(r: Result<(), Reason>) -> u32
    ensures { result ≡ summary_code_lem (summary_number r) }
{
    match r {
        Ok(()) => 0,
        Err(reason) => crate::refused(reason),
    }
}

// The exact summary of an outline, as a flat table of nodes, under a flat table of edges and the choice of past `local`: for each policy a
// number of 33 bits. Bits 0 to 31 are the actions, and bit 32 is its opening, that can be the last step of a trace that leaves it open and
// not respected. The table needs room for eight numbers (else 40); what comes after them is left as it was.
pub fn wiforekun_summary(edges: &[u8], local: u32, nodes: &[u8], marks: &mut [u64]) -> u32
    ensures { Summarizes local edges.now nodes.now marks.old result marks.new }
{
    if crate::MOST_CHOICE < local {
        if marks.len() < POLICIES {
            return summary_code(Err(Reason::Room));
        }
        return summary_code(Err(Reason::Table));
    }
    summary_code(checker::summary::summary(edges, local == 1, nodes, marks))
}

// One step of the lean judge: as `wiforekun_judge_parts`, but that a step is judged by the policies alone that the lent summary marks at it.
// Any eight numbers are a summary.
pub fn wiforekun_judge_lean_parts(
    marks: &[u64; POLICIES],
    edges: &[u8],
    local: u32,
    sets: &mut [u8; SETS],
    pairs: &mut [u8; PAIR_SETS],
    possible: &mut [u8; POLICIES],
    created: &mut [u32; MOST_CREATED],
    unclosed: &mut [u8; POLICIES],
    order: &mut [u8; MOST_UNCLOSED],
    numbers: &mut [u64; crate::NUMBERS],
    kind: u32,
    a: u32,
    b: u32,
) -> u32
    ensures value { result ≡ code_of
        (lean_parts marks.now edges.now local
        (parts_of sets.old pairs.old possible.old created.old unclosed.old
        order.old numbers.old)
        (record { kind = kind; a = a; b = b })).verdict }
    ensures numbers_after { parts_of sets.new pairs.new possible.new created.new
        unclosed.new order.new numbers.new
        ≡ (lean_parts marks.now edges.now local
        (parts_of sets.old pairs.old possible.old created.old unclosed.old
        order.old numbers.old)
        (record { kind = kind; a = a; b = b })).parts }
    ensures lean_promise { LeanPromise edges.now (choice_of local) marks.now }
{
    if crate::MOST_CHOICE < local {
        return crate::refused(Reason::Table);
    }
    let Some(sizes) = crate::sizes_in(numbers) else {
        return crate::no_state(edges);
    };
    let t = monitor_lean::judge_lean(
        marks,
        edges,
        local == 1,
        sets,
        pairs,
        possible,
        created,
        unclosed,
        order,
        sizes,
        RawStep { kind, a, b },
    );
    if !crate::is_refusal(t.answer) {
        *numbers = crate::numbers_of(t.sizes);
    }
    crate::code(t.answer)
}
