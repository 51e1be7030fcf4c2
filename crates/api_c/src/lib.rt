// The judge and the check for callers in C and Rust: numbers and arrays in the place of structs. Tests and benchmarks call them.
#![tactic(auto)]

ghost use Rattle.std.specs.Prelude.{◌≡◌, cond};
ghost use Rattle.usage.specs.declared.RawStep.{RawStep};
ghost use Rattle.usage.specs.Answers.{refused};
ghost use Rattle.usage.specs.Reasons.{number_of};
ghost use Rattle.usage.specs.Tables.{is_edge_table};
ghost use Rattle.monitor_state.specs.Judge.{verdict_of};
ghost use Rattle.checker.specs.Promise.{outcome_verdict};
ghost use Rattle.api_c.specs.Codes.{code_of, explanation_code_lem};
ghost use Rattle.api_c.specs.Parts.{parts_of, judge_parts, sizes_held, numbers_told};
ghost use Rattle.api_c.specs.Code.{is_refusal_lem};
ghost use Rattle.api_c.specs.Past.{KeepsIn};
ghost use Rattle.api_c.specs.Check.{Answers, Explains};

use checker::Outcome;
use checker_counterexample::Explanation;
use checker_trace::MOST_NUMBERS;
use monitor_sets::SETS;
use monitor_state::{Answer, PAIR_SETS, Sizes};
use usage::{MOST_CREATED, MOST_UNCLOSED, POLICIES, RawStep, Reason};

pub mod expression;
pub mod lean;
pub mod print;
pub mod routine;
pub mod start;
pub mod writer;

// The number for a refusal.
fn refused(reason: Reason) -> u32
    ensures { result ≡ code_of (refused (number_of reason)) }
{
    512 + u8::from(reason) as u32
}

// document 01's two numbers for an answer, as 256 * answer + detail. Kept: `From` between types of other crates is not for this one to write.
fn code(a: Answer<Reason>) -> u32
    ensures { result ≡ code_of (verdict_of a) }
{
    match a {
        Answer::Allowed => 0,
        Answer::Violated(p) => 256 + p as u32,
        Answer::Refused(reason) => refused(reason),
    }
}

// Is it a refusal, which stores nothing?
fn is_refusal(a: Answer<Reason>) -> bool
    ensures { result ≡ is_refusal_lem a }
{
    matches!(a, Answer::Refused(_))
}

// The refusal where the arrays hold no state. A table of edges that no sheet gives comes first.
fn no_state(edges: &[u8]) -> u32
    ensures { result ≡ code_of (refused (cond (is_edge_table edges.now) 42 41)) }
{
    if sheet_fields::edges::edge_table_ok(edges) {
        return refused(Reason::State);
    }
    refused(Reason::Table)
}

// The greatest number that is a choice of past: 0 where the whole past counts, 1 where only that since the opening does.
const MOST_CHOICE: u32 = 1;

// How many numbers a state has beside its arrays.
pub const NUMBERS: usize = 4;

// The greatest number that a resource can have: one above it is the highest of no state.
const MOST_NUMBER: u64 = 4294967295;

// The numbers of a state, where they are those of one.
fn sizes_in(numbers: &[u64; NUMBERS]) -> Option<Sizes>
    ensures { result ≡ sizes_held numbers.now }
{
    let flag = numbers[1];
    let highest = numbers[3];
    if 1 < flag {
        return None;
    }
    if MOST_NUMBER < highest {
        return None;
    }
    Some(Sizes {
        count: numbers[0] as usize,
        highest: highest as u32,
        depth: numbers[2] as usize,
        halted: flag == 1,
    })
}

// The numbers that tell a state's.
fn numbers_of(z: Sizes) -> [u64; NUMBERS]
    ensures { result ≡ numbers_told z }
{
    [
        z.count as u64,
        u64::from(z.halted),
        z.depth as u64,
        u64::from(z.highest),
    ]
}

// Kept: the C interface needs the arrays, and the numbers of a step, as parameters of their own; in `start` and `lean` too.

// One step of the judge, under the choice of past `local`. The state lies in the lent parts: the sets, those of the policies about two
// resources, of which none can be written yet, what each policy may be in, the numbers of the live resources, the counts of unclosed openings and their order, and in `numbers` how many resources are live, a flag, 1
// where the state is halted and 0 where it is not, how many openings are not closed, and the highest number that was created. All of them
// then hold the state that the judge returns; after a refusal they are as they were lent.
pub fn wiforekun_judge_parts(
    edges: &[u8],
    local: u32,
    sets: &mut [u8; SETS],
    pairs: &mut [u8; PAIR_SETS],
    possible: &mut [u8; POLICIES],
    created: &mut [u32; MOST_CREATED],
    unclosed: &mut [u8; POLICIES],
    order: &mut [u8; MOST_UNCLOSED],
    numbers: &mut [u64; NUMBERS],
    kind: u32,
    a: u32,
    b: u32,
) -> u32
    ensures value { result ≡ code_of
        (judge_parts edges.now local
        (parts_of sets.old pairs.old possible.old created.old unclosed.old
        order.old numbers.old)
        (record { kind = kind; a = a; b = b })).verdict }
    ensures numbers_after { parts_of sets.new pairs.new possible.new created.new
        unclosed.new order.new numbers.new
        ≡ (judge_parts edges.now local
        (parts_of sets.old pairs.old possible.old created.old unclosed.old
        order.old numbers.old)
        (record { kind = kind; a = a; b = b })).parts }
    ensures keeps_in { KeepsIn edges.now local
        (parts_of sets.old pairs.old possible.old created.old unclosed.old
        order.old numbers.old)
        (record { kind = kind; a = a; b = b }) result
        (parts_of sets.new pairs.new possible.new created.new
        unclosed.new order.new numbers.new) }
{
    if MOST_CHOICE < local {
        return refused(Reason::Table);
    }
    let Some(sizes) = sizes_in(numbers) else {
        return no_state(edges);
    };
    let t = monitor::judge_lent(
        edges,
        local == 1,
        sets,
        pairs,
        possible,
        created,
        unclosed,
        order,
        sizes,
        RawStep { kind, a, b },
    );
    if !is_refusal(t.answer) {
        *numbers = numbers_of(t.sizes);
    }
    code(t.answer)
}

// the same for an outcome of the check
fn outcome_code(o: Result<Outcome, Reason>) -> u32
    ensures { result ≡ code_of (outcome_verdict o) }
{
    match o {
        Ok(Outcome::Accepted) => 0,
        Ok(Outcome::Named(policy)) => 256 + policy as u32,
        Err(reason) => refused(reason),
    }
}

// The check of an outline, as a flat table of nodes, under a flat table of edges and the choice of past `local`.
pub fn wiforekun_check(edges: &[u8], local: u32, nodes: &[u8]) -> u32
    ensures { Answers local edges.now nodes.now result }
{
    if MOST_CHOICE < local {
        return refused(Reason::Table);
    }
    let o = checker::check(edges, local == 1, nodes);
    outcome_code(o)
}

// the same for an explanation, with the number of steps that were written
fn explanation_code(e: Result<Explanation, Reason>) -> u32
    ensures { result ≡ explanation_code_lem e }
{
    match e {
        Ok(Explanation::Accepted) => 0,
        Ok(Explanation::Shown { policy, steps }) => 65536 * steps as u32 + (256 + policy as u32),
        Ok(Explanation::Longer { policy }) => 256 + policy as u32,
        Err(reason) => refused(reason),
    }
}

// The check of an outline, and where it names a policy a shortest trace that leaves that policy open and not respected: three numbers to
// a step, the oldest first. Answers 65536 times the number of steps written, which is 0 where none are, and document 01's two numbers as
// `wiforekun_check` does. The table needs room for 200 steps, 600 numbers (else 40); what comes after the trace is left as it was.
pub fn wiforekun_counterexample(edges: &[u8], local: u32, nodes: &[u8], trace: &mut [u32]) -> u32
    ensures { Explains local edges.now nodes.now trace.old result trace.new }
{
    if MOST_CHOICE < local {
        if trace.len() < MOST_NUMBERS {
            return explanation_code(Err(Reason::Room));
        }
        return explanation_code(Err(Reason::Table));
    }
    let e = checker_counterexample::check_with_counterexample(edges, local == 1, nodes, trace);
    explanation_code(e)
}
