// The judge and the check over a slice of records (document 01: "The judge and the check are lent the edges as a slice of records."):
// each record is copied into a flat table, six bytes to an edge, and what is proved over the flat table answers.
// `local` says which past counts, and goes with the edges.
#![tactic(auto)]

ghost use Rattle.std.specs.Prelude.{◌≡◌};
ghost use Rattle.checker.specs.Promise.{outcome_verdict, CheckPromise};
ghost use Rattle.checker_counterexample.specs.Explained.{Explained};
ghost use Rattle.api_records.specs.Flat.{flat};
ghost use Rattle.api_records.specs.Records.{judge_records_lem, KeepsRecords};

use checker::Outcome;
use checker_counterexample::Explanation;
use checker_trace::MOST_NUMBERS;
use monitor_state::{Answer, Judgement, State};
use usage::{Edge, RawStep, Reason};

mod flat;

// The judge of one step, lent the edges as a slice of records.
pub fn judge_records(edges: &[Edge], local: bool, s: State, step: RawStep) -> Judgement
    ensures value { result ≡ judge_records_lem edges.now local s step }
    ensures keeps_records { KeepsRecords edges.now local s step result }
{
    let Some(table) = flat::flatten(edges) else {
        let answer = Answer::Refused(Reason::Table);
        return Judgement { answer, state: s };
    };
    monitor::judge(table.held(), local, s, step)
}

// The check of an outline, lent the edges as a slice of records.
pub fn check_records(edges: &[Edge], local: bool, nodes: &[u8]) -> Result<Outcome, Reason>
    ensures { CheckPromise local (flat edges.now) nodes.now (outcome_verdict result) }
{
    match flat::flatten(edges) {
        Some(table) => checker::check(table.held(), local, nodes),
        None => Err(Reason::Table),
    }
}

// The check of an outline with room for the steps of a counterexample, lent the edges as a slice of records.
pub fn check_records_with_counterexample(
    edges: &[Edge],
    local: bool,
    nodes: &[u8],
    trace: &mut [u32],
) -> Result<Explanation, Reason>
    ensures { Explained local (flat edges.now) nodes.now trace.old result trace.new }
{
    if trace.len() < MOST_NUMBERS {
        return Err(Reason::Room);
    }
    let Some(records) = flat::flatten(edges) else {
        return Err(Reason::Table);
    };
    checker_counterexample::check_with_counterexample(records.held(), local, nodes, trace)
}
