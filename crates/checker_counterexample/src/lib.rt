// The check with a counterexample: where it names a policy, a shortest trace that leaves that policy open and not respected.
#![tactic(auto)]

ghost use Rattle.checker_counterexample.specs.Explained.{NamedBy, Explained};

use checker::Outcome;
use checker_trace::{Length, MOST_NUMBERS};
use usage::Reason;

// The answer of the check with a counterexample: accepted; refused with the lowest policy that some trace leaves open and not
// respected, and the number of steps of the trace that was written; or the same where every such trace has more than 200 steps.
#[derive(Clone, Copy, PartialEq, Eq, Debug)]
pub enum Explanation {
    Accepted,
    Shown { policy: u8, steps: u8 },
    Longer { policy: u8 },
}

// The counterexample to policy p.
fn named(
    edges: &[u8],
    local: bool,
    nodes: &[u8],
    p: u8,
    trace: &mut [u32],
) -> Result<Explanation, Reason>
    ensures { NamedBy local edges.now nodes.now p trace.old result trace.new }
{
    let l = checker_trace::counterexample(edges, local, nodes, p as usize, trace)?;
    match l {
        Length::Of(n) => Ok(Explanation::Shown {
            policy: p,
            steps: n,
        }),
        Length::Longer => Ok(Explanation::Longer { policy: p }),
    }
}

// The check of an outline, as a flat table of nodes, under a flat table of edges and a choice of past, with room for the steps of a trace.
// It needs some 212 KB of stack (`checker_trace::counterexample`).
pub fn check_with_counterexample(
    edges: &[u8],
    local: bool,
    nodes: &[u8],
    trace: &mut [u32],
) -> Result<Explanation, Reason>
    ensures { Explained local edges.now nodes.now trace.old result trace.new }
{
    if trace.len() < MOST_NUMBERS {
        return Err(Reason::Room);
    }
    let o = checker::check(edges, local, nodes)?;
    match o {
        Outcome::Accepted => Ok(Explanation::Accepted),
        Outcome::Named(p) => named(edges, local, nodes, p, trace),
    }
}
