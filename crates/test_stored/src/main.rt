// What is run against the reference program: the stored cases of the programs and of the check with a counterexample, and calls at
// the borders of the numbers that no sheet can bring about. What is printed is compared with what the reference program printed.
#![tactic(auto)]

mod borders;
mod counterexamples;
mod desk_calls;
mod desk_cases;
mod expressions;
mod judge_calls;
mod lean;
mod lean_calls;
mod lent;
mod local_calls;
mod order_calls;
mod print;
mod retire_calls;
mod rewritings;
mod stored;
mod trace_calls;

fn main(rt: HostRuntime) {
    stored::traces(&rt, 1050);
    stored::outlines(&rt, 1000);
    counterexamples::all(&rt, 320);
    rewritings::all(&rt, 450);
    borders::calls(&rt);
    rewritings::calls(&rt);
    expressions::all(&rt, 900);
    expressions::room_calls(&rt);
    lean::summaries(&rt, b'o', 1000);
    lean::summaries(&rt, b'c', 320);
    lean::all(&rt, 240);
    lean_calls::calls(&rt);
    desk_cases::all(&rt, 300);
    desk_calls::calls(&rt);
}
