// Direct calls of the routine desk: states of other lengths, before anything is loaded, with sheets of no byte, and with steps that no sheet has.
// A line for each: the number of the call, what it answers, and how many bytes hold what they held.
ghost use Rattle.std.specs.Prelude.{◌≡◌};

use crate::rewritings::kept;
use crate::{desk_cases, print};
use desk::DESK_BYTES;

// States of one byte less and of three bytes more than are asked for.
const TOO_SHORT: usize = DESK_BYTES - 1;

const LONGER: usize = DESK_BYTES + 3;

const MARK: u8 = 165;

// The line of a call, of which so many bytes are as they were.
fn line(rt: &impl Print, call: u64, code: u32, left: usize) -> u64
    ensures { result ≡ call }
{
    print::number(rt, call, b" ");
    desk_cases::told(rt, code, b" ");
    print::number(rt, left as u64, b"\n");
    call
}

// A load of policies, of an outline, and a step.
fn policies(rt: &impl Print, call: u64, state: &mut [u8], mark: u8, text: &[u8]) -> u64
    ensures { result ≡ call }
{
    let code = api_c::routine::wiforekun_desk_policies(state, text);
    line(rt, call, code, kept(state, mark))
}

fn outline(rt: &impl Print, call: u64, state: &mut [u8], mark: u8, text: &[u8]) -> u64
    ensures { result ≡ call }
{
    let code = api_c::routine::wiforekun_desk_outline(state, text);
    line(rt, call, code, kept(state, mark))
}

fn step(rt: &impl Print, call: u64, state: &mut [u8], mark: u8, kind: u32, a: u32, b: u32) -> u64
    ensures { result ≡ call }
{
    let code = api_c::routine::wiforekun_desk_step(state, kind, a, b);
    line(rt, call, code, kept(state, mark))
}

// A state that is too short, and one that encodes nothing.
fn refused_states(rt: &impl Print, sheet: &[u8], tree: &[u8]) -> u64
    ensures { result ≡ 9 }
{
    let mut short = [MARK; TOO_SHORT];
    policies(rt, 0, &mut short, MARK, sheet);
    policies(rt, 1, &mut short, MARK, b"");
    outline(rt, 2, &mut short, MARK, tree);
    outline(rt, 3, &mut short, MARK, b"");
    step(rt, 4, &mut short, MARK, 0, 1, 3);
    step(rt, 5, &mut short, MARK, 9, 0, 0);
    step(rt, 6, &mut short[0..0], MARK, 0, 1, 3);
    let mut marked = [MARK; DESK_BYTES];
    policies(rt, 7, &mut marked, MARK, sheet);
    outline(rt, 8, &mut marked, MARK, tree);
    step(rt, 9, &mut marked, MARK, 0, 1, 3)
}

// Nothing is loaded.
fn zero_states(rt: &impl Print, tree: &[u8]) -> u64
    ensures { result ≡ 15 }
{
    let mut state = [0u8; DESK_BYTES];
    step(rt, 10, &mut state, 0, 0, 1, 3);
    step(rt, 11, &mut state, 0, 9, 9, 9);
    outline(rt, 12, &mut state, 0, tree);
    outline(rt, 13, &mut state, 0, b"");
    policies(rt, 14, &mut state, 0, b"");
    step(rt, 15, &mut state, 0, 0, 1, 3)
}

// A longer state, of which the last three bytes hold a mark, and from which on it is counted.
fn tail(rt: &impl Print, call: u64, state: [u8; LONGER], code: u32) -> u64
    ensures { result ≡ call }
{
    line(rt, call, code, kept(&state[DESK_BYTES..LONGER], MARK))
}

// Loads and steps on a longer state.
fn longer_states(rt: &impl Print, sheet: &[u8], tree: &[u8]) -> u64
    ensures { result ≡ 28 }
{
    let mut state = [0u8; LONGER];
    state[DESK_BYTES] = MARK;
    state[DESK_BYTES + 1] = MARK;
    state[DESK_BYTES + 2] = MARK;
    let c = api_c::routine::wiforekun_desk_policies(&mut state, sheet);
    tail(rt, 16, state, c);
    let c = api_c::routine::wiforekun_desk_outline(&mut state, tree);
    tail(rt, 17, state, c);
    let c = api_c::routine::wiforekun_desk_step(&mut state, 9, 0, 0);
    tail(rt, 18, state, c);
    let c = api_c::routine::wiforekun_desk_step(&mut state, 0, 32, 3);
    tail(rt, 19, state, c);
    let c = api_c::routine::wiforekun_desk_step(&mut state, 0, 1, 3);
    tail(rt, 20, state, c);
    let c = api_c::routine::wiforekun_desk_step(&mut state, 1, 0, 0);
    tail(rt, 21, state, c);
    let c = api_c::routine::wiforekun_desk_policies(&mut state, b"");
    tail(rt, 22, state, c);
    let c = api_c::routine::wiforekun_desk_outline(&mut state, b"");
    tail(rt, 23, state, c);
    let c = api_c::routine::wiforekun_desk_step(&mut state, 2, 0, 0);
    tail(rt, 24, state, c);
    let c = api_c::routine::wiforekun_desk_policies(&mut state, b"");
    tail(rt, 25, state, c);
    let c = api_c::routine::wiforekun_desk_outline(&mut state, b"");
    tail(rt, 26, state, c);
    let c = api_c::routine::wiforekun_desk_step(&mut state, 3, 16, 1);
    tail(rt, 27, state, c);
    let c = api_c::routine::wiforekun_desk_step(&mut state, 0, 0, 16);
    tail(rt, 28, state, c)
}

pub(crate) fn calls(rt: &impl Print) -> u64
    ensures { result ≡ 28 }
{
    let sheet = b"policy from action on who to\n0 0 1 1 0 1\n0 1 3 1 0 0\n0 0 2 1 0 6\n";
    let tree = b"node kind a b\n0 3 1 2\n1 1 1 3\n2 1 2 3\n";
    refused_states(rt, sheet, tree);
    zero_states(rt, tree);
    longer_states(rt, sheet, tree)
}
