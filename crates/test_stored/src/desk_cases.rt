// The stored sequences of calls of the routine desk. Of case n the sheets d/na to d/ni are three rounds: policies and an outline that are
// loaded, unless they are empty, and a trace whose steps are taken. At the end a step is taken with one byte of the state changed, for each
// line of d/nx, a create on 256 times the place and the value. A line for each call: the answer, its detail, 1 where it is the lean judge's, and
// the sheet's line; after a changed byte also how many bytes a refusal changes.
ghost use Rattle.std.specs.Prelude.{◌≡◌, ◌≤◌, length};

use crate::lent::differing;
use crate::{print, stored};
use desk::DESK_BYTES;
use std::rt::Files;
use usage::{MOST_STEPS, STEP_FIELDS, STEP_TABLE};

// The answer of a refusal.
const REFUSED: u32 = 2;

// What a call answers, printed with what comes after it; the code is handed back.
pub(crate) fn told(rt: &impl Print, code: u32, after: &[u8]) -> u32
    ensures { result ≡ code }
{
    print::number(rt, code as u64 / 256 % 256, b" ");
    print::number(rt, code as u64 % 256, b" ");
    print::number(rt, code as u64 / 65536 % 2, b" ");
    print::number(rt, code as u64 / 131072, after);
    code
}

// A sheet of the case is loaded, unless it is empty.
fn load(rt: &(impl Files + Print), state: &mut [u8], n: u64, which: u8, outline: bool) -> u64
    ensures { result ≡ n }
{
    let sheet = stored::sheet(rt, b'd', n, which);
    let text = sheet.text();
    if text.is_empty() {
        return n;
    }
    if outline {
        told(
            rt,
            api_c::routine::wiforekun_desk_outline(state, text),
            b"\n",
        );
        return n;
    }
    told(
        rt,
        api_c::routine::wiforekun_desk_policies(state, text),
        b"\n",
    );
    n
}

// The steps of a table, up to so many.
fn take(rt: &impl Print, state: &mut [u8], n: u64, table: &[u32; STEP_TABLE], steps: usize) -> u64
    ensures { result ≡ n }
{
    for i in 0..usize::min(steps, MOST_STEPS) {
        let kind = table[STEP_FIELDS * i];
        let a = table[STEP_FIELDS * i + 1];
        let b = table[STEP_FIELDS * i + 2];
        told(
            rt,
            api_c::routine::wiforekun_desk_step(state, kind, a, b),
            b"\n",
        );
    }
    n
}

// The lines of a trace sheet of the case, as steps; how many there are, and none where it is refused.
fn steps(rt: &impl Files, n: u64, which: u8, table: &mut [u32; STEP_TABLE]) -> usize
    ensures { length table.new ≡ length table.old }
{
    let sheet = stored::sheet(rt, b'd', n, which);
    sheet_reader::read_trace(sheet.text(), table).unwrap_or(0)
}

// One round, whose sheets are these.
fn round(
    rt: &(impl Files + Print),
    state: &mut [u8],
    n: u64,
    policies: u8,
    outline: u8,
    trace: u8,
) -> u64
    ensures { result ≡ n }
{
    load(rt, state, n, policies, false);
    load(rt, state, n, outline, true);
    let mut table = [0u32; STEP_TABLE];
    let count = steps(rt, n, trace, &mut table);
    take(rt, state, n, &table, count)
}

// A step with one byte changed: 256 times its place, and the value.
fn poked(rt: &impl Print, mut state: [u8; DESK_BYTES], poke: u32) -> u64
    ensures { result ≤ 37000 }
{
    let place = poke as usize / 256;
    if DESK_BYTES <= place {
        return 0;
    }
    state[place] = (poke % 256) as u8;
    let before = state;
    let code = told(
        rt,
        api_c::routine::wiforekun_desk_step(&mut state, 0, 2, 3),
        b" ",
    );
    if code / 256 % 256 != REFUSED {
        print::number(rt, 0, b"\n");
        return 0;
    }
    print::number(rt, differing(&before, &state), b"\n")
}

// The changed bytes of the case, one after the other.
fn pokes(rt: &(impl Files + Print), state: [u8; DESK_BYTES], n: u64) -> u64
    ensures { result ≡ n }
{
    let mut table = [0u32; STEP_TABLE];
    let count = steps(rt, n, b'x', &mut table);
    for i in 0..usize::min(count, MOST_STEPS) {
        poked(rt, state, table[STEP_FIELDS * i + 2]);
    }
    n
}

fn case(rt: &(impl Files + Print), n: u64) -> u64
    ensures { result ≡ n }
{
    stored::announced(rt, n);
    let mut state = [0u8; DESK_BYTES];
    round(rt, &mut state, n, b'a', b'b', b'c');
    round(rt, &mut state, n, b'd', b'e', b'f');
    round(rt, &mut state, n, b'g', b'h', b'i');
    pokes(rt, state, n)
}

pub(crate) fn all(rt: &(impl Files + Print), count: u64) -> u64
    ensures { result ≡ count }
{
    stored::each(count, |n| case(rt, n))
}
