// The stored policy sheets that are written again: of case n the sheet p/np. Then calls of the exported function, at the border of 40 and
// with a refused sheet: of each the length, the line and the number that it tells, and how many bytes of the lent sheet are as they were.
ghost use Rattle.std.specs.Prelude.{◌≡◌, ◌≤◌, length};

use crate::{print, stored};
use sheet_lines::LONGEST_SHEET;
use std::rt::Files;

// Lent sheets of one byte less and of one byte more than are asked for; a byte that no sheet has.
const TOO_SHORT: usize = LONGEST_SHEET - 1;

const MOST_LENT: usize = LONGEST_SHEET + 1;

const MARK: u8 = 7;

fn case(rt: &(impl Files + Print), n: u64) -> u64
    ensures { result ≡ n }
{
    let policies = stored::sheet(rt, b'p', n, b'p');
    let mut out = [0u8; report::POLICIES_ROOM];
    let k = report::report_policies(policies.text(), &mut out);
    stored::announced(rt, n);
    files::print(rt, &out, k);
    n
}

pub(crate) fn all(rt: &(impl Files + Print), count: u64) -> u64
    ensures { result ≡ count }
{
    stored::each(count, |n| case(rt, n))
}

// How many bytes hold the mark.
pub(crate) fn kept(lent: &[u8], mark: u8) -> usize
    ensures { result ≤ length lent.now }
{
    let mut n: usize = 0;
    for x in lent {
        if *x == mark {
            n += 1;
        }
    }
    n
}

// A line for a call: its number, what it answered, and how many bytes of the lent sheet are as they were.
fn told(rt: &impl Print, n: u64, length: usize, line: u64, number: u64, left: usize) -> u64
    ensures { result ≡ n }
{
    print::number(rt, n, b" ");
    print::number(rt, length as u64, b" ");
    print::number(rt, line, b" ");
    print::number(rt, number, b" ");
    print::number(rt, left as u64, b"\n");
    n
}

// One call that is lent so many bytes.
fn lent<const N: usize>(rt: &impl Print, n: u64, text: &[u8]) -> u64
    requires { N ≤ 65536 }
    ensures { result ≡ n }
{
    let mut out = [MARK; N];
    let mut refusal = [0u64, 0];
    let length = api_c::writer::wiforekun_write_policies(text, &mut out, &mut refusal);
    told(rt, n, length, refusal[0], refusal[1], kept(&out, MARK))
}

pub(crate) fn calls(rt: &impl Print) -> u64
    ensures { result ≡ 7 }
{
    let names = b"policy from action on who to\n";
    let edges = b"policy from action on who to\n0 0 2 1 0 6\n0 0 1 1 0 1\n";
    let broken = b"policy from action on who to\n0 0 2 1 0 6\n0 0 1 4 0 1\n";
    lent::<TOO_SHORT>(rt, 0, names);
    lent::<LONGEST_SHEET>(rt, 1, names);
    lent::<LONGEST_SHEET>(rt, 2, b"local from action on who to\n");
    lent::<TOO_SHORT>(rt, 3, edges);
    lent::<LONGEST_SHEET>(rt, 4, edges);
    lent::<MOST_LENT>(rt, 5, edges);
    lent::<TOO_SHORT>(rt, 6, broken);
    lent::<LONGEST_SHEET>(rt, 7, broken)
}
