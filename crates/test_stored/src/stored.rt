// The stored cases of the two programs: of trace n the sheets t/np and t/nt, of outline n the sheets o/np and o/no, four digits to a
// number. What is printed is compared with what the reference program printed for them.
ghost use Rattle.std.specs.Prelude.{◌≡◌, [], ◌∷◌, ◌+◌, ◌%◌, ◌/◌};
ghost use Rattle.files.specs.Counts.{IsPrefixLen};

use crate::print;
use files::Sheet;
use std::rt::Files;

// the last digit of n
fn digit(n: u64) -> u8
    ensures { result ≡ 48 + n % 10 }
{
    (48 + n % 10) as u8
}

// The name of a sheet of case n: a folder, the number, which sheet.
fn name(folder: u8, n: u64, which: u8) -> [u8; 7]
    ensures { result
        ≡ folder ∷ 47 ∷ (48 + n / 1000 % 10) ∷ (48 + n / 100 % 10) ∷ (48 + n / 10 % 10) ∷ (48 + n % 10) ∷ which ∷ [] }
{
    [
        folder,
        b'/',
        digit(n / 1000),
        digit(n / 100),
        digit(n / 10),
        digit(n),
        which,
    ]
}

// The line before a case, printed; its number is handed back.
pub(crate) fn announced(rt: &impl Print, n: u64) -> u64
    ensures { result ≡ n }
{
    let _ = rt.write_all(b"case ");
    print::number(rt, n, b"\n")
}

// A sheet of case n, read.
pub(crate) fn sheet(rt: &impl Files, folder: u8, n: u64, which: u8) -> Sheet
    ensures { IsPrefixLen result.count result.bytes }
{
    Sheet::read(rt, &name(folder, n, which))
}

// All cases of a kind, one after the other.
pub(crate) fn each<F: Fn(u64) -> u64>(count: u64, case: F) -> u64
    requires { F.IsAlwaysCallable case }
    ensures { result ≡ count }
{
    for n in 0..count {
        case(n);
    }
    count
}

fn trace_case(rt: &(impl Files + Print), n: u64) -> u64
    ensures { result ≡ n }
{
    let policies = sheet(rt, b't', n, b'p');
    let trace = sheet(rt, b't', n, b't');
    let mut out = [0u8; report::TRACE_ROOM];
    let k = report::report_trace(policies.text(), trace.text(), &mut out);
    announced(rt, n);
    files::print(rt, &out, k);
    n
}

fn outline_case(rt: &(impl Files + Print), n: u64) -> u64
    ensures { result ≡ n }
{
    let policies = sheet(rt, b'o', n, b'p');
    let outline = sheet(rt, b'o', n, b'o');
    let mut out = [0u8; report::OUTLINE_ROOM];
    let k = report::report_outline(policies.text(), outline.text(), &mut out);
    announced(rt, n);
    files::print(rt, &out, k);
    n
}

pub(crate) fn traces(rt: &(impl Files + Print), count: u64) -> u64
    ensures { result ≡ count }
{
    each(count, |n| trace_case(rt, n))
}

pub(crate) fn outlines(rt: &(impl Files + Print), count: u64) -> u64
    ensures { result ≡ count }
{
    each(count, |n| outline_case(rt, n))
}
