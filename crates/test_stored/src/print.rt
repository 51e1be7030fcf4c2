// Numbers on standard output.
ghost use Rattle.std.specs.Prelude.{◌≡◌};

// A number and what comes after it, printed; the number is handed back.
pub(crate) fn number(rt: &impl Print, n: u64, after: &[u8]) -> u64
    ensures { result ≡ n }
{
    let _ = rt.print(n);
    let _ = rt.write_all(after);
    n
}

// The number of a call, its answer and the detail, printed with what comes after them; the code is handed back.
pub(crate) fn told(rt: &impl Print, call: u64, code: u32, after: &[u8]) -> u32
    ensures { result ≡ code }
{
    number(rt, call, b" ");
    number(rt, code as u64 / 256, b" ");
    number(rt, code as u64 % 256, after);
    code
}

// The line of a call.
pub(crate) fn line(rt: &impl Print, call: u64, code: u32) -> u32
    ensures { result ≡ code }
{
    told(rt, call, code, b"\n")
}
