// The first program (document 01, "The two programs"): reads `policies.txt` and `trace.txt` in the folder that it is run in, and
// prints the answer to each step.
#![tactic(auto)]

use sheet_lines::SHEET_ROOM;

fn main(rt: HostRuntime) {
    let mut policies = [0u8; SHEET_ROOM];
    let mut trace = [0u8; SHEET_ROOM];
    let p = files::read_sheet(&rt, b"policies.txt", &mut policies);
    let t = files::read_sheet(&rt, b"trace.txt", &mut trace);
    let mut out = [0u8; report::TRACE_ROOM];
    let n = report::report_trace(&policies[..p], &trace[..t], &mut out);
    files::print(&rt, &out, n);
}
