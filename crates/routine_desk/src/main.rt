// The program of the routine desk (02, L14): reads `policies.txt`, `outline.txt` and `trace.txt` in the folder that it is run in, loads the first
// two at a desk and hands it the steps of the third. It prints the monitor's lines with a number more, 1 where the lean judge gave the answer; in
// front of them, with line 0, what the check says of the outline. Of refused sheets only the first is told: policies, outline, trace.
#![tactic(auto)]

use sheet_lines::SHEET_ROOM;

fn main(rt: HostRuntime) {
    let mut policies = [0u8; SHEET_ROOM];
    let mut outline = [0u8; SHEET_ROOM];
    let mut trace = [0u8; SHEET_ROOM];
    let p = files::read_sheet(&rt, b"policies.txt", &mut policies);
    let o = files::read_sheet(&rt, b"outline.txt", &mut outline);
    let t = files::read_sheet(&rt, b"trace.txt", &mut trace);
    let mut out = [0u8; report_desk::DESK_ROOM];
    let n = report_desk::report_desk(&policies[..p], &outline[..o], &trace[..t], &mut out);
    files::print(&rt, &out, n);
}
