// The third program (02, L1): reads `policies.txt` and `outline.txt` in the folder that it is run in, and prints a shortest
// counterexample as a trace sheet, where some trace of the outline breaks a policy while it is open.
#![tactic(auto)]

use sheet_lines::SHEET_ROOM;

fn main(rt: HostRuntime) {
    let mut policies = [0u8; SHEET_ROOM];
    let mut outline = [0u8; SHEET_ROOM];
    let p = files::read_sheet(&rt, b"policies.txt", &mut policies);
    let o = files::read_sheet(&rt, b"outline.txt", &mut outline);
    let mut out = [0u8; report::COUNTEREXAMPLE_ROOM];
    let n = report::report_counterexample(&policies[..p], &outline[..o], &mut out);
    files::print(&rt, &out, n);
}
