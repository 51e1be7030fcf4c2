// The program that prints a summary (02, L11): reads `policies.txt` and `outline.txt` in the folder that it is run in, and prints which
// actions, and whether its opening, can be the last step of a trace that leaves each policy open and not respected.
#![tactic(auto)]

use sheet_lines::SHEET_ROOM;

fn main(rt: HostRuntime) {
    let mut policies = [0u8; SHEET_ROOM];
    let mut outline = [0u8; SHEET_ROOM];
    let p = files::read_sheet(&rt, b"policies.txt", &mut policies);
    let o = files::read_sheet(&rt, b"outline.txt", &mut outline);
    let mut out = [0u8; report::SUMMARY_ROOM];
    let n = report::report_summary(&policies[..p], &outline[..o], &mut out);
    files::print(&rt, &out, n);
}
