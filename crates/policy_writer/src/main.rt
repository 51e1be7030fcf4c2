// The fourth program (02, L12): reads `policies.txt` in the folder that it is run in, and prints the sheet as there is one way to write it.
#![tactic(auto)]

use sheet_lines::SHEET_ROOM;

fn main(rt: HostRuntime) {
    let mut policies = [0u8; SHEET_ROOM];
    let p = files::read_sheet(&rt, b"policies.txt", &mut policies);
    let mut out = [0u8; report::POLICIES_ROOM];
    let n = report::report_policies(&policies[..p], &mut out);
    files::print(&rt, &out, n);
}
