// The program that reads an outline typed as an expression (02, L13): reads `outline.expr` in the folder that it is run in, and prints its
// outline sheet.
#![tactic(auto)]

use sheet_lines::SHEET_ROOM;

fn main(rt: HostRuntime) {
    let mut text = [0u8; SHEET_ROOM];
    let n = files::read_sheet(&rt, b"outline.expr", &mut text);
    let mut out = [0u8; report::EXPRESSION_ROOM];
    let m = report::report_expression(&text[..n], &mut out);
    files::print(&rt, &out, m);
}
