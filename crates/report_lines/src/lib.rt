// The lines that the programs print, put into a lent buffer. Where the buffer lacks the room for one, nothing is written.
#![tactic(auto)]

ghost use Rattle.std.specs.Prelude.{◌≡◌, ◌+◌, ◌<◌, ◌≤◌, length};
ghost use Rattle.std.proofs.lemmas.List.Edits.{sets};
ghost use Rattle.sheet_lines.specs.Sheets.{policy_names_lem};
ghost use Rattle.report_lines.specs.Decimal.{decimal};
ghost use Rattle.report_lines.specs.Lines.{names_line, trace_names_line, node_names_line, field as lines_field, three as lines_three};
ghost use Rattle.report_lines.specs.Lines.{row as lines_row, numbered_row_lem, values_line, values_room};
ghost use Rattle.report_lines.specs.Lines.{mark_names_line, desk_names_line, mark_row_lem};
ghost use Rattle.report_lines.specs.Put.{put_at, end_at, put_within, end_within};

// The bytes of the line of names, and of those of a trace sheet, of an outline sheet, of a summary and of a desk's answers.
pub const NAMES: usize = 19;

pub const TRACE_NAMES: usize = 9;

pub const NODE_NAMES: usize = 14;

pub const MARK_NAMES: usize = 14;

pub const DESK_NAMES: usize = 24;

// The bytes of a line of six values at most: ten digits each, and a byte after it.
pub const VALUES_ROOM: usize = 66;

// The line of names, at the start: the place after it, and 0 where `out` lacks the room.
// Kept: a function for each names line: each is one call of `begin`, and its contract names its line.
pub fn names(out: &mut [u8]) -> usize
    ensures value { result ≡ end_at out.old 0 names_line }
    ensures out_after { out.new ≡ put_at out.old 0 names_line }
{
    begin(out, b"line answer detail\n")
}

// The same with the names line of a trace sheet.
pub fn trace_names(out: &mut [u8]) -> usize
    ensures value { result ≡ end_at out.old 0 trace_names_line }
    ensures out_after { out.new ≡ put_at out.old 0 trace_names_line }
{
    begin(out, b"kind a b\n")
}

// The same with the names line of a policy sheet, of policies that see the past of their sandbox or the whole past.
pub fn policy_names(out: &mut [u8], local: bool) -> usize
    ensures value { result ≡ end_at out.old 0 (policy_names_lem local) }
    ensures out_after { out.new ≡ put_at out.old 0 (policy_names_lem local) }
{
    if local {
        return begin(out, b"local from action on who to\n");
    }
    begin(out, b"policy from action on who to\n")
}

// The same with the names line of an outline sheet.
pub fn node_names(out: &mut [u8]) -> usize
    ensures value { result ≡ end_at out.old 0 node_names_line }
    ensures out_after { out.new ≡ put_at out.old 0 node_names_line }
{
    begin(out, b"node kind a b\n")
}

// The same with the names line of a summary.
pub fn mark_names(out: &mut [u8]) -> usize
    ensures value { result ≡ end_at out.old 0 mark_names_line }
    ensures out_after { out.new ≡ put_at out.old 0 mark_names_line }
{
    begin(out, b"policy action\n")
}

// The same with the names of a desk's answers, which also tell whether the lean judge gave one.
pub fn desk_names(out: &mut [u8]) -> usize
    ensures value { result ≡ end_at out.old 0 desk_names_line }
    ensures out_after { out.new ≡ put_at out.old 0 desk_names_line }
{
    begin(out, b"line answer detail lean\n")
}

// A text, at the start.
fn begin(out: &mut [u8], text: &[u8]) -> usize
    ensures value { result ≡ end_at out.old 0 text.now }
    ensures out_after { out.new ≡ put_at out.old 0 text.now }
{
    if out.len() < text.len() {
        return 0;
    }
    out[..text.len()].copy_from_slice(text);
    text.len()
}

// One printed line, from `at` on: the place after it, and `at` where `out` lacks the room.
// Kept: a function for each number of fields: one for all would loop twice over a list, where these are calls of `width` and `field`.
pub fn row(out: &mut [u8], at: usize, line: usize, answer: usize, detail: usize) -> usize
    ensures value { result ≡ end_at out.old at (lines_row line answer detail) }
    ensures out_after { out.new ≡ put_at out.old at (lines_row line answer detail) }
{
    let needed = width(line) + width(answer) + width(detail) + 3;
    if out.len().saturating_sub(at) < needed {
        return at;
    }
    three(out, at, line, answer, detail, b'\n')
}

// A line of six values, from `at` on: the place after it, and `at` where `out` lacks the room for the longest such line. One test of the
// room serves all six.
pub fn values(out: &mut [u8], at: usize, v: [u32; 6]) -> usize
    ensures value { result ≡ end_within values_room out.old at (values_line v) }
    ensures out_after { out.new ≡ put_within values_room out.old at (values_line v) }
{
    if out.len().saturating_sub(at) < VALUES_ROOM {
        return at;
    }
    let fourth = three(out, at, v[0] as usize, v[1] as usize, v[2] as usize, b' ');
    three(
        out,
        fourth,
        v[3] as usize,
        v[4] as usize,
        v[5] as usize,
        b'\n',
    )
}

// Three numbers with single spaces between them, and the byte after them.
fn three(out: &mut [u8], at: usize, a: usize, b: usize, c: usize, end: u8) -> usize
    requires { at + (length (decimal a) + length (decimal b) + length (decimal c) + 3) ≤ length out.old }
    ensures value { result ≡ at + length (lines_three a b c end) }
    ensures out_after { out.new ≡ sets out.old at (lines_three a b c end) }
{
    let second = field(out, at, a, b' ');
    let third = field(out, second, b, b' ');
    field(out, third, c, end)
}

// The same with a number before the three.
pub fn numbered_row(
    out: &mut [u8],
    at: usize,
    number: usize,
    kind: usize,
    a: usize,
    b: usize,
) -> usize
    ensures value { result ≡ end_at out.old at (numbered_row_lem number kind a b) }
    ensures out_after { out.new ≡ put_at out.old at (numbered_row_lem number kind a b) }
{
    let needed = width(number) + width(kind) + width(a) + width(b) + 4;
    if out.len().saturating_sub(at) < needed {
        return at;
    }
    let next = field(out, at, number, b' ');
    row(out, next, kind, a, b)
}

// A mark of a summary on a line of its own, from `at` on: the place after it, and `at` where `out` lacks the room.
pub fn mark_row(out: &mut [u8], at: usize, policy: usize, action: usize) -> usize
    ensures value { result ≡ end_at out.old at (mark_row_lem policy action) }
    ensures out_after { out.new ≡ put_at out.old at (mark_row_lem policy action) }
{
    let needed = width(policy) + width(action) + 2;
    if out.len().saturating_sub(at) < needed {
        return at;
    }
    let next = field(out, at, policy, b' ');
    field(out, next, action, b'\n')
}

// How many digits n has.
fn width(n: usize) -> usize
    ensures value { result ≡ length (decimal n) }
    ensures upper_bound { result ≤ 20 }
{
    if 10 <= n {
        let rest = width(n / 10);
        return rest + 1;
    }
    1
}

// The digits of n, from `at` on.
fn number(out: &mut [u8], at: usize, n: usize) -> usize
    requires { at + length (decimal n) ≤ length out.old }
    ensures value { result ≡ at + length (decimal n) }
    ensures out_after { out.new ≡ sets out.old at (decimal n) }
{
    if n < 10 {
        out[at] = b'0' + n as u8;
        return at + 1;
    }
    let last = number(out, at, n / 10);
    out[last] = b'0' + (n % 10) as u8;
    last + 1
}

// A number and the byte after it. Most numbers have one digit, which is put without a call.
fn field(out: &mut [u8], at: usize, n: usize, end: u8) -> usize
    requires { at + length (decimal n) < length out.old }
    ensures value { result ≡ at + length (decimal n) + 1 }
    ensures out_after { out.new ≡ sets out.old at (lines_field n end) }
    ensures out_len_unchanged { length out.new ≡ length out.old }
{
    if 10 <= n {
        let last = number(out, at, n);
        out[last] = end;
        return last + 1;
    }
    out[at] = b'0' + n as u8;
    out[at + 1] = end;
    at + 2
}
