// A text of one of the three sheets is read into a buffer of values (document 01, "Sheets"; refusals 5, 1, 4, 13, 11, 12, 2, 3, 14).
#![tactic(auto)]

ghost use Rattle.std.specs.Prelude.{◌≡◌, [], ◌+◌, ◌≤◌, length, take, drop};
ghost use Rattle.usage.specs.Limits.{most_steps};
ghost use Rattle.sheet_bytes.specs.Line.{lines_of};
ghost use Rattle.sheet_lines.specs.Sheet.{value_lines, starts_with, sheet as sheet-of};
ghost use Rattle.sheet_lines.specs.Sheets.{policy_names_lem, is_local as local-text, sheet_of};
ghost use Rattle.sheet_lines.specs.Answer.{reading_answer, answered, most_values, filled};
ghost use Rattle.sheet_lines.specs.Code.{empty_part as nothing_read, answer_after_lem, pairs_with};
ghost use Rattle.sheet_lines.specs.Code.{held_by, rest_after, held_onto};

use sheet_bytes::{Next, Part};
use sheet_fields::{Kind, NODE_LINE_FIELDS};
use usage::{
    EDGE_FIELDS, MOST_EDGES, MOST_NODES, MOST_STEPS, Reason, STEP_FIELDS, STEP_TABLE, SheetRefusal,
};

// How many values a sheet has at most: a trace has the most.
pub const MOST_VALUES: usize = STEP_TABLE;

// Document 01: "5 longer than 32,768 bytes", as usage's `longest_sheet` has it.
pub const LONGEST_SHEET: usize = 32768;

// A program reads one byte more, which tells a longer one.
pub const SHEET_ROOM: usize = LONGEST_SHEET + 1;

// A sheet is read into the buffer; the answer is how many value lines it has. A refusal leaves the buffer as it was. Document 01:
// "Order: 5, 1, then line by line 4, 2, 3".
pub fn sheet(
    text: &[u8],
    kind: Kind,
    buffer: &mut [u32; MOST_VALUES],
) -> Result<usize, SheetRefusal>
    ensures result_value { reading_answer result ≡ answered (sheet-of (sheet_of kind) text.now) }
    ensures buffer_after { buffer.new ≡ filled (sheet-of (sheet_of kind) text.now) buffer.old }
{
    if LONGEST_SHEET < text.len() {
        return Err(SheetRefusal {
            line: 0,
            reason: Reason::TooLong,
        });
    }
    if !named(text, kind) {
        return Err(SheetRefusal {
            line: 1,
            reason: Reason::NamesLine,
        });
    }
    let mut local = [0u32; MOST_VALUES];
    let count = lines(text, names_length(kind), kind, &mut local)?;
    *buffer = local;
    Ok(count)
}

// How many values are on a line.
fn fields(kind: Kind) -> usize
    ensures { result ≡ (sheet_of kind).fields }
{
    match kind {
        Kind::Policies { local: _ } => EDGE_FIELDS,
        Kind::Trace => STEP_FIELDS,
        Kind::Outline => NODE_LINE_FIELDS,
    }
}

// How many value lines are allowed.
fn most(kind: Kind) -> usize
    ensures { result ≡ (sheet_of kind).most }
{
    match kind {
        Kind::Policies { local: _ } => MOST_EDGES,
        Kind::Trace => MOST_STEPS,
        Kind::Outline => MOST_NODES,
    }
}

// How long the names line is.
fn names_length(kind: Kind) -> usize
    ensures { result ≡ length (sheet_of kind).names }
{
    match kind {
        Kind::Policies { local } => if local { 28 } else { 29 },
        Kind::Trace => 9,
        Kind::Outline => 14,
    }
}

// The text is a sheet of local policies (02, L7).
pub fn is_local(text: &[u8]) -> bool
    ensures { result ≡ local-text text.now }
{
    text.starts_with(b"local from action on who to\n")
}

// The names line is that of policies that see the past of their sandbox, or the whole past.
fn policies_named(text: &[u8], local: bool) -> bool
    ensures { result ≡ starts_with (policy_names_lem local) text.now }
{
    if local {
        return is_local(text);
    }
    text.starts_with(b"policy from action on who to\n")
}

// The names line is that of the sheet.
fn named(text: &[u8], kind: Kind) -> bool
    ensures { result ≡ starts_with (sheet_of kind).names text.now }
{
    match kind {
        Kind::Policies { local } => policies_named(text, local),
        Kind::Trace => text.starts_with(b"kind a b\n"),
        Kind::Outline => text.starts_with(b"node kind a b\n"),
    }
}

// Nothing has been read of a line.
fn nothing() -> Part
    ensures { result ≡ nothing_read }
{
    Part {
        count: 0,
        digits: 0,
        value: 0,
        fault: 0,
    }
}

// The values of a line, which stand in the buffer from base on, are in the ranges of their fields.
fn in_range(kind: Kind, buffer: &[u32; MOST_VALUES], base: usize) -> bool
    requires { base + (sheet_of kind).fields ≤ most_values }
    ensures { result ≡ (sheet_of kind).in_range_lem (take (sheet_of kind).fields (drop base buffer.now)) }
{
    let end = base + fields(kind);
    sheet_fields::line_fits(kind, &buffer[base..end])
}

// The pair policies of the lines so far, as a bit set, with those of the line whose values stand in the buffer from base on (02, L10).
fn with_line(kind: Kind, buffer: &[u32; MOST_VALUES], base: usize, pairs: u8) -> u8
    requires { base + (sheet_of kind).fields ≤ most_values }
    ensures { result ≡ pairs_with kind pairs (take (sheet_of kind).fields (drop base buffer.now)) }
{
    match kind {
        Kind::Policies { local: _ } => automaton::pairs::joined(
            pairs,
            buffer[base],
            buffer[base + 3],
        ),
        Kind::Trace => pairs,
        Kind::Outline => pairs,
    }
}

// The answer where the lines end, or are refused at the line after n that were accepted.
fn answer_after(n: usize, read: Result<usize, Reason>) -> Result<usize, SheetRefusal>
    requires { n ≤ most_steps }
    ensures { result ≡ answer_after_lem n read }
{
    read.map_err(|reason| SheetRefusal {
        line: n + 2,
        reason,
    })
}

// The value lines of a text from `from` on are read into the buffer, the values one after the other. Document 01: "then line by
// line 4, 2, 3", 02, L2: "13, 11, 12, 2, where 2 stood", and L10: 14 "after 3". The first line that is refused ends both loops, at its end.
// Kept: counted by hand, since one index runs through both loops (the form that docs/CONVENTIONS.md names).
fn lines(
    text: &[u8],
    from: usize,
    kind: Kind,
    buffer: &mut [u32; MOST_VALUES],
) -> Result<usize, SheetRefusal>
    requires { from ≤ length text.now }
    ensures buffer_after { held_by (sheet_of kind).fields result buffer.new
        ≡ held_onto 0 [] (value_lines (sheet_of kind) 2 (sheet_of kind).most (lines_of (drop from text.now))) }
    ensures buffer_unchanged { rest_after (sheet_of kind).fields result buffer.new
        ≡ rest_after (sheet_of kind).fields result buffer.old }
{
    let fields = fields(kind);
    let most = most(kind);
    let mut i = from;
    let mut n: usize = 0;
    let mut pairs: u8 = 0;
    let read = 'lines: loop {
        if text.len() <= i {
            break 'lines Ok(n);
        }
        if n == most {
            break 'lines Err(Reason::TooManyLines);
        }
        let base = n * fields;
        let mut p = nothing();
        'bytes: loop {
            if text.len() <= i {
                break 'lines Err(Reason::NoLineFeed);
            }
            let at = base + p.count;
            buffer[at] = p.value as u32;
            let next = sheet_bytes::step(fields, p, text[i]);
            i += 1;
            match next {
                Next::Goes(q) => p = q,
                Next::Ends => break 'bytes,
                Next::Malformed(reason) => break 'lines Err(reason),
            }
        }
        if !in_range(kind, buffer, base) {
            break 'lines Err(Reason::Range);
        }
        pairs = with_line(kind, buffer, base, pairs);
        if automaton::pairs::many(pairs) {
            break 'lines Err(Reason::ThirdPair);
        }
        n += 1;
    };
    answer_after(n, read)
}
