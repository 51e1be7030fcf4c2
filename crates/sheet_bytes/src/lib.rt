// The values of one line of a sheet, read byte by byte, and what is wrong with it (refusals 11, 12, 2, and 3 where no field has such a value).
#![tactic(auto)]

ghost use Rattle.std.specs.Prelude.{◌≡◌};
ghost use Rattle.sheet_bytes.specs.Class.{class_of};
ghost use Rattle.sheet_bytes.specs.Code.{with_fault_lem, fault_reason, value_with, digit_step, last_digit_lem, space_step, is_complete};
ghost use Rattle.sheet_bytes.specs.Code.{fault_end, end_step, byte_step};

use crate::class::Class;
use usage::Reason;

mod class;

// 02, L9: "Let a value have up to ten digits", as usage's `most_digits` has it.
const MOST_DIGITS: usize = 10;

// A value of so many digits is one that a field may have.
const SAFE_DIGITS: usize = MOST_DIGITS - 1;

// No field goes beyond the last resource: what it may hold is below this.
const VALUES: u64 = usage::LAST_RESOURCE as u64 + 1;

// What may be wrong with a line, the gravest last. 02, L2: "within a line in the order 13, 11, 12, 2", and 3 after it. Kept: numbers,
// since an enum beside the other fields of `Part` was tried and takes a third more instructions for each byte that is read.
const RANGE: usize = 1;

const FORM: usize = 2;

const LENGTH: usize = 3;

const BYTE: usize = 4;

// What has been read of a line: how many values before; of the value that is being read how many digits and its number so far; and the
// gravest fault so far, 0 where there is none.
#[derive(Clone, Copy)]
pub struct Part {
    pub count: usize,
    pub digits: usize,
    pub value: u64,
    pub fault: usize,
}

// The line goes on, ends with its last value read, or is refused.
#[derive(Clone, Copy)]
pub enum Next {
    Goes(Part),
    Ends,
    Malformed(Reason),
}

// One more byte of a line of n fields. A fault is told at the end of its line: a graver one may follow.
#[tactic(auto, unfolding(crate::specs::Code::byte_step))]
pub fn step(n: usize, p: Part, b: u8) -> Next
    ensures { result ≡ byte_step n p b }
{
    match class::of(b) {
        Class::Digit => Next::Goes(digit(p, b)),
        Class::Space => Next::Goes(space(n, p)),
        Class::LineFeed => end(n, p),
        Class::Other => Next::Goes(with_fault(p, BYTE)),
    }
}

// The gravest fault of a line is kept.
fn with_fault(p: Part, fault: usize) -> Part
    ensures { result ≡ with_fault_lem p fault }
{
    if fault <= p.fault {
        return p;
    }
    Part { fault, ..p }
}

// Why a line with this fault is refused.
fn reason(fault: usize) -> Reason
    ensures { result ≡ fault_reason fault }
{
    match fault {
        FORM => Reason::Form,
        BYTE => Reason::OtherByte,
        _ => Reason::Overlong,
    }
}

// A value with one more digit. The remainder changes no value of a line; with it no part that a caller makes up overflows.
fn grown(value: u64, b: u8) -> u64
    requires { class_of b ≡ 0 }
    ensures { result ≡ value_with value b }
{
    value % VALUES * 10 + (b as u64 - 48)
}

// 02, L9: "up to ten digits"; document 01: "leading zeros allowed".
fn digit(p: Part, b: u8) -> Part
    requires { class_of b ≡ 0 }
    ensures { result ≡ digit_step p b }
{
    if SAFE_DIGITS <= p.digits {
        return last_digit(p, b);
    }
    Part {
        digits: p.digits + 1,
        value: grown(p.value, b),
        ..p
    }
}

// The last digit that a value may have can take it out of every field's range; what is kept of it then does not matter. The digits after
// that one are not counted.
fn last_digit(p: Part, b: u8) -> Part
    requires { class_of b ≡ 0 }
    ensures { result ≡ last_digit_lem p (value_with p.value b) }
{
    if MOST_DIGITS <= p.digits {
        return with_fault(p, LENGTH);
    }
    let value = grown(p.value, b);
    let digits = p.digits + 1;
    if VALUES <= value {
        let far = Part {
            digits,
            value: 0,
            ..p
        };
        return with_fault(far, RANGE);
    }
    Part { digits, value, ..p }
}

// Document 01: "parted by one or more spaces, none at either end of a line".
fn space(n: usize, p: Part) -> Part
    ensures { result ≡ space_step n p }
{
    if p.digits == 0 {
        if p.count == 0 {
            return with_fault(p, FORM);
        }
        return p;
    }
    let last = Part {
        digits: 0,
        value: 0,
        ..p
    };
    if n <= p.count {
        return with_fault(last, FORM);
    }
    let count = p.count + 1;
    if n <= count {
        return with_fault(last, FORM);
    }
    Part { count, ..last }
}

// The last of n values is being read.
fn is_complete(n: usize, p: Part) -> bool
    ensures { result ≡ is_complete n p }
{
    p.digits != 0 && p.count < n && p.count + 1 == n
}

// The end of a line with a fault. A value out of range counts only in a line that is well formed.
fn faulty(n: usize, p: Part) -> Next
    ensures { result ≡ fault_end n p }
{
    if p.fault != RANGE {
        return Next::Malformed(reason(p.fault));
    }
    if is_complete(n, p) {
        return Next::Malformed(Reason::Range);
    }
    Next::Malformed(Reason::Form)
}

// At the line feed the last value must have been read.
fn end(n: usize, p: Part) -> Next
    ensures { result ≡ end_step n p }
{
    if p.fault != 0 {
        return faulty(n, p);
    }
    if is_complete(n, p) {
        return Next::Ends;
    }
    Next::Malformed(Reason::Form)
}
