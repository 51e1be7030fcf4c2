// The stored cases of the program that reads an expression: of case n the text e/ne. What is printed is compared with what the reference
// program printed for them. Then the reader, lent a table with one place too few and one with just enough.
ghost use Rattle.std.specs.Prelude.{◌≡◌};

use crate::{borders, print, stored};
use std::rt::Files;
use usage::NODE_TABLE;

// One place too few.
const FEW_NODES: usize = NODE_TABLE - 1;

fn case(rt: &(impl Files + Print), n: u64) -> u64
    ensures { result ≡ n }
{
    let expression = stored::sheet(rt, b'e', n, b'e');
    let mut out = [0u8; report::EXPRESSION_ROOM];
    let k = report::report_expression(expression.text(), &mut out);
    stored::announced(rt, n);
    files::print(rt, &out, k);
    n
}

// The number of the call, the answer and its detail: 40, and 15 where there is room.
pub(crate) fn room_calls(rt: &impl Print) -> u64
    ensures { result ≡ 2 }
{
    let mut few_nodes = [0u8; FEW_NODES];
    print::line(
        rt,
        0,
        borders::code_of(sheet_expression::read_expression(b"", &mut few_nodes)),
    );
    let mut nodes = [0u8; NODE_TABLE];
    print::line(
        rt,
        1,
        borders::code_of(sheet_expression::read_expression(b"", &mut nodes)),
    );
    2
}

pub(crate) fn all(rt: &(impl Files + Print), count: u64) -> u64
    ensures { result ≡ count }
{
    stored::each(count, |n| case(rt, n))
}
