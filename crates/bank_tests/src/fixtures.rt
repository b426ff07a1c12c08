//! What several tests begin with, and how they compare.
ghost use Rattle.sb_amount.specs.Limit.{IsWithinLimit};

use sb_amount::Cents;
use sb_rows::{Columns, Name, Opening, read_opening};
use std::alloc::Global;
use std::process::Abort;

/// Checks one case.
pub(crate) fn expect(rt: &impl Abort, holds: bool, case: &str) {
    assert!(rt; holds, "{case}");
}

/// Checks the bytes of a case.
pub(crate) fn expect_bytes(rt: &impl Abort, found: &[u8], wanted: &[u8], case: &str) {
    assert!(rt; found == wanted, "{case}");
}

/// Checks the savings and the checking balances of columns.
pub(crate) fn expect_columns(
    rt: &impl Abort,
    columns: &Columns,
    savings: &[i64],
    checking: &[i64],
) {
    assert!(rt; columns.savings() == savings, "savings");
    assert!(rt; columns.checking() == checking, "checking balances");
}

pub(crate) fn name(rt: &impl Abort, text: &str) -> Name {
    Name::new(text.as_bytes()).expect(rt, "a name")
}

pub(crate) fn cents(rt: &impl Abort, number: i64) -> Cents
    ensures { IsWithinLimit result }
{
    Cents::new(number).expect(rt, "an amount within the limit")
}

/// The opening that a text without a fault spells.
pub(crate) fn valid_opening(rt: &impl Abort, alloc: Global, text: &str) -> Box<Opening> {
    let opening = read_opening(alloc, text.as_bytes()).expect(rt, "an opening");
    Box::new(alloc, opening).expect(rt, "memory for a box")
}

// Appends the line of the customer with this number.
fn push_line(rt: &impl Abort, alloc: Global, customer: u32, text: &mut String) {
    let line = format!(in alloc; "c{customer} 1.00 2.00\n").expect(rt, "memory for a line");
    text.push_str(line.as_str()).expect(rt, "memory for a text");
}

/// The lines of this many customers, each with another name, and then this text.
pub(crate) fn many_lines(rt: &impl Abort, alloc: Global, customers: u32, end: &str) -> String {
    let mut text = String::new(alloc);
    for customer in 0..customers {
        push_line(rt, alloc, customer, &mut text);
    }
    text.push_str(end).expect(rt, "memory for a text");
    text
}
