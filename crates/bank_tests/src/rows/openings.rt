//! Openings that are read, and openings that are refused.
use super::{columns, directories};
use crate::fixtures::{expect, expect_columns, many_lines, valid_opening};
use sb_rows::{LineFault, Opening, OpeningFault, read_opening};
use std::alloc::Global;
use std::process::Abort;

// Checks an opening's number of customers, and the number of bytes that it takes.
fn expect_size(rt: &impl Abort, opening: &Opening, customers: usize, consumed: usize) {
    expect(rt, opening.directory.len() == customers, "names");
    expect(rt, opening.columns.customers() == customers, "balances");
    expect(rt, opening.consumed == consumed, "bytes");
}

#[test]
fn an_opening_of_three(rt: HostRuntime) {
    let text = "alice 100.00 50.00\nbob 0.00 20.00\ncarol 10.00 0.00\nbegin\nalice bob\n";
    let opening = valid_opening(&rt, rt.alloc(), text);
    expect_size(&rt, &opening, 3, 57);
    expect_columns(
        &rt,
        &opening.columns,
        &[10_000, 0, 1_000],
        &[5_000, 2_000, 0],
    );
    directories::expect_names(&rt, &opening.directory, &["alice", "bob", "carol"]);
    directories::expect_no_name(&rt, &opening.directory, "dave");
}

// Checks the copies of an opening whose last customer has this place and name.
fn expect_copies(rt: &impl Abort, alloc: Global, opening: &Opening, last: u32, name: &str) {
    let copy = columns::copy_of(rt, alloc, &opening.columns);
    let (savings, checking) = (opening.columns.savings(), opening.columns.checking());
    expect_columns(rt, &copy, savings, checking);
    let copy = directories::copy_of(rt, alloc, &opening.directory);
    directories::expect_name(rt, &copy, last, name);
}

#[test]
fn as_many_customers_as_a_bank_has(rt: HostRuntime) {
    let text = many_lines(&rt, rt.alloc(), 65_536, "begin\n");
    let opening = valid_opening(&rt, rt.alloc(), text.as_str());
    expect_size(&rt, &opening, 65_536, text.len());
    expect_copies(&rt, rt.alloc(), &opening, 65_535, "c65535");
}

// Each fault of a line, with its line.
const FAULTS: &[(&str, usize, LineFault)] = &[
    ("", 1, LineFault::NoBegin),
    ("bob 0.00\nbegin", 1, LineFault::BadLine),
    ("bob 0.00 20.00\n\nbegin", 2, LineFault::BadLine),
    ("bob 0.00  20.00\nbegin", 1, LineFault::BadLine),
    ("Bob 0.00 20.00\nbegin", 1, LineFault::BadName),
    (
        "bob 0.00 20.00\nbob 1.00 2.00\nbegin",
        2,
        LineFault::DoubleName,
    ),
    ("bob 0.00 20.00\r\nbegin", 1, LineFault::BadMoney),
    ("bob -0.01 0.00\nbegin", 1, LineFault::NegativeSavings),
];

// Checks that a text is refused at this line.
fn expect_fault(rt: &impl Abort, alloc: Global, text: &str, line: usize, fault: LineFault) {
    let found = read_opening(alloc, text.as_bytes()).err();
    expect(rt, found == Some(OpeningFault::Line { line, fault }), text);
}

#[test]
fn openings_that_are_refused(rt: HostRuntime) {
    for (text, line, fault) in FAULTS {
        expect_fault(&rt, rt.alloc(), text, *line, *fault);
    }
    let text = many_lines(&rt, rt.alloc(), 65_537, "begin\n");
    expect_fault(&rt, rt.alloc(), text.as_str(), 65_537, LineFault::TooMany);
}
