//! Amounts worked by hand, and as a plain program prints them.
use crate::fixtures::{expect, expect_bytes};
use sb_amount::{Cents, MoneyFault, print, print_total, totals_are_short, write_total};
use std::alloc::Global;
use std::process::Abort;

// Texts, each with its cents or with its first fault.
const TEXTS: &[(&str, Result<i64, MoneyFault>)] = &[
    ("0.00", Ok(0)),
    ("-0.01", Ok(-1)),
    ("10000000000.00", Ok(1_000_000_000_000)),
    ("10000000000.01", Err(MoneyFault::TooLarge)),
    ("", Err(MoneyFault::Empty)),
    ("-", Err(MoneyFault::Empty)),
    ("1,00", Err(MoneyFault::NotDigit)),
    ("+1.00", Err(MoneyFault::NotDigit)),
    ("1.0", Err(MoneyFault::BadDecimals)),
    ("1", Err(MoneyFault::BadDecimals)),
    ("01.00", Err(MoneyFault::NotCanonical)),
    (".50", Err(MoneyFault::NotCanonical)),
    ("-0.00", Err(MoneyFault::NotCanonical)),
];

// Checks how a text is read. What is read is printed as the text.
fn expect_read(rt: &impl Abort, text: &str, wanted: Result<i64, MoneyFault>) {
    match Cents::read(text.as_bytes()) {
        Ok(amount) => {
            expect(rt, wanted == Ok(amount.value()), text);
            expect(rt, print(amount).as_str() == text, text);
        }
        Err(fault) => expect(rt, wanted == Err(fault), text),
    }
}

#[test]
fn texts_that_are_read_or_refused(rt: HostRuntime) {
    for (text, wanted) in TEXTS {
        expect_read(&rt, text, *wanted);
    }
}

// Money text as std's formatting writes it.
fn plain_money(rt: &impl Abort, alloc: Global, number: i32) -> String {
    let sign = if number < 0 { "-" } else { "" };
    let size = number.unsigned_abs();
    format!(in alloc; "{sign}{}.{:02}", size / 100, size % 100).expect(rt, "memory for a text")
}

// Checks that this many cents are printed as this text, and written so before the last byte.
fn expect_printed(rt: &impl Abort, number: i64, text: &str) {
    expect(rt, print_total(number).as_str() == text, text);
    let mut bytes = [b'#'; 24];
    totals_are_short(number);
    let start = write_total(number, &mut bytes, 23);
    let written = bytes[start..].strip_suffix(b"#").unwrap_or(b"");
    expect_bytes(rt, written, text.as_bytes(), text);
}

#[test]
fn as_a_plain_program_prints(rt: HostRuntime) {
    for number in -9999..10000 {
        let plain = plain_money(&rt, rt.alloc(), number);
        expect_printed(&rt, i64::from(number), plain.as_str());
        expect_read(&rt, plain.as_str(), Ok(i64::from(number)));
    }
    expect_printed(&rt, i64::MIN, "-92233720368547758.08");
    expect_printed(&rt, i64::MAX, "92233720368547758.07");
}
