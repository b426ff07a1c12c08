//! Checkpoints of small banks, spelled and listed by a plain program.
use super::{expect_text, listed};
use checkpoint_text::CheckpointListing;
use std::alloc::Global;
use std::process::Abort;

// The balances of three customers.
const SAVINGS: [i64; 3] = [0, 199, 1_000_000_000_000];

const CHECKING: [i64; 3] = [-150, 7, -999_999_999_999];

// The totals of the first of them.
const TOTALS: [(u32, i64); 4] = [(0, 0), (1, -150), (2, 56), (3, 57)];

const OPENING_TOTAL: i64 = -2_000_000_000_007;

// A checkpoint of this many of the customers, with replies `done`, in a layout.
#[derive(Clone, Copy)]
struct Case {
    customers: u32,
    replies: u64,
    second: bool,
}

fn put(rt: &impl Abort, field: &[u8], out: &mut Vec<u8>) {
    out.extend_from_slice(field)
        .expect(rt, "memory for a field");
}

// The bytes of a case.
fn spelled(rt: &impl Abort, alloc: Global, case: Case, total: i64) -> Vec<u8> {
    let mut bytes = Vec::new(alloc);
    let magic = if case.second {
        b"SBCKPT02"
    } else {
        b"SBCKPT01"
    };
    put(rt, magic, &mut bytes);
    put(rt, &case.replies.to_be_bytes(), &mut bytes);
    put(rt, &case.customers.to_be_bytes(), &mut bytes);
    for column in [SAVINGS, CHECKING] {
        for amount in column.iter().take(case.customers as usize) {
            put(rt, &amount.to_be_bytes(), &mut bytes);
        }
    }
    put(rt, &total.to_be_bytes(), &mut bytes);
    if case.second {
        put(rt, &OPENING_TOTAL.to_be_bytes(), &mut bytes);
    }
    for _ in 0..case.replies {
        put(rt, b"\x01\x00\x00\x00\x00\x00\x00\x00\x00", &mut bytes);
    }
    bytes
}

// Writes a word, an amount, and what ends it.
fn write_amount(rt: &impl Abort, word: &str, cents: i64, end: &str, out: &mut String) {
    let sign = if cents < 0 { "-" } else { "" };
    let size = cents.unsigned_abs();
    let (whole, rest) = (size / 100, size % 100);
    write!(out, "{word} {sign}{whole}.{rest:02}{end}").expect(rt, "memory for an amount");
}

// The listing of a case.
fn text_of(rt: &impl Abort, alloc: Global, case: Case, total: i64) -> String {
    let mut text = String::new(alloc);
    let Case {
        customers,
        replies,
        ..
    } = case;
    write!(text, "checkpoint {replies}\ncustomers {customers}\n").expect(rt, "memory for lines");
    write_amount(rt, "total", total, "\n", &mut text);
    if case.second {
        write_amount(rt, "opening", OPENING_TOTAL, "\n", &mut text);
    }
    for (place, savings) in SAVINGS.iter().enumerate().take(customers as usize) {
        write!(text, "{place}").expect(rt, "memory for a place");
        write_amount(rt, "", *savings, "", &mut text);
        write_amount(rt, "", CHECKING[place.min(2)], "\n", &mut text);
    }
    text
}

fn expect_case(rt: &impl Abort, alloc: Global, case: Case, total: i64) {
    let bytes = spelled(rt, alloc, case, total);
    let text = text_of(rt, alloc, case, total);
    let listing = listed(rt, alloc, &bytes, CheckpointListing::Balances);
    expect_text(rt, &listing, text.as_bytes(), "a small bank");
}

#[test]
fn small_banks(rt: HostRuntime) {
    for (customers, total) in TOTALS {
        for replies in [0u64, 1, 11] {
            for second in [false, true] {
                let case = Case {
                    customers,
                    replies,
                    second,
                };
                expect_case(&rt, rt.alloc(), case, total);
            }
        }
    }
}
