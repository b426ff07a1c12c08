//! Whole inputs, rows and whole outputs, by readers and writers that give and take little, and fail.
use std::process::Abort;

mod listings;
mod reads;
mod writes;

// Checks one case.
fn expect(rt: &impl Abort, holds: bool, case: &str) {
    assert!(rt; holds, "{case}");
}

// Checks the bytes of one case.
fn expect_bytes(rt: &impl Abort, found: &[u8], wanted: &[u8], case: &str) {
    assert!(rt; found == wanted, "{case}");
}
